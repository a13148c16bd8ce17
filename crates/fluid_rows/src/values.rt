// JSON values: read, copied, printed, and made by hand.
use fluid_json::{
    Bytes, Items, Json, JsonFault, NoMemory, Pairs, Printer, Text, print, read, read_stored,
};
use fluid_types::body;
use std::alloc::Global;

// What a text from outside is read as.
pub(crate) fn read_told(alloc: Global, text: &str) -> Result<Text, NoMemory> {
    match read(alloc, text) {
        Ok(value) => copy_printed(alloc, &value),
        Err(fault) => fault_told(alloc, fault),
    }
}

// What a text that was stored is read as.
pub(crate) fn stored_told(alloc: Global, text: &str) -> Result<Text, NoMemory> {
    match read_stored(alloc, text) {
        Ok(value) => copy_printed(alloc, &value),
        Err(fault) => fault_told(alloc, fault),
    }
}

fn copy_printed(alloc: Global, value: &Json) -> Result<Text, NoMemory> {
    let copy = value.copy(alloc)?;
    print(alloc, &copy)
}

fn fault_told(alloc: Global, fault: JsonFault) -> Result<Text, NoMemory> {
    match fault {
        JsonFault::NotJson => Text::copied(alloc, "not JSON"),
        JsonFault::NotWhole => Text::copied(alloc, "not whole"),
        JsonFault::TooDeep => Text::copied(alloc, "too deep"),
        JsonFault::NoMemory => Err(NoMemory),
    }
}

// The body of contents.
pub(crate) fn body_told(alloc: Global, text: &str) -> Result<Text, NoMemory> {
    match read(alloc, text) {
        Ok(contents) => body_printed(alloc, &contents),
        Err(fault) => fault_told(alloc, fault),
    }
}

fn body_printed(alloc: Global, contents: &Json) -> Result<Text, NoMemory> {
    let value = body(alloc, contents)?;
    print(alloc, &value)
}

// What is made by hand.
pub(crate) fn made(alloc: Global, what: &str) -> Result<Text, NoMemory> {
    match what {
        "value" => {
            let value = value(alloc)?;
            copy_printed(alloc, &value)
        }
        "parts" => {
            let value = value(alloc)?;
            parts(alloc, value)
        }
        "tokens" => tokens(alloc),
        "abandoned" => abandoned(alloc),
        _ => bytes_copied(alloc, what),
    }
}

// A list of three and a text, under two keys.
fn value(alloc: Global) -> Result<Json, NoMemory> {
    let items = items(alloc)?;
    let text = Text::copied(alloc, "x")?;
    let mut pairs = Pairs::with_capacity(alloc, 2)?;
    pairs.push(Text::copied(alloc, "a")?, Json::list(items))?;
    pairs.push(Text::copied(alloc, "b")?, Json::text(text))?;
    Ok(Json::object(pairs))
}

fn items(alloc: Global) -> Result<Items, NoMemory> {
    let mut items = Items::with_capacity(alloc, 3)?;
    items.push(Json::null())?;
    items.push(Json::boolean(true))?;
    items.push(Json::whole(-5))?;
    Ok(items)
}

// What is taken out of it: the list, a member that isn't there, and the text.
fn parts(alloc: Global, value: Json) -> Result<Text, NoMemory> {
    let text = value
        .copy(alloc)?
        .into_member("b")
        .and_then(Json::into_text);
    let (list, missing) = value.into_members("a", "c");
    let is_missing = missing.is_none();
    let items = length(list.and_then(Json::into_list));
    match text {
        Some(text) => {
            let text = text.copy(alloc)?;
            let text = text.as_str();
            let told = format!(in alloc; "{items} items, {is_missing}, {text}")?;
            Ok(Text::new(told))
        }
        None => Text::copied(alloc, "no text"),
    }
}

fn length(items: Option<Items>) -> usize {
    match items {
        Some(items) => items.as_slice().len(),
        None => 0,
    }
}

// Tokens behind a line.
fn tokens(alloc: Global) -> Result<Text, NoMemory> {
    let mut out = Printer::behind(Vec::from_slice(alloc, b"line ")?);
    push_tokens(alloc, &mut out)?;
    let bytes = out.into_vec();
    crate::words::text_of(alloc, &bytes)
}

fn push_tokens(alloc: Global, out: &mut Printer) -> Result<(), NoMemory> {
    out.begin_object()?;
    out.key("a")?;
    numbers(out)?;
    out.key("b")?;
    out.text("\"")?;
    out.key("c")?;
    push_value(alloc, out)?;
    out.end_object()
}

fn push_value(alloc: Global, out: &mut Printer) -> Result<(), NoMemory> {
    let value = value(alloc)?;
    out.value(&value)
}

fn numbers(out: &mut Printer) -> Result<(), NoMemory> {
    out.begin_list()?;
    out.count(18_446_744_073_709_551_615)?;
    out.whole(-1)?;
    out.null()?;
    out.boolean(false)?;
    out.end_list()
}

// What is left of a line behind which a list was begun and given up.
fn abandoned(alloc: Global) -> Result<Text, NoMemory> {
    let mut out = Printer::behind(Vec::from_slice(alloc, b"line")?);
    out.begin_list()?;
    let bytes = out.abandon();
    crate::words::text_of(alloc, &bytes)
}

fn bytes_copied(alloc: Global, text: &str) -> Result<Text, NoMemory> {
    let bytes = Bytes::copied(alloc, text.as_bytes())?;
    let copy = bytes.copy(alloc)?;
    crate::words::text_of(alloc, copy.as_slice())
}
