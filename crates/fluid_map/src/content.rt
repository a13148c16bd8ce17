// The text of a map in a summary.
ghost use Rattle.std.specs.Prelude.{◌≡◌, ◌⊎◌, ◌≤◌, [], IfOk, IfErr, OnOk, Ok, Err};
ghost use Rattle.std.specs.List.{All};
ghost use Rattle.std.specs.FinMap.{values};
ghost use Rattle.fluid_json.specs.Tree.{depth, object, members, IsCanonical};
ghost use Rattle.fluid_json.specs.Printed.{printed};
ghost use Rattle.fluid_json.specs.Unless.{IsUnless};
ghost use Rattle.fluid_map.specs.Content.{content, answer, bad_content};
ghost use Rattle.fluid_types.specs.declared.fault.BlobFault.TheVariants.{NoMemory as no_memory};

use fluid_json::laws::printed_is_read_back;
use fluid_json::{Bytes, Json, JsonFault, NoMemory, Printer, Text};
use fluid_table::SortedMap;
use fluid_types::{BlobFault, Field};
use std::alloc::Global;

/// The content of a map with these entries.
pub(crate) fn print(alloc: Global, entries: &SortedMap<Text, Json>) -> Result<Bytes, NoMemory>
    ensures content { IfOk result (λ blob. blob ≡ content entries.now.values) }
    ensures reads_back { IfOk result (λ blob. All (λ value. depth value ≤ 99) (values entries.now.values) →
        answer blob ≡ Ok (record { acknowledged = entries.now.values; pending = [] })) }
{
    // (a law, and no work: its clause is for the proof)
    printed_is_read_back();
    let text = print_pairs(alloc, entries.as_slice())?;
    Ok(Bytes::new(text.into_string().into_bytes()))
}

// The object of some pairs.
fn print_pairs(alloc: Global, pairs: &[(Text, Json)]) -> Result<Text, NoMemory>
    ensures canonical { OnOk result (All (λ pair. IsCanonical pair.1) pairs.now) }
    ensures text { IfOk result (λ text. text ≡ printed (object (members pairs.now))) }
{
    let mut printer = Printer::new(alloc);
    printer.begin_object()?;
    for (key, value) in pairs {
        value.canonical();
        printer.key(key.as_str())?;
        printer.value(value)?;
    }
    printer.end_object()?;
    Ok(printer.into_text())
}

/// The entries of the map whose content this is.
pub(crate) fn read(alloc: Global, blob: &[u8]) -> Result<SortedMap<Text, Json>, BlobFault>
    ensures entries { IfOk result (λ entries. (answer blob.now ≡ Ok (record { acknowledged = entries.values; pending = [] })) × (blob.now ≡ content entries.values)) }
    ensures fault { IfErr result (λ fault. IsUnless BlobFault.NoMemory (Err fault) (answer blob.now)) }
{
    printed_is_read_back();
    let Ok(text) = str::from_utf8(blob) else {
        return Err(no_content(alloc));
    };
    let value = match fluid_json::read(alloc, text) {
        Ok(value) => value,
        Err(JsonFault::NoMemory) => return Err(BlobFault::NoMemory),
        Err(_) => return Err(no_content(alloc)),
    };
    value.canonical();
    let printed = fluid_json::print(alloc, &value)?;
    if printed.as_str() != text {
        return Err(no_content(alloc));
    }
    match value.into_pairs() {
        Some(pairs) => Ok(SortedMap::of_sorted(pairs.into_vec())),
        None => Err(no_content(alloc)),
    }
}

// The fault of a text that is no content.
fn no_content(alloc: Global) -> BlobFault
    ensures { (result ≡ no_memory) ⊎ (result ≡ bad_content) }
{
    BlobFault::of(alloc, Field::Content)
}
