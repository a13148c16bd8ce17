// The forms of members: which values are read as what, and the fault of a value that hasn't the form.
ghost use Rattle.std.specs.Prelude.{◌≡◌, ◌∷◌, [], Ok, Err, IfOk, MatchResult, MatchOption, option_map, pos, negsuc};
ghost use Rattle.fluid_json.specs.Unless.{IsUnless};
ghost use Rattle.fluid_json.specs.Tree.{find, trees};
ghost use Rattle.fluid_codec.specs.Scopes.{and_scope, named_scopes};
ghost use Rattle.fluid_codec.specs.Items.{item, argument};
ghost use Rattle.fluid_types.specs.Forms.{a_truth, a_whole, a_text, a_list, an_object, present, required, optional, any, if_any};
ghost use Rattle.fluid_types.specs.declared.fault.Field.TheVariants as field;
ghost use Rattle.fluid_types.specs.Texts.{name_of};

use fluid_json::{Json, LARGEST, Text};
use fluid_types::{ClientId, CodecFault, DocName, Field, NameFault, Scopes, What, Word, of_word};
use std::alloc::Global;

/// A form of values.
pub(crate) trait Form {
    type Value;

    ghost use Rattle.fluid_json.specs.Tree.{Tree};
    ghost use Rattle.fluid_json.specs.Unless.{IsUnless};
    ghost use Rattle.fluid_types.specs.declared.fault.Field.{Field as FieldName};
    ghost use Rattle.fluid_types.specs.Forms.{Read};

    ghost reads: { Self → FieldName → Tree → Read Self.Value };

    /// Reads the value of this member or argument.
    fn read(&self, alloc: Global, value: &Json, field: Field) -> Result<Self::Value, CodecFault>
        ensures { IsUnless CodecFault.NoMemory result (reads self.now field value.now) };
}

// ---- members

/// A member that must be there.
pub(crate) fn required<F: Form>(
    alloc: Global,
    value: &Json,
    field: Field,
    form: F,
) -> Result<F::Value, CodecFault>
where
    F: Drop,
    ensures { IsUnless CodecFault.NoMemory result (required value.now field (F.reads form)) }
{
    match value.member(field.name()) {
        Some(member) => form.read(alloc, member, field),
        None => Err(CodecFault::BadField(field, What::Missing)),
    }
}

/// A member that may be missing.
pub(crate) fn optional<F: Form>(
    alloc: Global,
    value: &Json,
    field: Field,
    form: F,
) -> Result<Option<F::Value>, CodecFault>
where
    F: Drop,
    ensures { IsUnless CodecFault.NoMemory result (optional value.now field (F.reads form)) }
{
    match value.member(field.name()) {
        Some(member) => {
            let read = form.read(alloc, member, field)?;
            Ok(Some(read))
        }
        None => Ok(None),
    }
}

/// The value of a member that must be there.
pub(crate) fn present(value: Json, field: Field) -> Result<Json, CodecFault>
    ensures { result ≡ present field (find (name_of field) value) }
{
    value
        .into_member(field.name())
        .ok_or(CodecFault::BadField(field, What::Missing))
}

/// A member of any form. A missing one is null.
pub(crate) fn any(value: Json, field: Field) -> Json
    ensures { result ≡ any value field }
{
    value.into_member(field.name()).unwrap_or(Json::null())
}

/// The contents of a message, null where they are missing, and its metadata.
pub(crate) fn contents_and_metadata(value: Json) -> (Json, Option<Json>)
    ensures contents { result.0 ≡ any value field.Contents }
    ensures metadata { result.1 ≡ if_any value field.Metadata }
{
    let (contents, metadata) = value.into_members(Field::Contents.name(), Field::Metadata.name());
    (contents.unwrap_or(Json::null()), metadata)
}

/// An argument, which is an item of a list and must be there.
pub(crate) fn argument<F: Form>(
    alloc: Global,
    value: &Json,
    place: usize,
    field: Field,
    form: F,
) -> Result<F::Value, CodecFault>
where
    F: Drop,
    ensures { IsUnless CodecFault.NoMemory result (argument value.now place field (F.reads form)) }
{
    match item(value, place) {
        Some(argument) => form.read(alloc, argument, field),
        None => Err(CodecFault::BadField(field, What::Missing)),
    }
}

/// The item of a list at this place, from 0.
#[tactic(auto, using(crate::proofs::Nth::item_found, crate::proofs::Nth::item_missing))]
pub(crate) fn item(value: &Json, place: usize) -> Option<&Json>
    ensures { option_map (λ found. found.now) result ≡ item place value.now }
{
    let items = value.as_list()?;
    if place < items.len() {
        Some(&items[place])
    } else {
        None
    }
}

/// The value of an argument that must be there.
pub(crate) fn present_argument(value: Json, place: usize, field: Field) -> Result<Json, CodecFault>
    ensures { result ≡ present field (item place value) }
{
    into_item(value, place).ok_or(CodecFault::BadField(field, What::Missing))
}

#[tactic(auto, using(crate::proofs::Nth::item_found, crate::proofs::Nth::item_missing))]
fn into_item(value: Json, place: usize) -> Option<Json>
    ensures { result ≡ item place value }
{
    let mut items = value.into_list()?.into_vec();
    if place < items.len() {
        Some(items.swap_remove(place))
    } else {
        None
    }
}

// ---- kinds of values

pub(crate) fn a_truth(value: &Json, field: Field) -> Result<bool, CodecFault>
    ensures { result ≡ a_truth field value.now }
{
    value
        .as_bool()
        .ok_or(CodecFault::BadField(field, What::NotTruth))
}

pub(crate) fn a_whole(value: &Json, field: Field) -> Result<i64, CodecFault>
    ensures { result ≡ a_whole field value.now }
{
    value
        .as_whole()
        .ok_or(CodecFault::BadField(field, What::NotWhole))
}

pub(crate) fn a_text(value: &Json, field: Field) -> Result<&str, CodecFault>
    ensures { MatchResult result (λ s. a_text field value.now ≡ Ok s.now) (λ e. a_text field value.now ≡ Err e) }
{
    match value.as_text() {
        Some(text) => Ok(text),
        None => Err(CodecFault::BadField(field, What::NotText)),
    }
}

pub(crate) fn a_list(value: &Json, field: Field) -> Result<&[Json], CodecFault>
    ensures { MatchResult result (λ ts. a_list field value.now ≡ Ok (trees ts.now)) (λ e. a_list field value.now ≡ Err e) }
{
    match value.as_list() {
        Some(items) => Ok(items),
        None => Err(CodecFault::BadField(field, What::NotList)),
    }
}

pub(crate) fn an_object(value: &Json, field: Field) -> Result<(), CodecFault>
    ensures { MatchResult result (λ _. an_object field value.now ≡ Ok value.now) (λ e. an_object field value.now ≡ Err e) }
{
    match value.as_pairs() {
        Some(_) => Ok(()),
        None => Err(CodecFault::BadField(field, What::NotObject)),
    }
}

// ---- forms

/// `true` or `false`.
#[derive(Clone, Copy, Drop)]
pub(crate) struct Truth;

impl Form for Truth {
    type Value = bool;

    ghost use Rattle.fluid_types.specs.Forms.{a_truth};

    ghost reads = { λ _. a_truth };

    fn read(&self, _alloc: Global, value: &Json, field: Field) -> Result<bool, CodecFault> {
        a_truth(value, field)
    }
}

/// Any text.
#[derive(Clone, Copy, Drop)]
pub(crate) struct AText;

impl Form for AText {
    type Value = Text;

    ghost use Rattle.fluid_types.specs.Forms.{a_text};

    ghost reads = { λ _. a_text };

    fn read(&self, alloc: Global, value: &Json, field: Field) -> Result<Text, CodecFault> {
        let text = a_text(value, field)?;
        let text = Text::copied(alloc, text)?;
        Ok(text)
    }
}

/// Any whole number.
#[derive(Clone, Copy, Drop)]
pub(crate) struct AWhole;

impl Form for AWhole {
    type Value = i64;

    ghost use Rattle.fluid_types.specs.Forms.{a_whole};

    ghost reads = { λ _. a_whole };

    fn read(&self, _alloc: Global, value: &Json, field: Field) -> Result<i64, CodecFault> {
        a_whole(value, field)
    }
}

/// A whole number from this one to 2^53 - 1.
#[derive(Clone, Copy, Drop)]
pub(crate) struct Within(pub i64);

impl Form for Within {
    type Value = i64;

    ghost use Rattle.fluid_types.specs.Forms.{within};

    ghost reads = { λ form. within form.0 };

    fn read(&self, _alloc: Global, value: &Json, field: Field) -> Result<i64, CodecFault> {
        let number = a_whole(value, field)?;
        if self.0 <= number && number <= LARGEST as i64 {
            Ok(number)
        } else {
            Err(CodecFault::BadField(field, What::OutOfRange))
        }
    }
}

/// A whole number from this one, which isn't negative, to 2^53 - 1.
#[derive(Clone, Copy, Drop)]
pub(crate) struct Count(pub u64);

impl Form for Count {
    type Value = u64;

    ghost use Rattle.fluid_types.specs.Forms.{count};

    ghost reads = { λ form. count form.0 };

    fn read(&self, _alloc: Global, value: &Json, field: Field) -> Result<u64, CodecFault> {
        let number = a_whole(value, field)?;
        match u64::try_from(number) {
            Ok(count) if self.0 <= count && count <= LARGEST => Ok(count),
            _ => Err(CodecFault::BadField(field, What::OutOfRange)),
        }
    }
}

/// The name of a client.
#[derive(Clone, Copy, Drop)]
pub(crate) struct Name;

impl Form for Name {
    type Value = ClientId;

    ghost use Rattle.fluid_types.specs.Forms.{name};

    ghost reads = { λ _. name };

    fn read(&self, alloc: Global, value: &Json, field: Field) -> Result<ClientId, CodecFault> {
        let text = a_text(value, field)?;
        match ClientId::read(alloc, text) {
            Ok(name) => Ok(name),
            Err(NameFault::BadName) => Err(CodecFault::BadField(field, What::BadName)),
            Err(NameFault::NoMemory) => Err(CodecFault::NoMemory),
        }
    }
}

/// The name of a document.
#[derive(Clone, Copy, Drop)]
pub(crate) struct ADocName;

impl Form for ADocName {
    type Value = DocName;

    ghost use Rattle.fluid_types.specs.Forms.{name};

    ghost reads = { λ _. name };

    fn read(&self, alloc: Global, value: &Json, field: Field) -> Result<DocName, CodecFault> {
        let text = a_text(value, field)?;
        match DocName::read(alloc, text) {
            Ok(name) => Ok(name),
            Err(NameFault::BadName) => Err(CodecFault::BadField(field, What::BadName)),
            Err(NameFault::NoMemory) => Err(CodecFault::NoMemory),
        }
    }
}

/// The name of a client, or null.
#[derive(Clone, Copy, Drop)]
pub(crate) struct NameOrNull;

impl Form for NameOrNull {
    type Value = Option<ClientId>;

    ghost use Rattle.fluid_types.specs.Forms.{name_or_null};

    ghost reads = { λ _. name_or_null };

    fn read(
        &self,
        alloc: Global,
        value: &Json,
        field: Field,
    ) -> Result<Option<ClientId>, CodecFault> {
        if value.is_null() {
            return Ok(None);
        }
        let name = Name.read(alloc, value, field)?;
        Ok(Some(name))
    }
}

/// One of these values, by its word.
#[derive(Drop)]
pub(crate) struct OneOf<T: 'static>(pub &'static [T]);

impl<T: Word> Form for OneOf<T> {
    type Value = T;

    ghost use Rattle.fluid_types.specs.Forms.{one_of};

    ghost reads = { λ form. one_of T.word_of form.0.now };

    fn read(&self, _alloc: Global, value: &Json, field: Field) -> Result<T, CodecFault> {
        let text = a_text(value, field)?;
        of_word(self.0, text).ok_or(CodecFault::BadField(field, What::NotAllowed))
    }
}

/// A list of texts, as the scopes that are held. A text that is no scope is passed over.
#[derive(Clone, Copy, Drop)]
pub(crate) struct HeldScopes;

impl Form for HeldScopes {
    type Value = Scopes;

    ghost use Rattle.fluid_types.specs.Records.{held_scopes};

    ghost reads = { λ _. held_scopes };

    fn read(&self, _alloc: Global, value: &Json, field: Field) -> Result<Scopes, CodecFault> {
        let items = a_list(value, field)?;
        let scopes = named_scopes(items, field)?;
        Ok(scopes)
    }
}

fn named_scopes(items: &[Json], field: Field) -> Result<Scopes, CodecFault>
    ensures { result ≡ named_scopes field (trees items.now) }
{
    let mut scopes = Scopes {
        read: false,
        write: false,
        summary: false,
    };
    for item in items {
        let word = a_text(item, field)?;
        scopes = and_scope(scopes, word);
    }
    Ok(scopes)
}

fn and_scope(scopes: Scopes, word: &str) -> Scopes
    ensures { result ≡ and_scope scopes word.now }
{
    Scopes {
        read: scopes.read || Scopes::READ == word,
        write: scopes.write || Scopes::WRITE == word,
        summary: scopes.summary || Scopes::SUMMARY == word,
    }
}
