// Forms of values: what a value is read as, where it has the form.
ghost use Rattle.std.specs.Prelude.{◌≡◌, IfOk, option_map};
ghost use Rattle.fluid_json.specs.Tree.{trees};
ghost use Rattle.fluid_json.specs.Unless.{IsUnless};
ghost use Rattle.fluid_checkpoint.specs.Reading.{member, at, each, listed, within, count};

use crate::fault::CheckpointFault;
use fluid_json::{Json, LARGEST, NoMemory};
use fluid_tree::Id;
use fluid_types::{ClientId, NameFault};
use std::alloc::Global;

/// A form of values.
pub(crate) trait Shape {
    type Value;

    ghost use Rattle.std.specs.Prelude.{◌≡◌, Option, IfOk};
    ghost use Rattle.fluid_json.specs.Tree.{Tree};

    ghost reads: { Self → Tree → Option Self.Value };

    /// What the value is read as; none where it hasn't the form.
    fn read(&self, alloc: Global, value: &Json) -> Result<Option<Self::Value>, NoMemory>
        ensures { IfOk result (λ found. found ≡ reads self.now value.now) };
}

/// A member in its form; none where it is missing or hasn't the form.
pub(crate) fn member<S: Shape>(
    alloc: Global,
    value: &Json,
    name: &str,
    shape: &S,
) -> Result<Option<S::Value>, NoMemory>
    ensures { IfOk result (λ found. found ≡ member name.now (S.reads shape.now) value.now) }
{
    match value.member(name) {
        Some(found) => shape.read(alloc, found),
        None => Ok(None),
    }
}

/// A member that has to be there, in its form.
pub(crate) fn at<S: Shape>(
    alloc: Global,
    value: &Json,
    name: &str,
    shape: &S,
) -> Result<S::Value, CheckpointFault>
    ensures { IsUnless CheckpointFault.NoMemory result (at name.now (S.reads shape.now) value.now) }
{
    let Some(found) = member(alloc, value, name, shape)? else {
        return Err(CheckpointFault::of(alloc, name));
    };
    Ok(found)
}

/// The items of a list, each in this form; none where the value is no list, or an item hasn't the form.
pub(crate) fn listed<S: Shape>(
    alloc: Global,
    value: &Json,
    shape: &S,
) -> Result<Option<Vec<S::Value>>, NoMemory>
where
    S::Value: Drop,
    ensures { IfOk result (λ values. option_map (λ v. v.items) values ≡ listed (S.reads shape.now) value.now) }
{
    match value.as_list() {
        Some(items) => each(alloc, shape, items),
        None => Ok(None),
    }
}

fn each<S: Shape>(
    alloc: Global,
    shape: &S,
    items: &[Json],
) -> Result<Option<Vec<S::Value>>, NoMemory>
where
    S::Value: Drop,
    ensures { IfOk result (λ values. option_map (λ v. v.items) values ≡ each (S.reads shape.now) (trees items.now)) }
{
    let mut values = Vec::with_capacity(alloc, items.len())?;
    for item in items {
        let Some(value) = shape.read(alloc, item)? else {
            return Ok(None);
        };
        values.push(value)?;
    }
    Ok(Some(values))
}

// ---- single values

fn within(number: i64) -> Option<u64>
    ensures { result ≡ within number }
{
    let Ok(count) = u64::try_from(number) else {
        return None;
    };
    if count <= LARGEST { Some(count) } else { None }
}

/// A whole number from 0 to 2^53 - 1.
pub(crate) fn count(value: &Json) -> Option<u64>
    ensures { result ≡ count value.now }
{
    let number = value.as_whole()?;
    within(number)
}

/// A whole number from 0 to 2^53 - 1.
#[derive(Drop)]
pub(crate) struct Number;

impl Shape for Number {
    type Value = u64;

    ghost use Rattle.fluid_checkpoint.specs.Reading.{count};

    ghost reads = { λ _. count };

    fn read(&self, _alloc: Global, value: &Json) -> Result<Option<u64>, NoMemory> {
        Ok(count(value))
    }
}

/// Any whole number.
#[derive(Drop)]
pub(crate) struct Whole;

impl Shape for Whole {
    type Value = i64;

    ghost use Rattle.fluid_json.specs.Tree.{as_whole};

    ghost reads = { λ _. as_whole };

    fn read(&self, _alloc: Global, value: &Json) -> Result<Option<i64>, NoMemory> {
        Ok(value.as_whole())
    }
}

/// `true` or `false`.
#[derive(Drop)]
pub(crate) struct Truth;

impl Shape for Truth {
    type Value = bool;

    ghost use Rattle.fluid_json.specs.Tree.{as_boolean};

    ghost reads = { λ _. as_boolean };

    fn read(&self, _alloc: Global, value: &Json) -> Result<Option<bool>, NoMemory> {
        Ok(value.as_bool())
    }
}

/// The name of a client.
#[derive(Drop)]
pub(crate) struct Name;

impl Shape for Name {
    type Value = ClientId;

    ghost use Rattle.fluid_types.specs.Quorum.{as_name};

    ghost reads = { λ _. as_name };

    fn read(&self, alloc: Global, value: &Json) -> Result<Option<ClientId>, NoMemory> {
        let Some(text) = value.as_text() else {
            return Ok(None);
        };
        match ClientId::read(alloc, text) {
            Ok(id) => Ok(Some(id)),
            Err(NameFault::BadName) => Ok(None),
            Err(NameFault::NoMemory) => Err(NoMemory),
        }
    }
}

/// The id of an object, as 40 lower-case hexadecimal digits.
#[derive(Drop)]
pub(crate) struct Handle;

impl Shape for Handle {
    type Value = Id;

    ghost use Rattle.fluid_checkpoint.specs.Reading.{handle};

    ghost reads = { λ _. handle };

    fn read(&self, _alloc: Global, value: &Json) -> Result<Option<Id>, NoMemory> {
        let Some(digits) = value.as_text() else {
            return Ok(None);
        };
        Ok(Id::read(digits))
    }
}
