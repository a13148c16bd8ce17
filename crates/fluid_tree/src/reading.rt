ghost use Rattle.std.specs.Prelude.{◌≡◌, ◌∷◌, [], List, ◌&&◌, not, slice_get, ◌+◌, ◌-◌, ◌*◌, ◌^◌, ◌<◌, ◌≤◌, ◌==◌, ℕ, Some, None, length, drop, fold, nat_lt, option_map, if◌then◌else◌, IfOk, IfSome, OnOk, true};
ghost use Rattle.std.specs.List.{prefix_len, position_or_len};
ghost use Rattle.fluid_json.specs.Unless.{IsUnless};
ghost use Rattle.fluid_tree.specs.Names.{is_refused, Knows};
ghost use Rattle.fluid_tree.specs.Object.{entry_bytes, sort_key};
ghost use Rattle.fluid_tree.specs.Listed.{listed};
ghost use Rattle.fluid_tree.specs.Reading.{common, word_of, digits_len, decimal_value, length_of, ends_at, mode_at, named_at, entry_at, is_behind, entries_of, content_of, object_read};

use crate::fault::TreeFault;
use crate::id::Id;
use crate::names::Names;
use crate::object::{Object, ObjectEntries, ObjectEntry};
use crate::writing::sort_key;
use fluid_json::{Bytes, LARGEST, NoMemory, Text};
use std::alloc::Global;
use std::str;

/// The object that these bytes are.
#[tactic(auto, unfolding(crate::specs::Reading::object_read))]
pub fn read_object(alloc: Global, bytes: &[u8]) -> Result<Object, TreeFault>
    ensures { IsUnless TreeFault.NoMemory result (object_read bytes.now) }
{
    let tree = read_word(bytes)?;
    let behind = &bytes[5..];
    let length = read_length(5, behind)?;
    let start = digits_len(behind) + 6;
    check_end(bytes.len(), start, length)?;
    let object = read_content(alloc, tree, bytes.len(), &bytes[start..])?;
    Ok(object)
}

// How many bytes at the front are those of the word.
#[tactic(auto, unfolding(crate::specs::Reading::common))]
fn common(word: &[u8], bytes: &[u8]) -> usize
    ensures common { result ≡ common word.now bytes.now }
    ensures within { result ≤ length bytes.now }
{
    let mut count = 0usize;
    for expected in word {
        if count == bytes.len() {
            return count;
        }
        if bytes[count] != *expected {
            return count;
        }
        count += 1;
    }
    count
}

// Whether the word is that of a tree.
#[tactic(auto, unfolding(crate::specs::Reading::word_of))]
fn read_word(bytes: &[u8]) -> Result<bool, TreeFault>
    ensures word { result ≡ word_of bytes.now }
    ensures within { OnOk result (5 ≤ length bytes.now) }
{
    let blob = common(b"blob ", bytes);
    if blob == 5 {
        return Ok(false);
    }
    let tree = common(b"tree ", bytes);
    if tree == 5 {
        return Ok(true);
    }
    Err(TreeFault::BadObject(blob.max(tree) as u64))
}

fn digits_len(bytes: &[u8]) -> usize
    ensures digits { result ≡ digits_len bytes.now }
    ensures within { result ≤ length bytes.now }
{
    let mut count = 0usize;
    for byte in bytes {
        if !byte.is_ascii_digit() {
            return count;
        }
        count += 1;
    }
    count
}

// The number that the digits write, where it is a length, which is at most 2^53 - 1.
fn decimal_value(digits: &[u8]) -> Option<u64>
    ensures value { result ≡ (if nat_lt (2 ^ 53 - 1) (decimal_value digits.now) then None else Some (decimal_value digits.now)) }
    ensures small { IfSome result (λ value. value < 2 ^ 53) }
{
    let mut value = 0u64;
    for digit in digits {
        value = value * 10 + u64::from(digit.saturating_sub(b'0'));
        if value > LARGEST {
            return None;
        }
    }
    Some(value)
}

// The length, of which the digits begin at this place.
#[tactic(auto, unfolding(crate::specs::Reading::length_of))]
fn read_length(place: u64, bytes: &[u8]) -> Result<u64, TreeFault>
    requires { place ≤ 5 }
    ensures length { result ≡ length_of place bytes.now }
    ensures small { IfOk result (λ length. length < 2 ^ 53) }
    ensures within { OnOk result (digits_len bytes.now < length bytes.now) }
{
    let digits = digits_len(bytes);
    if digits == 0 {
        return Err(TreeFault::BadObject(place));
    }
    if bytes[0] == b'0' && 1 < digits {
        return Err(TreeFault::BadObject(place + 1));
    }
    let Some(value) = decimal_value(&bytes[..digits]) else {
        return Err(TreeFault::BadObject(place));
    };
    if digits < bytes.len() && bytes[digits] == 0 {
        Ok(value)
    } else {
        Err(TreeFault::BadObject(place + digits as u64))
    }
}

#[tactic(auto, unfolding(crate::specs::Reading::ends_at))]
fn check_end(total: usize, place: usize, length: u64) -> Result<(), TreeFault>
    requires small { length < 2 ^ 53 }
    requires within { place ≤ total }
    requires whole { total < 2 ^ 63 }
    ensures { result ≡ ends_at total place length }
{
    let end = place as u64 + length;
    if (total as u64) < end {
        return Err(TreeFault::BadObject(total as u64));
    }
    if end < total as u64 {
        return Err(TreeFault::BadObject(end));
    }
    Ok(())
}

#[tactic(auto, unfolding(crate::specs::Reading::content_of))]
fn read_content(alloc: Global, tree: bool, total: usize, body: &[u8]) -> Result<Object, TreeFault>
    requires { length body.now ≤ total }
    ensures { IsUnless TreeFault.NoMemory result (content_of tree total body.now) }
{
    if tree {
        let entries = read_entries(alloc, total, body)?;
        Ok(Object::Tree(ObjectEntries::from_vec(entries)))
    } else {
        let content = Bytes::copied(alloc, body)?;
        Ok(Object::Blob(content))
    }
}

// The entries of the body, with which the bytes end. There are as many as `total`.
fn read_entries(alloc: Global, total: usize, body: &[u8]) -> Result<Vec<ObjectEntry>, TreeFault>
    requires { length body.now ≤ total }
    ensures { IsUnless TreeFault.NoMemory (listed result) (entries_of total (length body.now) [] body.now) }
{
    let mut entries = Vec::new(alloc);
    let mut names = Names::new(alloc);
    let mut rest = body;
    while !rest.is_empty() {
        let place = (total - rest.len()) as u64;
        let found = read_entry(alloc, rest)?;
        let entry = match found {
            Some(entry) => entry,
            None => return Err(TreeFault::BadObject(place)),
        };
        let fits = fits_behind(alloc, &mut names, entries.as_slice(), &entry)?;
        if !fits {
            return Err(TreeFault::BadObject(place));
        }
        rest = behind(rest, entry_len(&entry));
        entries.push(entry)?;
    }
    Ok(entries)
}

fn behind(bytes: &[u8], count: usize) -> &[u8]
    requires { count ≤ length bytes.now }
    ensures { result.now ≡ drop count bytes.now }
{
    &bytes[count..]
}

// Whether the entry may stand behind those before it. Its name is among the names then.
fn fits_behind(
    alloc: Global,
    names: &mut Names,
    before: &[ObjectEntry],
    entry: &ObjectEntry,
) -> Result<bool, NoMemory>
    ensures { (known : List (List ℕ)) → Knows names.old.seen known → IfOk result (λ fits.
        (fits ≡ (not (is_refused known entry.now.name) && is_behind (slice_get before.now (length before.now - 1)) entry.now))
        × (fits ≡ true → Knows names.new.seen (entry.now.name ∷ known))) }
{
    let admitted = names.admit(alloc, entry.name.as_str())?;
    if !admitted {
        return Ok(false);
    }
    let behind = is_behind(alloc, before.last(), entry)?;
    Ok(behind)
}

fn is_behind(
    alloc: Global,
    last: Option<&ObjectEntry>,
    entry: &ObjectEntry,
) -> Result<bool, NoMemory>
    ensures { IfOk result (λ behind. behind ≡ is_behind (option_map (λ e. e.now) last.entry) entry.now) }
{
    let Some(last) = last else {
        return Ok(true);
    };
    let key = sort_key(alloc, last)?;
    let next = sort_key(alloc, entry)?;
    Ok(key < next)
}

// How many bytes an entry has: its mode, a blank, its name, a zero byte and its id.
#[tactic(auto, unfolding(crate::specs::Object::entry_bytes))]
fn entry_len(entry: &ObjectEntry) -> usize
    ensures { result ≡ length (entry_bytes entry.now) }
{
    let id = entry.id.as_bytes().len();
    let mode = if entry.tree { 6 } else { 7 };
    mode + entry.name.as_str().len() + 1 + id
}

// The entry with which the bytes begin.
#[tactic(auto, unfolding(crate::specs::Reading::entry_at, crate::specs::Object::entry_bytes))]
fn read_entry(alloc: Global, bytes: &[u8]) -> Result<Option<ObjectEntry>, NoMemory>
    ensures entry { IfOk result (λ found. found ≡ entry_at bytes.now) }
    ensures within { IfOk result (λ found. IfSome found (λ entry. length (entry_bytes entry) ≤ length bytes.now)) }
{
    if common(b"40000 ", bytes) == 6 {
        let entry = read_named(alloc, true, &bytes[6..])?;
        return Ok(entry);
    }
    if common(b"100644 ", bytes) == 7 {
        let entry = read_named(alloc, false, &bytes[7..])?;
        return Ok(entry);
    }
    Ok(None)
}

fn read_named(alloc: Global, tree: bool, bytes: &[u8]) -> Result<Option<ObjectEntry>, NoMemory>
    ensures within { IfOk result (λ found. IfSome found (λ entry. (entry.tree ≡ tree) × (length entry.name + 21 ≤ length bytes.now) × (length entry.id ≡ 20))) }
    ensures entry { IfOk result (λ found. found ≡ named_at tree (position_or_len (λ x. x == 0) bytes.now) bytes.now) }
{
    let end = name_len(bytes);
    if bytes.len() - end < 21 {
        return Ok(None);
    }
    let Ok(name) = str::from_utf8(&bytes[..end]) else {
        return Ok(None);
    };
    let name = Text::copied(alloc, name)?;
    let id = Id::copied(&bytes[end + 1..end + 21]);
    Ok(Some(ObjectEntry { name, tree, id }))
}

// The place of the first zero byte, or the length.
fn name_len(bytes: &[u8]) -> usize
    ensures place { result ≡ position_or_len (λ x. x == 0) bytes.now }
    ensures within { result ≤ length bytes.now }
{
    let mut count = 0usize;
    for byte in bytes {
        if *byte == 0 {
            return count;
        }
        count += 1;
    }
    count
}
