// The text of a counter in a summary.
ghost use Rattle.std.specs.Prelude.{◌≡◌, ◌⊎◌, ℤ, [], Some, IfOk, IfErr, Ok, Err, option_map};
ghost use Rattle.std.specs.Fmt.{signed_decimal};
ghost use Rattle.fluid_json.specs.Unless.{IsUnless};
ghost use Rattle.fluid_counter.specs.Content.{content, answer, bad_content, IsStorable};
ghost use Rattle.fluid_types.specs.declared.fault.BlobFault.TheVariants.{NoMemory as no_memory};

use fluid_json::{Bytes, NoMemory};
use fluid_types::{BlobFault, Field};
use std::alloc::Global;
use std::str;

/// The greatest size of a total that is read.
const GREATEST_TOTAL: u128 = 1 << 120;

/// The content of a counter at a total.
pub(crate) fn print(alloc: Global, total: i128) -> Result<Bytes, NoMemory>
    ensures content { IfOk result (λ blob. blob ≡ content total) }
    ensures reads_back { IfOk result (λ blob. IsStorable total → answer blob ≡ Ok (record { acknowledged = total; pending = [] })) }
{
    let text = format!(in alloc; "{{\"value\":\"{total}\"}}")?;
    Ok(Bytes::new(text.into_bytes()))
}

/// The total of the counter whose content this is.
pub(crate) fn read(alloc: Global, blob: &[u8]) -> Result<i128, BlobFault>
    ensures total { IfOk result (λ total. (answer blob.now ≡ Ok (record { acknowledged = total; pending = [] })) × (blob.now ≡ content total) × IsStorable total) }
    ensures fault { IfErr result (λ fault. IsUnless BlobFault.NoMemory (Err fault) (answer blob.now)) }
{
    let Some(total) = digits(blob).and_then(number) else {
        return Err(no_content(alloc));
    };
    if total.unsigned_abs() > GREATEST_TOTAL {
        return Err(no_content(alloc));
    }
    // A plus, a zero in front or a minus before 0 is not what is written.
    let written = print(alloc, total)?;
    if written.as_slice() != blob {
        return Err(no_content(alloc));
    }
    Ok(total)
}

// The bytes that stand between the text in front of a number and the text behind it.
fn digits(blob: &[u8]) -> Option<&[u8]>
    ensures { (total : ℤ) → blob.now ≡ content total → option_map (λ between. between.now) result ≡ Some (signed_decimal total) }
{
    let rest = blob.strip_prefix(b"{\"value\":\"")?;
    rest.strip_suffix(b"\"}")
}

// The number that is written so. A plus and zeros in front are taken too.
fn number(digits: &[u8]) -> Option<i128>
    ensures { (total : ℤ) → IsStorable total → digits.now ≡ signed_decimal total → result ≡ Some total }
{
    let Ok(text) = str::from_utf8(digits) else {
        return None;
    };
    text.parse().ok()
}

// The fault of a text that is no content.
fn no_content(alloc: Global) -> BlobFault
    ensures { (result ≡ no_memory) ⊎ (result ≡ bad_content) }
{
    BlobFault::of(alloc, Field::Content)
}
