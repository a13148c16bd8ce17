// Bytes as hexadecimal digits.
ghost use Rattle.std.specs.Prelude.{◌≡◌};
ghost use Rattle.std.specs.List.{list_any};
ghost use Rattle.fluid_codec.specs.Events.{is_upper, lower_hex};

use crate::forms::{Form, a_text};
use crate::rows::Print;
use fluid_json::{Bytes, Json, NoMemory, Printer};
use fluid_types::{CodecFault, Field, What};
use hex::{FromHex, FromHexError, decode, encode, encode_to_slice};
use std::alloc::Global;

/// 40 digits, none of them an upper-case letter.
pub(crate) fn lower_hex(text: &str) -> Option<[u8; 20]>
    ensures { result ≡ lower_hex 20 text.now }
{
    if has_upper(text) {
        return None;
    }
    <[u8; 20] as FromHex>::from_hex(text).ok()
}

fn has_upper(text: &str) -> bool
    ensures { result ≡ list_any is_upper text.now }
{
    text.as_bytes().iter().any(|digit| is_upper(*digit))
}

fn is_upper(digit: u8) -> bool
    ensures { result ≡ is_upper digit }
{
    matches!(digit, b'A'..=b'F')
}

/// An id.
#[derive(Clone, Copy, Drop)]
pub(crate) struct AnId;

impl Form for AnId {
    type Value = [u8; 20];

    ghost use Rattle.fluid_codec.specs.Events.{an_id};

    ghost reads = { λ _. an_id };

    fn read(&self, _alloc: Global, value: &Json, field: Field) -> Result<[u8; 20], CodecFault> {
        let text = a_text(value, field)?;
        lower_hex(text).ok_or(CodecFault::BadField(field, What::NotAllowed))
    }
}

/// Any bytes, each as two digits of either case.
#[derive(Clone, Copy, Drop)]
pub(crate) struct HexBytes;

impl Form for HexBytes {
    type Value = Bytes;

    ghost use Rattle.fluid_codec.specs.Events.{hex_bytes};

    ghost reads = { λ _. hex_bytes };

    fn read(&self, alloc: Global, value: &Json, field: Field) -> Result<Bytes, CodecFault> {
        let text = a_text(value, field)?;
        match decode(alloc, text) {
            Ok(bytes) => Ok(Bytes::new(bytes)),
            Err(FromHexError::OutOfMemory) => Err(CodecFault::NoMemory),
            Err(_) => Err(CodecFault::BadField(field, What::NotAllowed)),
        }
    }
}

/// Pairs of lower-case digits.
impl Print for Bytes {
    ghost use Rattle.fluid_codec.specs.Replies.{hex_tree};

    ghost tree = { hex_tree };

    fn print(&self, alloc: Global, out: &mut Printer) -> Result<(), NoMemory> {
        let digits = encode(alloc, self.as_slice())?;
        out.text(digits.as_str())
    }
}

/// Pairs of lower-case digits.
impl Print for [u8; 20] {
    ghost use Rattle.fluid_codec.specs.Replies.{hex_tree};

    ghost tree = { hex_tree };

    fn print(&self, _alloc: Global, out: &mut Printer) -> Result<(), NoMemory> {
        let mut digits = [0u8; 40];
        encode_to_slice(self, &mut digits).unwrap();
        out.text(str::from_utf8(&digits).unwrap())
    }
}
