ghost use Rattle.std.specs.Prelude.{◌≡◌, ℕ, length, IfOk};
ghost use Rattle.sha1.specs.Sha1.{sha1};
ghost use Rattle.hex.specs.Hex.{encode_lower};
ghost use Rattle.fluid_tree.specs.Ids.{id_read, is_lower_digit};
ghost use Rattle.std.specs.List.{list_all};

use fluid_json::{NoMemory, Text};
use sha1::Sha1;
use std::alloc::Global;
use std::marker::Model;

/// The id of an object: the SHA-1 of its bytes. Contracts see the list of its 20 bytes.
#[derive(Clone, Copy, Debug, PartialEq, Eq, PartialOrd, Ord)]
pub struct Id {
    bytes: [u8; 20],
}

impl Model for Id {
    ghost use Rattle.std.specs.Prelude.{ℕ, List};

    ghost Value = { List ℕ };

    ghost view = { λ i. i.bytes };

    ghost inverse = { λ bytes. record { bytes = bytes } };
}

impl Id {
    pub fn new(bytes: [u8; 20]) -> Id
        ensures { result ≡ bytes }
    {
        Id { bytes }
    }

    /// The id of an object with these bytes.
    pub fn of(bytes: &[u8]) -> Id
        ensures { result ≡ sha1 bytes.now }
    {
        Id {
            bytes: Sha1::digest(bytes),
        }
    }

    // A copy of 20 bytes.
    pub(crate) fn copied(bytes: &[u8]) -> Id
        requires { length bytes.now ≡ 20 }
        ensures { result ≡ bytes.now }
    {
        let mut copy = [0u8; 20];
        copy.copy_from_slice(bytes);
        Id { bytes: copy }
    }

    pub fn as_bytes(&self) -> &[u8]
        ensures bytes { result.now ≡ self.now }
        ensures len { length self.now ≡ 20 }
    {
        &self.bytes
    }

    /// The id of 40 lower-case hexadecimal digits.
    pub fn read(text: &str) -> Option<Id>
        ensures { result ≡ id_read text.now }
    {
        if !is_lower(text) {
            return None;
        }
        let mut bytes = [0u8; 20];
        match hex::decode_to_slice(text, &mut bytes) {
            Ok(()) => Some(Id { bytes }),
            Err(_) => None,
        }
    }

    /// Its 40 lower-case hexadecimal digits.
    pub fn print(&self, alloc: Global) -> Result<Text, NoMemory>
        ensures { IfOk result (λ text. text ≡ encode_lower self.now) }
    {
        let text = hex::encode(alloc, self.as_bytes())?;
        Ok(Text::new(text))
    }
}

fn is_lower(text: &str) -> bool
    ensures { result ≡ list_all is_lower_digit text.now }
{
    let bytes = text.as_bytes();
    for byte in bytes {
        if !matches!(*byte, b'0'..=b'9' | b'a'..=b'f') {
            return false;
        }
    }
    true
}

/// A summary that was acknowledged: the id of its version's tree, and the number up to which it has the order.
#[derive(Clone, Copy, Debug, PartialEq, Eq)]
pub struct SummaryRef {
    pub handle: Id,
    pub number: u64,
}
