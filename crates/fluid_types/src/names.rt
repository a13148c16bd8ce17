// Names of clients, documents and channels: 1 to 64 bytes of `A-Z`, `a-z`, `0-9`, `_` and `-`.
ghost use Rattle.std.specs.Prelude.{◌≡◌, IfOk, Some, refl, bytes_eq};
ghost use Rattle.std.specs.List.{list_all};
ghost use Rattle.std.specs.Ordering.{nat_cmp};
ghost use Rattle.std.specs.Cmp.{partial_equiv_from_equiv};
ghost use Rattle.std.specs.Cmp.Lexicographic.{slice_cmp, nat_list_eq_equiv, nat_list_cmp_total, texts_ties, texts_po};
ghost use Rattle.fluid_json.specs.Unless.{IsUnless};
ghost use Rattle.fluid_types.specs.Names.{is_name_byte, is_name, IsName, read_name, entry_name};
ghost use Rattle.fluid_types.specs.declared.names.NameFault.TheVariants.{NoMemory as no_memory};

use fluid_json::NoMemory;
use fluid_table::Key;
use std::alloc::{AllocError, Global};
use std::cmp::Ordering;
use std::marker::Model;

/// Why a text is not read as a name.
#[derive(Clone, Copy, Debug, PartialEq, Eq)]
pub enum NameFault {
    /// The text is empty, longer than 64 bytes, or has another byte than `A-Z a-z 0-9 _ -`.
    BadName,
    NoMemory,
}

impl From<AllocError> for NameFault {
    ghost from_gives = { λ _ fault. fault ≡ no_memory };

    fn from(_refused: AllocError) -> NameFault {
        NameFault::NoMemory
    }
}

/// The most bytes that a name has.
const LONGEST: usize = 64;

fn is_name_byte(byte: u8) -> bool
    ensures { result ≡ is_name_byte byte }
{
    matches!(byte, b'A'..=b'Z' | b'a'..=b'z' | b'0'..=b'9' | b'_' | b'-')
}

#[tactic(auto, unfolding(crate::specs::Names::is_name))]
fn is_name(text: &[u8]) -> bool
    ensures { result ≡ is_name text.now }
{
    1 <= text.len() && text.len() <= LONGEST && are_name_bytes(text)
}

fn are_name_bytes(text: &[u8]) -> bool
    ensures { result ≡ list_all is_name_byte text.now }
{
    text.iter().all(|byte| is_name_byte(*byte))
}

/// A text that is a name; the three kinds of name are this with a meaning of their own.
#[derive(Drop)]
struct Name {
    text: String,
}

impl Model for Name {
    ghost use Rattle.std.specs.Prelude.{List, ℕ, string_bytes};
    ghost use Rattle.fluid_types.specs.Names.{IsName};

    ghost Value = { List ℕ };

    ghost view = { λ name. string_bytes name.text };

    ghost invariant = { λ name. IsName (string_bytes name.text) };
}

impl Name {
    fn read(alloc: Global, text: &str) -> Result<Name, NameFault>
        ensures { IsUnless NameFault.NoMemory result (read_name text.now) }
    {
        if !is_name(text.as_bytes()) {
            return Err(NameFault::BadName);
        }
        let text = String::from_str(alloc, text)?;
        Ok(Name { text })
    }

    fn as_str(&self) -> &str
        ensures bytes { result.now ≡ self.now }
        ensures name { IsName self.now }
    {
        self.text.as_str()
    }

    fn copy(&self, alloc: Global) -> Result<Name, NoMemory>
        ensures { IfOk result (λ copy. copy ≡ self.now) }
    {
        let text = String::from_str(alloc, self.text.as_str())?;
        Ok(Name { text })
    }
}

/// The id of a client of a document.
#[derive(Drop)]
pub struct ClientId {
    name: Name,
}

impl Model for ClientId {
    ghost use Rattle.std.specs.Prelude.{List, ℕ};

    ghost Value = { List ℕ };

    ghost view = { λ id. id.name };
}

impl ClientId {
    /// The id that a text spells: 1 to 64 bytes of `A-Z a-z 0-9 _ -`.
    pub fn read(alloc: Global, text: &str) -> Result<ClientId, NameFault>
        ensures { IsUnless NameFault.NoMemory result (read_name text.now) }
    {
        let name = Name::read(alloc, text)?;
        Ok(ClientId { name })
    }

    /// The id of the client whose join is the entry of this number.
    pub fn of_entry(alloc: Global, number: u64) -> Result<ClientId, NoMemory>
        ensures { IfOk result (λ id. id ≡ entry_name number) }
    {
        let text = format!(in alloc; "c{number}")?;
        Ok(ClientId {
            name: Name { text },
        })
    }

    pub fn as_str(&self) -> &str
        ensures bytes { result.now ≡ self.now }
        ensures name { IsName self.now }
    {
        self.name.as_str()
    }

    pub fn copy(&self, alloc: Global) -> Result<ClientId, NoMemory>
        ensures { IfOk result (λ copy. copy ≡ self.now) }
    {
        let name = self.name.copy(alloc)?;
        Ok(ClientId { name })
    }
}

impl PartialEq for ClientId {
    ghost eq = { bytes_eq };

    ghost laws = { partial_equiv_from_equiv nat_list_eq_equiv };

    fn eq(&self, other: &ClientId) -> bool {
        self.as_str() == other.as_str()
    }
}

impl Eq for ClientId {
    ghost laws = { nat_list_eq_equiv };
}

impl PartialOrd for ClientId {
    ghost partial_cmp = { λ a b. Some (slice_cmp nat_cmp a b) };

    ghost laws = { texts_po };

    fn partial_cmp(&self, other: &ClientId) -> Option<Ordering> {
        Some(self.cmp(other))
    }
}

/// The order of bytes.
impl Ord for ClientId {
    ghost cmp = { slice_cmp nat_cmp };

    ghost total = { nat_list_cmp_total };

    ghost matches_partial_cmp = { λ a b. refl };

    ghost matches_eq = { texts_ties };

    fn cmp(&self, other: &ClientId) -> Ordering {
        self.as_str().cmp(other.as_str())
    }
}

impl Key for ClientId {
    ghost text_of = { λ id. id };

    fn text(&self) -> &str {
        self.as_str()
    }
}

/// The name of a document.
#[derive(Drop)]
pub struct DocName {
    name: Name,
}

impl Model for DocName {
    ghost use Rattle.std.specs.Prelude.{List, ℕ};

    ghost Value = { List ℕ };

    ghost view = { λ document. document.name };
}

impl DocName {
    pub fn read(alloc: Global, text: &str) -> Result<DocName, NameFault>
        ensures { IsUnless NameFault.NoMemory result (read_name text.now) }
    {
        let name = Name::read(alloc, text)?;
        Ok(DocName { name })
    }

    pub fn as_str(&self) -> &str
        ensures bytes { result.now ≡ self.now }
        ensures name { IsName self.now }
    {
        self.name.as_str()
    }

    pub fn copy(&self, alloc: Global) -> Result<DocName, NoMemory>
        ensures { IfOk result (λ copy. copy ≡ self.now) }
    {
        let name = self.name.copy(alloc)?;
        Ok(DocName { name })
    }
}

impl Key for DocName {
    ghost text_of = { λ name. name };

    fn text(&self) -> &str {
        self.as_str()
    }
}

impl PartialEq for DocName {
    ghost eq = { bytes_eq };

    ghost laws = { partial_equiv_from_equiv nat_list_eq_equiv };

    fn eq(&self, other: &DocName) -> bool {
        self.as_str() == other.as_str()
    }
}

impl Eq for DocName {
    ghost laws = { nat_list_eq_equiv };
}

impl PartialOrd for DocName {
    ghost partial_cmp = { λ a b. Some (slice_cmp nat_cmp a b) };

    ghost laws = { texts_po };

    fn partial_cmp(&self, other: &DocName) -> Option<Ordering> {
        Some(self.cmp(other))
    }
}

/// The order of bytes.
impl Ord for DocName {
    ghost cmp = { slice_cmp nat_cmp };

    ghost total = { nat_list_cmp_total };

    ghost matches_partial_cmp = { λ a b. refl };

    ghost matches_eq = { texts_ties };

    fn cmp(&self, other: &DocName) -> Ordering {
        self.as_str().cmp(other.as_str())
    }
}

/// The name of a channel in a document.
#[derive(Drop)]
pub struct Address {
    name: Name,
}

impl Model for Address {
    ghost use Rattle.std.specs.Prelude.{List, ℕ};

    ghost Value = { List ℕ };

    ghost view = { λ address. address.name };
}

impl Address {
    pub fn read(alloc: Global, text: &str) -> Result<Address, NameFault>
        ensures { IsUnless NameFault.NoMemory result (read_name text.now) }
    {
        let name = Name::read(alloc, text)?;
        Ok(Address { name })
    }

    pub fn as_str(&self) -> &str
        ensures bytes { result.now ≡ self.now }
        ensures name { IsName self.now }
    {
        self.name.as_str()
    }

    pub fn copy(&self, alloc: Global) -> Result<Address, NoMemory>
        ensures { IfOk result (λ copy. copy ≡ self.now) }
    {
        let name = self.name.copy(alloc)?;
        Ok(Address { name })
    }
}

impl PartialEq for Address {
    ghost eq = { bytes_eq };

    ghost laws = { partial_equiv_from_equiv nat_list_eq_equiv };

    fn eq(&self, other: &Address) -> bool {
        self.as_str() == other.as_str()
    }
}

impl Eq for Address {
    ghost laws = { nat_list_eq_equiv };
}

impl PartialOrd for Address {
    ghost partial_cmp = { λ a b. Some (slice_cmp nat_cmp a b) };

    ghost laws = { texts_po };

    fn partial_cmp(&self, other: &Address) -> Option<Ordering> {
        Some(self.cmp(other))
    }
}

/// The order of bytes.
impl Ord for Address {
    ghost cmp = { slice_cmp nat_cmp };

    ghost total = { nat_list_cmp_total };

    ghost matches_partial_cmp = { λ a b. refl };

    ghost matches_eq = { texts_ties };

    fn cmp(&self, other: &Address) -> Ordering {
        self.as_str().cmp(other.as_str())
    }
}
