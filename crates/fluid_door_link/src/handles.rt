//! Counts of handles, as a link notes them.
ghost use Rattle.std.specs.Prelude.{◌≡◌, ◌++◌, ◌∷◌, [], false, IsTrue};

/// Keeps a count behind the others, and answers whether it did.
pub(crate) fn keep(counts: &mut Vec<u64>, count: u64) -> bool
    ensures kept { IsTrue result → counts.new.items ≡ counts.old.items ++ count ∷ [] }
    ensures unchanged { result ≡ false → counts.new.items ≡ counts.old.items }
{
    counts.push(count).is_ok()
}
