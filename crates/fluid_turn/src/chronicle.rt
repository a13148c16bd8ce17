//! What a turn keeps.
ghost use Rattle.std.specs.Prelude.{◌≡◌, List, length};

/// A value that stands for a list of entries, oldest first: what was done to it since it began.
pub trait Chronicle {
    type Entry;

    /// What never changes of the value while it is in a turn, as its limits.
    type Fixed;

    // The value stands for this list.
    ghost stands: { Self → List Self.Entry → Type 0 };

    ghost fixed: { Self → Self.Fixed };

    /// The length of every list that the value stands for.
    fn entered(&self) -> u64
        ensures { (l : List Self.Entry) → stands self.now l → result ≡ length l };
}
