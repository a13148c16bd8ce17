//! Whether a hint is on its way.
ghost use Rattle.std.specs.Prelude.{◌≡◌, true, false, not};

/// A flag beside a channel of hints: it is set where one is on its way, so that another would say nothing more. It stands behind a
/// lock, and whoever takes a hint out of the channel clears it before he looks at what there is to do.
#[derive(Clone, Copy, Debug, PartialEq, Eq)]
pub struct Bell {
    pub hint: bool,
}

impl Bell {
    /// No hint is on its way.
    pub fn new() -> Bell
        ensures { result ≡ record { hint = false } }
    {
        Bell { hint: false }
    }

    /// Sets the flag, and says whether it wasn't set.
    pub fn set(&mut self) -> bool
        ensures first { result ≡ not self.old.hint }
        ensures set { self.new ≡ record { hint = true } }
    {
        let first = !self.hint;
        self.hint = true;
        first
    }

    /// No hint is on its way any more.
    pub fn clear(&mut self)
        ensures { self.new ≡ record { hint = false } }
    {
        self.hint = false;
    }
}
