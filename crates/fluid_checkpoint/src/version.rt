// The versions of the text of a checkpoint.

#[derive(Clone, Copy, Debug, PartialEq, Eq)]
pub(crate) enum Version {
    // Without moments. It is read, and not printed.
    One,
    Two,
}

impl Version {
    ghost use Rattle.std.specs.Prelude.{◌≡◌};
    ghost use Rattle.fluid_checkpoint.specs.Text.{version_number};

    pub(crate) fn number(self) -> u64
        ensures { result ≡ version_number self }
    {
        match self {
            Version::One => 1,
            Version::Two => 2,
        }
    }
}
