// The limits of a document, and which entries count towards them.
ghost use Rattle.std.specs.Prelude.{◌≡◌};
ghost use Rattle.fluid_rules.specs.Counted.{is_counted};

use fluid_types::Raw;

/// The most that one document takes.
#[derive(Clone, Copy, Debug, PartialEq, Eq)]
pub struct Limits {
    /// Joins and submissions that were entered, whatever their verdict.
    pub entries: u64,
    /// Clients that are joined at once.
    pub clients: u32,
    /// Stored checkpoints.
    pub checkpoints: u32,
    /// Bytes of a checkpoint's text.
    pub bytes: u64,
}

impl Limits {
    /// The limits of the programs.
    pub const FULL: Limits = Limits {
        entries: 4_194_304,
        clients: 1_024,
        checkpoints: 4_096,
        bytes: 1_073_741_824,
    };
}

/// Whether an entry counts towards the limit of entries.
pub fn is_counted(raw: &Raw) -> bool
    ensures { result ≡ is_counted raw.now }
{
    matches!(raw, Raw::Join { .. } | Raw::Submit { .. })
}
