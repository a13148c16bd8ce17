// The numbers of a report.
ghost use Rattle.std.specs.Prelude.{◌≡◌};
ghost use Rattle.fluid_session.specs.Counted.{nothing, plus};

/// A session ends where so many texts were answered by a front's nack.
pub const MOST_UNREAD: u64 = 1000;

/// What has been counted so far. A number stands still at the end of its type.
#[derive(Clone, Copy)]
pub struct Tally {
    pub(crate) sequenced: u64,
    pub(crate) dropped: u64,
    pub(crate) nacked: u64,
    pub(crate) absorbed: u64,
    pub(crate) unread: u64,
}

impl Tally {
    pub fn new() -> Tally
        ensures { result ≡ nothing }
    {
        Tally {
            sequenced: 0,
            dropped: 0,
            nacked: 0,
            absorbed: 0,
            unread: 0,
        }
    }

    /// Counts one text more.
    pub(crate) fn add(&mut self, text: Tally)
        ensures { self.new ≡ plus self.old text }
    {
        self.sequenced = self.sequenced.saturating_add(text.sequenced);
        self.dropped = self.dropped.saturating_add(text.dropped);
        self.nacked = self.nacked.saturating_add(text.nacked);
        self.absorbed = self.absorbed.saturating_add(text.absorbed);
        self.unread = self.unread.saturating_add(text.unread);
    }
}
