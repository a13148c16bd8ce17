// What comes of a text.
use fluid_ends::TalkFault;
use fluid_voice::Replies;

/// What came of a text that was heard. The numbers count the verdicts of its submissions.
#[derive(Drop)]
pub struct Heard {
    /// The replies, in the order in which they are to be sent. Behind a fault they are those of what was done before it, and for want
    /// of memory a prefix of these.
    pub replies: Replies,
    pub sequenced: u64,
    pub dropped: u64,
    pub nacked: u64,
    pub absorbed: u64,
    /// Why the text wasn't done to its end.
    pub fault: Option<TalkFault>,
}
