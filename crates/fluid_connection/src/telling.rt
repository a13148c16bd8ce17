// What is said to the entries of a text, and how often each verdict was given.
ghost use Rattle.std.specs.Prelude.{◌≡◌, ◌∷◌, [], ◌++◌, false, IfOk, IfErr};
ghost use Rattle.fluid_voice.specs.States.{document_name};
ghost use Rattle.fluid_voice.specs.Replies.{entry_replies};
ghost use Rattle.fluid_connection.specs.Telling.{HasRoom, no_counts, with_end, full_behind, TellsPrefix, SaysOne};

use fluid_ends::TalkFault;
use fluid_json::NoMemory;
use fluid_types::Verdict;
use fluid_voice::{ActEnd, Replies, Reply, Voice};
use std::alloc::Global;

/// How often each verdict was given.
#[derive(Clone, Copy, Debug, PartialEq, Eq)]
pub(crate) struct Counts {
    pub(crate) sequenced: u64,
    pub(crate) dropped: u64,
    pub(crate) nacked: u64,
    pub(crate) absorbed: u64,
}

/// What came of some entries: the replies, the counts of their verdicts, and whether the document was found full.
#[derive(Drop)]
pub(crate) struct Answered {
    pub(crate) replies: Vec<Reply>,
    pub(crate) counts: Counts,
    pub(crate) full: bool,
}

impl Answered {
    /// Nothing yet. Takes no memory.
    pub(crate) fn new(alloc: Global) -> Answered
        ensures replies { result.replies.items ≡ [] }
        ensures counts { result.counts ≡ no_counts }
        ensures full { result.full ≡ false }
    {
        Answered {
            replies: Vec::new(alloc),
            counts: Counts {
                sequenced: 0,
                dropped: 0,
                nacked: 0,
                absorbed: 0,
            },
            full: false,
        }
    }

    /// These replies, with nothing entered. Takes no memory.
    pub(crate) fn of(replies: Replies) -> Answered
        ensures replies { result.replies.items ≡ replies }
        ensures counts { result.counts ≡ no_counts }
    {
        Answered {
            replies: replies.into_vec(),
            counts: Counts {
                sequenced: 0,
                dropped: 0,
                nacked: 0,
                absorbed: 0,
            },
            full: false,
        }
    }

    /// Notes how an entry ended, and says what is to be said to it. For want of memory a prefix of that is said.
    pub(crate) fn say(&mut self, alloc: Global, voice: &Voice, end: ActEnd) -> Result<(), NoMemory>
        requires { HasRoom self.old.counts }
        ensures counts { self.new.counts ≡ with_end self.old.counts end }
        ensures full { self.new.full ≡ full_behind self.old.full end }
        ensures said { IfOk result (λ _. self.new.replies.items ≡ self.old.replies.items ++ entry_replies (document_name voice.now) end) }
        ensures prefix { IfErr result (λ _. TellsPrefix (entry_replies (document_name voice.now) end) self.old.replies.items self.new.replies.items) }
    {
        self.counts = with_end(self.counts, &end);
        self.full = full_behind(self.full, &end);
        let more = voice.take_entry(alloc, end)?;
        add(&mut self.replies, more)
    }
}

/// What was said to one act alone, which enters no submission. For want of memory nothing is.
pub(crate) fn say_one(
    alloc: Global,
    said: Result<Replies, NoMemory>,
) -> (Answered, Option<TalkFault>)
    ensures { SaysOne said result.0 result.1 }
{
    match said {
        Ok(replies) => (Answered::of(replies), None),
        Err(_) => (Answered::new(alloc), Some(TalkFault::NoMemory)),
    }
}

fn add(replies: &mut Vec<Reply>, more: Replies) -> Result<(), NoMemory>
    ensures said { IfOk result (λ _. replies.new.items ≡ replies.old.items ++ more) }
    ensures prefix { IfErr result (λ _. TellsPrefix more replies.old.items replies.new.items) }
{
    for reply in more.into_vec() {
        push(replies, reply)?;
    }
    Ok(())
}

fn push(replies: &mut Vec<Reply>, reply: Reply) -> Result<(), NoMemory>
    ensures said { IfOk result (λ _. replies.new.items ≡ replies.old.items ++ reply ∷ []) }
    ensures same { IfErr result (λ _. replies.new.items ≡ replies.old.items) }
{
    replies.push(reply)?;
    Ok(())
}

fn full_behind(full: bool, end: &ActEnd) -> bool
    ensures { result ≡ full_behind full end.now }
{
    if full {
        return true;
    }
    match end {
        ActEnd::FullNow => true,
        ActEnd::Said => false,
        ActEnd::Joined(_, _) => false,
        ActEnd::Told(_) => false,
        ActEnd::Entered(_) => false,
        ActEnd::TooMany => false,
        ActEnd::Given(_) => false,
    }
}

fn with_end(counts: Counts, end: &ActEnd) -> Counts
    requires { HasRoom counts }
    ensures { result ≡ with_end counts end.now }
{
    match end {
        ActEnd::Entered(verdict) => with_verdict(counts, verdict),
        ActEnd::FullNow => counts,
        ActEnd::Said => counts,
        ActEnd::Joined(_, _) => counts,
        ActEnd::Told(_) => counts,
        ActEnd::TooMany => counts,
        ActEnd::Given(_) => counts,
    }
}

fn with_verdict(counts: Counts, verdict: &Verdict) -> Counts
    requires { HasRoom counts }
    ensures { result ≡ with_end counts (ActEnd.Entered verdict.now) }
{
    match verdict {
        Verdict::Sequenced(_) => Counts {
            sequenced: counts.sequenced + 1,
            ..counts
        },
        Verdict::Dropped => Counts {
            dropped: counts.dropped + 1,
            ..counts
        },
        Verdict::Nacked(_) => Counts {
            nacked: counts.nacked + 1,
            ..counts
        },
        Verdict::Absorbed => Counts {
            absorbed: counts.absorbed + 1,
            ..counts
        },
    }
}
