// What is answered to a summary and what is to be done about it, where nothing lags behind.
ghost use Rattle.std.specs.Prelude.{◌≡◌, List, None, IfOk, option_map, option_copied};
ghost use Rattle.std.specs.List.{last_or};
ghost use Rattle.fluid_types.specs.Blobs.{blobs_of};
ghost use Rattle.fluid_rules.specs.Scribe.{protocol};
ghost use Rattle.fluid_scribe.specs.State.{brought};
ghost use Rattle.fluid_scribe.specs.Tails.{kept, state_with};
ghost use Rattle.fluid_scribe.specs.Jobs.{answer_in, answer_to_in, job_in, job_of_in, pending_in, last_ack_in};

use crate::job::Job;
use crate::judging::{may_be_acknowledged, refused_by};
use crate::reading::{proposed_by, reference_of};
use crate::tail::Tail;
use crate::version::{protocol_of, version};
use crate::waiting::Waiting;
use fluid_json::NoMemory;
use fluid_rules::{Answer, Proposed, SummaryRule};
use fluid_tree::{Id, Node, SummaryRef};
use fluid_types::Message;
use std::alloc::Global;

/// What is to be done about the pending summarize; None exactly where none is pending.
#[tactic(auto, unfolding(crate::specs::Jobs::job_in))]
pub(crate) fn job_now(
    alloc: Global,
    tail: &Tail,
    waiting: &Waiting,
    acks: &[SummaryRef],
) -> Result<Option<Job>, NoMemory>
    ensures { IfOk result (λ given. given ≡ job_in (state_with (kept tail.now) waiting.now.messages acks.now)) }
{
    let Some(summarize) = waiting.first() else {
        return Ok(None);
    };
    let job = job_of(alloc, tail, waiting, acks, summarize)?;
    Ok(Some(job))
}

/// The answer to a report on the summarize with this number.
#[tactic(auto, unfolding(crate::specs::Jobs::answer_in))]
pub(crate) fn answer_now(
    alloc: Global,
    tail: &Tail,
    waiting: &Waiting,
    acks: &[SummaryRef],
    summary: u64,
    found: bool,
) -> Result<Answer, NoMemory>
    ensures { IfOk result (λ given. given ≡ answer_in (state_with (kept tail.now) waiting.now.messages acks.now) summary found) }
{
    let Some(summarize) = waiting.first() else {
        return Ok(Answer::Dropped);
    };
    if summarize.number != summary {
        return Ok(Answer::Dropped);
    }
    answer_to(alloc, tail, waiting, acks, summarize, found)
}

// The job of a summarize. (`waiting` is named in its clause alone.)
fn job_of(
    alloc: Global,
    tail: &Tail,
    waiting: &Waiting,
    acks: &[SummaryRef],
    summarize: &Message,
) -> Result<Job, NoMemory>
    ensures { IfOk result (λ job. job ≡ job_of_in (state_with (kept tail.now) waiting.now.messages acks.now) summarize.now) }
{
    let proposed = proposed_by(alloc, summarize)?;
    let reference = reference_of(summarize);
    let needs_storage = may_be_acknowledged(alloc, &last_ack(acks), reference, &proposed)?;
    let protocol = protocol_at(alloc, tail, reference)?;
    Ok(Job {
        summary: summarize.number,
        app: app_of(proposed),
        protocol,
        reference,
        needs_storage,
    })
}

// The answer to a summarize.
fn answer_to(
    alloc: Global,
    tail: &Tail,
    waiting: &Waiting,
    acks: &[SummaryRef],
    summarize: &Message,
    found: bool,
) -> Result<Answer, NoMemory>
    ensures { IfOk result (λ answer. answer ≡ answer_to_in (state_with (kept tail.now) waiting.now.messages acks.now) found summarize.now) }
{
    let Some(proposed) = proposed_by(alloc, summarize)? else {
        return Ok(Answer::Refused(SummaryRule::Malformed));
    };
    let reference = reference_of(summarize);
    if let Some(rule) = refused_by(alloc, &last_ack(acks), reference, &proposed)? {
        return Ok(Answer::Refused(rule));
    }
    if !found {
        return Ok(Answer::Refused(SummaryRule::Missing));
    }
    let state = protocol_at(alloc, tail, reference)?;
    let handle = version(alloc, proposed.app, &state)?;
    Ok(Answer::Ack { handle })
}

// The four blobs of the order's state at a number.
fn protocol_at(alloc: Global, tail: &Tail, number: u64) -> Result<Node, NoMemory>
    ensures { IfOk result (λ tree. tree ≡ protocol (blobs_of (brought number tail.now.base tail.now.behind.items tail.now.minima.items).quorum)) }
{
    let quorum = tail.quorum_at(alloc, number)?;
    protocol_of(alloc, &quorum)
}

fn last_ack(acks: &[SummaryRef]) -> Option<SummaryRef>
    ensures { result ≡ last_or None acks.now }
{
    acks.last().copied()
}

// What a summarize asks to be the application's tree.
fn app_of(proposed: Option<Proposed>) -> Option<Id>
    ensures { result ≡ option_map (λ p. p.app) proposed }
{
    let Proposed { app, .. } = proposed?;
    Some(app)
}
