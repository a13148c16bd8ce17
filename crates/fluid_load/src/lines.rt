//! The summary of a workload.
ghost use Rattle.std.specs.Prelude.{◌≡◌, ◌++◌, ◌∷◌, [], IfOk, codes};
ghost use Rattle.hex.specs.Hex.{encode_lower};
ghost use Rattle.fluid_transcript.specs.Transcript.{written};
ghost use Rattle.fluid_workload.specs.Working.{Workload as AWorkload};
ghost use Rattle.fluid_workload.specs.Summary.{counted, sameness, summary as the_summary};
ghost use Rattle.fluid_load.specs.Standing.{WorkGoes};
ghost use Rattle.fluid_load.specs.Writing.{dropped_by, lines_of};

use crate::working::Working;
use fluid_callers::Written;
use fluid_json::NoMemory;
use fluid_log::Shelves;
use fluid_store::Objects;
use fluid_tree::Id;
use fluid_turns::{Figures, Tally, first, last, work};
use std::alloc::Global;

/// The seven lines of a workload.
pub(crate) fn summary<B: Shelves, O: Objects>(
    alloc: Global,
    working: &mut Working<B, O>,
) -> Result<Written, NoMemory>
where
    B::K: Drop,
    ensures same { working.new ≡ working.old }
    ensures lines { (w : AWorkload) → WorkGoes working.old w → IfOk result (λ bytes. bytes ≡ written (the_summary w)) }
{
    let document = work(alloc)?;
    let figures = working.figures(&document);
    let first_name = first(alloc)?;
    let one = working.state(alloc, &first_name)?;
    let last_name = last(alloc)?;
    let other = working.state(alloc, &last_name)?;
    all_lines(alloc, figures, working.tally(), &one, &other)
}

fn all_lines(
    alloc: Global,
    figures: Figures,
    tally: Tally,
    first: &Id,
    last: &Id,
) -> Result<Written, NoMemory>
    ensures { IfOk result (λ bytes. bytes ≡ written (lines_of figures tally first.now last.now)) }
{
    let messages = with_count(alloc, Written::none(alloc), "messages", figures.sequence)?;
    let dropped = with_count(alloc, messages, "dropped", count_dropped(figures, tally))?;
    let absorbed = with_count(alloc, dropped, "absorbed", tally.absorbed)?;
    let nacked = with_count(alloc, absorbed, "nacked", tally.nacked)?;
    let summaries = with_count(alloc, nacked, "summaries", figures.summaries)?;
    let state = with_state(alloc, summaries, first)?;
    with_sameness(state, first, last)
}

// All that has no message and was neither absorbed nor nacked was dropped.
fn count_dropped(figures: Figures, tally: Tally) -> u64
    ensures { result ≡ dropped_by figures tally }
{
    let others = tally.absorbed.saturating_add(tally.nacked);
    figures.unsequenced().saturating_sub(others)
}

// Lines, and behind them a word with a number.
fn with_count(alloc: Global, lines: Written, word: &str, count: u64) -> Result<Written, NoMemory>
    ensures { IfOk result (λ more. more ≡ lines ++ written (counted word.now count ∷ [])) }
{
    let mut more = lines;
    let line = format!(in alloc; "{word} {count}")?;
    more.push(line.as_str())?;
    Ok(more)
}

fn with_state(alloc: Global, lines: Written, id: &Id) -> Result<Written, NoMemory>
    ensures { IfOk result (λ more. more ≡ lines ++ written ((codes "state " ++ encode_lower id.now) ∷ [])) }
{
    let mut more = lines;
    let digits = id.print(alloc)?;
    let digits = digits.as_str();
    let line = format!(in alloc; "state {digits}")?;
    more.push(line.as_str())?;
    Ok(more)
}

fn with_sameness(lines: Written, first: &Id, last: &Id) -> Result<Written, NoMemory>
    ensures { IfOk result (λ more. more ≡ lines ++ written ((codes "loaded " ++ sameness first.now last.now) ∷ [])) }
{
    let mut more = lines;
    more.push(sameness(first, last))?;
    Ok(more)
}

fn sameness(first: &Id, last: &Id) -> &'static str
    ensures { result.now ≡ codes "loaded " ++ sameness first.now last.now }
{
    if first.as_bytes() == last.as_bytes() {
        "loaded same"
    } else {
        "loaded different"
    }
}
