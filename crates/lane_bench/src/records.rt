//! How raw records are entered into a lane.
ghost use Rattle.std.specs.Prelude.{◌≡◌, ℕ, ◌+◌, ◌^◌, ◌<◌, ◌≤◌, length, IfOk, is_err, if◌then◌else◌};
ghost use Rattle.fluid_readback.specs.Laws.{longest_text};
ghost use Rattle.fluid_types.specs.Fits.{Fits};
ghost use Rattle.fluid_types.specs.Names.{entry_name};
ghost use Rattle.fluid_lane.specs.Standing.{IsLeaveOrSubmission};
ghost use Rattle.lane_bench.specs.Fitting.{FitsLane};

use fluid_codec::read_raw;
use fluid_io::{LONGEST_TEXT, Line, Lines, MOST_LINES, Source};
use fluid_json::Json;
use fluid_lane::{Lane, LaneFault};
use fluid_log::Keeper;
use fluid_types::{Raw, Scopes};
use std::alloc::Global;

/// Why a record isn't entered.
#[derive(Clone, Copy, Debug, PartialEq, Eq)]
pub(crate) enum Stop {
    /// The line can't be read, or there are too many.
    Unread,
    /// The line isn't a raw record.
    BadRecord,
    /// The lane refuses the entry.
    Refused,
}

// Enters a raw entry; a join under the id that the lane gives it.
fn enter<K: Keeper>(alloc: Global, lane: &mut Lane<K>, raw: Raw) -> Result<(), Stop>
    requires { FitsLane raw }
    ensures { IfOk result (λ _. lane.new.entries.entered ≡ lane.old.entries.entered + 1) }
{
    match raw {
        Raw::Join {
            id: _id,
            scopes,
            detail,
            moment,
        } => join(alloc, lane, scopes, detail, moment),
        Raw::Leave { id, moment } => submit(alloc, lane, &Raw::Leave { id, moment }),
        Raw::Submit {
            id,
            submission,
            moment,
        } => submit(
            alloc,
            lane,
            &Raw::Submit {
                id,
                submission,
                moment,
            },
        ),
        Raw::Report {
            summary,
            found,
            moment,
        } => conclude(alloc, lane, summary, found, moment),
    }
}

// Enters a join.
fn join<K: Keeper>(
    alloc: Global,
    lane: &mut Lane<K>,
    scopes: Scopes,
    detail: Json,
    moment: u64,
) -> Result<(), Stop>
    requires { (n : ℕ) → n < 2 ^ 64 → Fits (Raw.Join (entry_name n) scopes detail moment) }
    ensures { IfOk result (λ _. lane.new.entries.entered ≡ lane.old.entries.entered + 1) }
{
    // The number that stands in the id.
    let _number = lane.entered();
    unless_refused(lane.join(alloc, scopes, detail, moment))
}

// Enters a leave or a submission.
fn submit<K: Keeper>(alloc: Global, lane: &mut Lane<K>, raw: &Raw) -> Result<(), Stop>
    requires fits { Fits raw.now }
    requires kind { IsLeaveOrSubmission raw.now }
    ensures { IfOk result (λ _. lane.new.entries.entered ≡ lane.old.entries.entered + 1) }
{
    unless_refused(lane.submit(alloc, raw))
}

// Enters a report.
fn conclude<K: Keeper>(
    alloc: Global,
    lane: &mut Lane<K>,
    summary: u64,
    found: bool,
    moment: u64,
) -> Result<(), Stop>
    requires { Fits (Raw.Report summary found moment) }
    ensures { IfOk result (λ _. lane.new.entries.entered ≡ lane.old.entries.entered + 1) }
{
    unless_refused(lane.conclude(alloc, summary, found, moment))
}

// Whether the lane entered an entry.
fn unless_refused<T: Drop>(entered: Result<T, LaneFault>) -> Result<(), Stop>
    ensures { is_err result ≡ is_err entered }
{
    match entered {
        Ok(_entered) => Ok(()),
        Err(_fault) => Err(Stop::Refused),
    }
}

// Enters the record of a text.
fn enter_record<K: Keeper>(alloc: Global, lane: &mut Lane<K>, text: &str) -> Result<(), Stop>
    requires { length text.now ≤ longest_text }
    ensures { IfOk result (λ _. lane.new.entries.entered ≡ lane.old.entries.entered + 1) }
{
    match read_raw(alloc, text) {
        Ok(raw) => enter(alloc, lane, raw),
        Err(_) => Err(Stop::BadRecord),
    }
}

// Enters the record of the next line. At the end it answers false.
fn enter_next<K: Keeper, S: Source>(
    alloc: Global,
    lane: &mut Lane<K>,
    lines: &mut Lines,
    input: &mut S,
) -> Result<bool, Stop>
    ensures { IfOk result (λ more. lane.new.entries.entered ≡ lane.old.entries.entered + (if more then 1 else 0)) }
{
    match lines.next(alloc, input) {
        Ok(Line::Text(text)) if text.as_str().len() <= LONGEST_TEXT => {
            enter_record(alloc, lane, text.as_str())?;
            Ok(true)
        }
        Ok(Line::Text(_)) => Err(Stop::Unread),
        Ok(Line::End) => Ok(false),
        Err(_) => Err(Stop::Unread),
    }
}

/// Enters the records of all lines of the input, in their order, and stores a checkpoint once so many are entered.
pub(crate) fn enter_all<K: Keeper, S: Source>(
    alloc: Global,
    lane: &mut Lane<K>,
    input: &mut S,
    at: Option<u64>,
) -> Result<(), Stop> {
    let mut lines = Lines::new(LONGEST_TEXT);
    for _ in 0..=MOST_LINES {
        if !enter_next(alloc, lane, &mut lines, input)? {
            return Ok(());
        }
        if Some(lane.entered()) == at {
            unless_refused(lane.checkpoint(alloc))?;
        }
    }
    Err(Stop::Unread)
}

/// Restarts the lane from its first checkpoint so often.
pub(crate) fn restart_often<K: Keeper>(
    alloc: Global,
    lane: &mut Lane<K>,
    restarts: u64,
) -> Result<(), Stop> {
    for _ in 0..restarts {
        unless_refused(lane.restart(alloc, 0))?;
    }
    Ok(())
}
