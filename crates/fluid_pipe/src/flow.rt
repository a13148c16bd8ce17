//! A run over the lines of an input.
ghost use Rattle.std.specs.Prelude.{◌≡◌, ℕ, ◌+◌, ◌-◌, ◌*◌, ◌^◌, ◌<◌, ◌≤◌, List, [], ◌++◌, true, OnOk, OnErr};
ghost use Rattle.fluid_io.specs.Causes.{HasExactCause};
ghost use Rattle.fluid_io.specs.Lines.{ahead};
ghost use Rattle.fluid_io.specs.Reader.{Reader};
ghost use Rattle.fluid_io.specs.Streams.{Reading, Writing, Appends, AppendsPrefix};
ghost use Rattle.fluid_io.specs.declared.lines.TheConstants.{MOST_LINES};
ghost use Rattle.fluid_pipe.specs.Meaning.{Meaning, bad_line, refusal_words};
ghost use Rattle.fluid_pipe.specs.Output.{FailedAt, Finished, HasEndCause, HasFailed};
ghost use Rattle.fluid_pipe.specs.Progress.{Counts, Ends, FailsLine, HandedOn, HandsOn, Reached, ReadsQuietly, Settled, Steps, has_write_fault};

use crate::refusal::Refusal;
use crate::sink::write_out;
use crate::stop::Stop;
use crate::taker::{Taker, Untaken};
use fluid_io::{Failed, LONGEST_TEXT, Line, LineFault, Lines, Sink, Source};
use fluid_json::NoMemory;
use std::alloc::Global;

/// So many bytes of whole lines go to the sink in one piece.
const PIECE: usize = 65_536;

/// Gives the lines of the input to a taker, one after another, and writes what it has for them. At the first line that is
/// refused the line `bad line N: WHY` is the last one that is written. At every end but a fault of the sink the output
/// ends at a line's end, and the sink was flushed.
pub fn pipe<S: Source, K: Sink, T: Taker>(
    alloc: Global,
    taker: &mut T,
    input: &mut S,
    output: &mut K,
) -> Result<(), Stop<T::Why, T::Fault>>
    requires { T.within taker.old 0 }
    ensures cause { HasEndCause (S.seen input.old) (K.seen output.old) (S.seen input.new) (K.seen output.new) result }
    ensures follows { T.follows taker.old taker.new }
    ensures failed { HasFailed (T.failed taker.old taker.new) result }
    ensures failed_at { (m : Meaning T.Why) → T.stands taker.old m [] → HasFailed (λ _. FailedAt (T.failed_at taker.new m) (S.seen input.old).left) result }
    ensures finished { (m : Meaning T.Why) → T.stands taker.old m [] → Finished m (T.stands taker.new m)
        (S.seen input.old) (K.seen output.old) (S.seen input.new) (K.seen output.new) result }
{
    let mut waiting = Vec::new(alloc);
    let taken = take_all(alloc, taker, &mut waiting, input, output);
    let settled = settle(alloc, taker, taken, &mut waiting);
    finish(taker, &mut waiting, output, settled)
}

// Takes all lines of the input.
fn take_all<S: Source, K: Sink, T: Taker>(
    alloc: Global,
    taker: &mut T,
    waiting: &mut Vec<u8>,
    input: &mut S,
    output: &mut K,
) -> Result<(), Stop<T::Why, T::Fault>>
    requires within { T.within taker.old 0 }
    requires none { waiting.old.items ≡ [] }
    ensures cause { HasEndCause (S.seen input.old) (K.seen output.old) (S.seen input.new) (K.seen output.new) result }
    ensures follows { T.follows taker.old taker.new }
    ensures failed { HasFailed (T.failed taker.old taker.new) result }
    ensures failed_at { (m : Meaning T.Why) → T.stands taker.old m [] → HasFailed (λ _. FailedAt (T.failed_at taker.new m) (S.seen input.old).left) result }
    ensures ends { (m : Meaning T.Why) → T.stands taker.old m [] → Ends m (T.stands taker.new m)
        (S.seen input.old) (K.seen output.old) waiting.new.items (S.seen input.new) (K.seen output.new) result }
{
    let mut lines = Lines::new(LONGEST_TEXT);
    while take_next(alloc, &mut lines, taker, waiting, input)? {
        hand_on_if_many::<K, T::Why, T::Fault>(waiting, output)?;
    }
    Ok(())
}

// Takes the next line of the input. At the end it answers false.
fn take_next<S: Source, T: Taker>(
    alloc: Global,
    lines: &mut Lines,
    taker: &mut T,
    waiting: &mut Vec<u8>,
    input: &mut S,
) -> Result<bool, Stop<T::Why, T::Fault>>
    requires { Counts (T.within taker.old) lines.old }
    ensures quiet { ReadsQuietly (S.seen input.old).faults (S.seen input.new).faults result }
    ensures counts { result ≡ Ok true → Counts (T.within taker.new) lines.new }
    ensures one_more { result ≡ Ok true → lines.new.count ≡ lines.old.count + 1 }
    ensures follows { T.follows taker.old taker.new }
    ensures failed { HasFailed (T.failed taker.old taker.new) result }
    ensures failed_at { (m : Meaning T.Why) (before : List (List ℕ)) (gone : List ℕ) →
        Reached m (T.stands taker.old m) before gone lines.old waiting.old.items →
        HasFailed (λ _. FailsLine (T.failed_at taker.new m) before (ahead lines.old (S.seen input.old))) result }
    ensures steps { (m : Meaning T.Why) (before : List (List ℕ)) (gone : List ℕ) →
        Reached m (T.stands taker.old m) before gone lines.old waiting.old.items →
        Steps m (T.stands taker.new m) before gone lines.old (S.seen input.old) lines.new (S.seen input.new) waiting.new.items result }
{
    let text = match lines.next(alloc, input) {
        Ok(Line::Text(text)) => text,
        Ok(Line::End) => return Ok(false),
        Err(LineFault::ReadFault) => return Err(Stop::ReadFault),
        Err(LineFault::TooLong(number)) => return Err(Stop::Refused(number, Refusal::TooLong)),
        Err(LineFault::NotUtf8(number)) => return Err(Stop::Refused(number, Refusal::NotUtf8)),
        Err(LineFault::TooMany(number)) => return Err(Stop::Refused(number, Refusal::TooManyLines)),
        Err(LineFault::NoMemory) => return Err(Stop::NoMemory),
    };
    match taker.take(alloc, text.as_str(), waiting) {
        Ok(()) => Ok(true),
        Err(Untaken::Refused(why)) => Err(Stop::Refused(lines.count(), Refusal::Text(why))),
        Err(Untaken::Failed(fault)) => Err(Stop::Failed(fault)),
    }
}

// Hands what waits to the sink where there is enough of it.
fn hand_on_if_many<K: Sink, W: Drop, F: Drop>(
    waiting: &mut Vec<u8>,
    output: &mut K,
) -> Result<(), Stop<W, F>>
    ensures cause { HandsOn (K.seen output.old).faults (K.seen output.new).faults result }
    ensures gone { OnOk result (HandedOn waiting.old.items waiting.new.items (K.seen output.old) (K.seen output.new)) }
    ensures cut { OnErr result (AppendsPrefix waiting.old.items (K.seen output.old).written (K.seen output.new).written) }
{
    if waiting.len() < PIECE {
        return Ok(());
    }
    match hand_on(waiting, output) {
        Ok(()) => Ok(()),
        Err(Failed) => Err(Stop::WriteFault),
    }
}

// Hands what waits to the sink. Nothing waits any more, not even after a fault.
fn hand_on<K: Sink>(waiting: &mut Vec<u8>, output: &mut K) -> Result<(), Failed>
    ensures cause { HasExactCause (K.seen output.old).faults (K.seen output.new).faults result }
    ensures none { waiting.new.items ≡ [] }
    ensures gone { OnOk result (Appends waiting.old.items (K.seen output.old).written (K.seen output.new).written) }
    ensures cut { OnErr result (AppendsPrefix waiting.old.items (K.seen output.old).written (K.seen output.new).written) }
{
    let written = write_out(output, waiting.as_slice());
    waiting.clear();
    written
}

// How a run ends once all that waits is written. The line of a refused line is put behind it.
fn settle<T: Taker>(
    alloc: Global,
    taker: &T,
    taken: Result<(), Stop<T::Why, T::Fault>>,
    waiting: &mut Vec<u8>,
) -> Result<(), Stop<T::Why, T::Fault>>
    ensures cause { (input : Reading) (start : Writing) (source : Reading) (sink : Writing) →
        HasEndCause input start source sink taken → HasEndCause input start source sink result }
    ensures failed { (old : T) → HasFailed (T.failed old taker.now) taken → HasFailed (T.failed old taker.now) result }
    ensures failed_at { (m : Meaning T.Why) (input : Reading) →
        HasFailed (λ _. FailedAt (T.failed_at taker.now m) input.left) taken → HasFailed (λ _. FailedAt (T.failed_at taker.now m) input.left) result }
    ensures settled { (m : Meaning T.Why) (input : Reading) (start : Writing) (source : Reading) (sink : Writing) →
        Ends m (T.stands taker.now m) input start waiting.old.items source sink taken →
        Settled m (T.stands taker.now m) input start waiting.new.items source sink result }
{
    match taken {
        Err(Stop::Refused(number, why)) => match push_bad_line(
            alloc, taker, waiting, number, &why,
        ) {
            Ok(()) => Err(Stop::Refused(number, why)),
            Err(NoMemory) => Err(Stop::NoMemory),
        },
        other => other,
    }
}

// Writes what waits. (The taker is only named in the clauses.)
fn finish<K: Sink, T: Taker>(
    _taker: &T,
    waiting: &mut Vec<u8>,
    output: &mut K,
    settled: Result<(), Stop<T::Why, T::Fault>>,
) -> Result<(), Stop<T::Why, T::Fault>>
    ensures cause { (input : Reading) (start : Writing) (source : Reading) →
        HasEndCause input start source (K.seen output.old) settled → HasEndCause input start source (K.seen output.new) result }
    ensures failed { (old : T) → HasFailed (T.failed old _taker.now) settled → HasFailed (T.failed old _taker.now) result }
    ensures failed_at { (m : Meaning T.Why) (input : Reading) →
        HasFailed (λ _. FailedAt (T.failed_at _taker.now m) input.left) settled → HasFailed (λ _. FailedAt (T.failed_at _taker.now m) input.left) result }
    ensures finished { (m : Meaning T.Why) (input : Reading) (start : Writing) (source : Reading) →
        Settled m (T.stands _taker.now m) input start waiting.old.items source (K.seen output.old) settled →
        Finished m (T.stands _taker.now m) input start source (K.seen output.new) result }
{
    if has_write_fault(&settled) {
        return settled;
    }
    match hand_on(waiting, output) {
        Ok(()) => settled,
        Err(Failed) => Err(Stop::WriteFault),
    }
}

fn has_write_fault<W, F>(settled: &Result<(), Stop<W, F>>) -> bool
    ensures { result ≡ has_write_fault settled.now }
{
    matches!(settled, Err(Stop::WriteFault))
}

// Puts the line for the refused line of this number behind those that wait. Without memory they stay as they are.
fn push_bad_line<T: Taker>(
    alloc: Global,
    taker: &T,
    waiting: &mut Vec<u8>,
    number: u64,
    why: &Refusal<T::Why>,
) -> Result<(), NoMemory>
    ensures ok { OnOk result ((m : Meaning T.Why) (before : List (List ℕ)) → T.stands taker.now m before →
        waiting.new.items ≡ waiting.old.items ++ bad_line m number why.now) }
    ensures err { OnErr result (waiting.new.items ≡ waiting.old.items) }
{
    let start = format!(in alloc; "bad line {number}: ")?;
    let mut line = Vec::from_slice(alloc, start.as_bytes())?;
    push_words(alloc, taker, &mut line, why)?;
    line.push(b'\n')?;
    waiting.extend_from_slice(line.as_slice())?;
    Ok(())
}

// Puts the words for a refusal behind the start of its line.
fn push_words<T: Taker>(
    alloc: Global,
    taker: &T,
    line: &mut Vec<u8>,
    why: &Refusal<T::Why>,
) -> Result<(), NoMemory>
    ensures { OnOk result ((m : Meaning T.Why) (before : List (List ℕ)) → T.stands taker.now m before →
        line.new.items ≡ line.old.items ++ refusal_words m why.now) }
{
    match why {
        Refusal::TooLong => push(line, "too long"),
        Refusal::NotUtf8 => push(line, "not UTF-8"),
        Refusal::TooManyLines => push(line, "too many lines"),
        Refusal::Text(why) => taker.push_words(alloc, line, why),
    }
}

fn push(line: &mut Vec<u8>, words: &str) -> Result<(), NoMemory>
    ensures { OnOk result (line.new.items ≡ line.old.items ++ words.now) }
{
    line.extend_from_slice(words.as_bytes())?;
    Ok(())
}
