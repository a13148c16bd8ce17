//! The lines of a source.
ghost use Rattle.std.specs.Prelude.{◌≡◌, ℕ, ◌+◌, ◌-◌, ◌*◌, ◌^◌, ◌<◌, ◌≤◌, true, false, [], List, length, unwrap_or, IfOk, OnErr, if◌then◌else◌};
ghost use Rattle.std.specs.Str.{is_utf8};
ghost use Rattle.std.specs.Str.Lines.{strip_carriage_return};
ghost use Rattle.fluid_io.specs.Chunk.{ended_answer};
ghost use Rattle.fluid_io.specs.Lines.{ahead, line_answer, Advances, GivesLine, IsNext, IsReaderAfter, StaysEnded, StaysQuiet};

use crate::chunk::{Chunk, Ending};
use crate::{Line, LineFault, Source};
use fluid_json::Text;
use std::alloc::{AllocError, Global};
use std::marker::Model;

/// The most lines that an input may have.
pub const MOST_LINES: u64 = 16_777_216;

/// The most bytes that a line or a text may have.
pub const LONGEST_TEXT: usize = 1_048_576;

/// A reader of lines. It reads ahead through a buffer of 64 KiB, which it makes at its first line, and keeps the
/// bytes that it read ahead: so the lines of a source are read by one reader.
#[derive(Drop)]
pub struct Lines {
    limit: usize,
    count: u64,
    failed: bool,
    chunk: Option<Chunk>,
}

impl Model for Lines {
    ghost use Rattle.std.specs.Prelude.{[], ◌≤◌, unwrap_or};
    ghost use Rattle.fluid_io.specs.Reader.{Reader};

    ghost Value = { Reader };

    ghost view = { λ l. record { held = unwrap_or l.chunk []; count = l.count; failed = l.failed; limit = l.limit } };

    ghost invariant = { λ l. l.count ≤ 16_777_216 };
}

impl Lines {
    /// A reader of lines of at most `limit` bytes, their line ends aside. It has read nothing.
    pub fn new(limit: usize) -> Lines
        ensures { result ≡ record { held = []; count = 0; failed = false; limit = limit } }
    {
        Lines {
            limit,
            count: 0,
            failed: false,
            chunk: None,
        }
    }

    /// How many lines it gave.
    pub fn count(&self) -> u64
        ensures { result ≡ self.now.count }
    {
        self.count
    }

    /// The next line of `source`, or the end. Behind a fault it answers the end without a read.
    pub fn next<S: Source>(&mut self, alloc: Global, source: &mut S) -> Result<Line, LineFault>
        ensures later { (S.seen source.old).faults ≤ (S.seen source.new).faults }
        ensures quiet { StaysQuiet (S.seen source.old).faults (S.seen source.new).faults result }
        ensures reader { IsReaderAfter self.old self.new result }
        ensures advances { Advances (ahead self.old (S.seen source.old)) (ahead self.new (S.seen source.new)) }
        ensures answer { IsNext self.old (S.seen source.old) (S.seen source.new) result }
        ensures line { GivesLine self.old (S.seen source.old) self.new (S.seen source.new) result }
        ensures failed { self.old.failed ≡ true → StaysEnded self.old (S.seen source.old) self.new (S.seen source.new) result }
    {
        if self.failed {
            return Ok(Line::End);
        }
        let answer = self.read_next(alloc, source);
        match &answer {
            Ok(Line::Text(_)) => self.count += 1,
            Ok(Line::End) => {}
            Err(_) => self.failed = true,
        }
        answer
    }

    // The next line of a reader that hasn't failed, which is not counted yet.
    fn read_next<S: Source>(&mut self, alloc: Global, source: &mut S) -> Result<Line, LineFault>
        requires { self.old.failed ≡ false }
        ensures later { (S.seen source.old).faults ≤ (S.seen source.new).faults }
        ensures quiet { StaysQuiet (S.seen source.old).faults (S.seen source.new).faults result }
        ensures limit { self.new.limit ≡ self.old.limit }
        ensures count { self.new.count ≡ self.old.count }
        ensures failed { self.new.failed ≡ false }
        ensures advances { Advances (ahead self.old (S.seen source.old)) (ahead self.new (S.seen source.new)) }
        ensures answer { IsNext self.old (S.seen source.old) (S.seen source.new) result }
        ensures line { GivesLine self.old (S.seen source.old) self.new (S.seen source.new) result }
    {
        let mut chunk = chunk_or_new(self.chunk.take(), alloc)?;
        let mut line = Vec::new(alloc);
        let ending = chunk.take_line(source, self.limit, &mut line);
        self.chunk = Some(chunk);
        finish(line, ending?, self.limit, self.count + 1)
    }
}

// The chunk that was made before, or the first one.
fn chunk_or_new(made: Option<Chunk>, alloc: Global) -> Result<Chunk, AllocError>
    ensures held { IfOk result (λ chunk. chunk ≡ unwrap_or made []) }
    ensures none { OnErr result (made ≡ None) }
{
    match made {
        Some(chunk) => Ok(chunk),
        None => Chunk::new(alloc),
    }
}

// The answer for the bytes of a line by their ending.
fn finish(line: Vec<u8>, ending: Ending, limit: usize, number: u64) -> Result<Line, LineFault>
    ensures { result ≡ ended_answer limit number line.items ending }
{
    match ending {
        Ending::Excess => Err(LineFault::TooLong(number)),
        Ending::Input if line.is_empty() => Ok(Line::End),
        Ending::Input => check_line(line, limit, number),
        Ending::LineFeed => check_line(strip(line), limit, number),
    }
}

// A line without the carriage return at its end.
fn strip(line: Vec<u8>) -> Vec<u8>
    ensures { result.items ≡ strip_carriage_return line.items }
{
    let mut line = line;
    if line.last() == Some(&b'\r') {
        line.pop();
    }
    line
}

// The answer for a line.
fn check_line(line: Vec<u8>, limit: usize, number: u64) -> Result<Line, LineFault>
    ensures { result ≡ line_answer limit number line.items }
{
    if line.len() > limit {
        return Err(LineFault::TooLong(number));
    }
    let Some(text) = read_utf8(line) else {
        return Err(LineFault::NotUtf8(number));
    };
    if number > MOST_LINES {
        return Err(LineFault::TooMany(number));
    }
    Ok(Line::Text(text))
}

// The text that the bytes spell.
fn read_utf8(bytes: Vec<u8>) -> Option<Text>
    ensures { result ≡ (if is_utf8 bytes.items then Some bytes.items else None) }
{
    match String::from_utf8(bytes) {
        Ok(string) => Some(Text::new(string)),
        Err(_) => None,
    }
}
