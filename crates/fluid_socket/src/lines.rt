//! Texts as lines: each ends in a line feed, before which one carriage return is left out. A last line without a line feed keeps
//! its carriage return.

use crate::metered::Metered;
use crate::step::{Sent, Step};
use fluid_io::LONGEST_TEXT;
use fluid_json::Text;
use memchr::memchr;
use std::alloc::{AllocError, Global};
use std::io::{ErrorKind, Read, Write};
use std::str;

// How many bytes one read asks for.
const CHUNK: usize = 4096;

// How many bytes a buffer keeps when it is empty.
const KEPT: usize = 65_536;

/// A stream with one text a line. A last line without a line feed counts where it isn't empty.
#[derive(Drop)]
pub(crate) struct LineStream {
    alloc: Global,
    stream: Metered,
    // what came in and isn't given yet, from `start` on; nothing before `searched` is a line feed
    held: Vec<u8>,
    start: usize,
    searched: usize,
    // no line was given yet
    first: bool,
    // what is to go out, from `sent` on
    output: Vec<u8>,
    sent: usize,
}

impl LineStream {
    pub(crate) fn new(alloc: Global, stream: Metered) -> LineStream {
        LineStream {
            alloc,
            stream,
            held: Vec::new(alloc),
            start: 0,
            searched: 0,
            first: true,
            output: Vec::new(alloc),
            sent: 0,
        }
    }

    pub(crate) fn stream(&mut self) -> &mut Metered {
        &mut self.stream
    }

    /// The next line, as far as the stream has it.
    pub(crate) fn receive(&mut self, alloc: Global) -> Step {
        if let Some(step) = self.next_line(alloc) {
            return step;
        }
        let mut chunk = [0u8; CHUNK];
        match self.stream.read(&mut chunk) {
            Ok(0) => self.last_line(alloc),
            Ok(count) => match self.keep(chunk.get(..count).unwrap_or(&[])) {
                Ok(()) => Step::Passed,
                Err(_) => Step::NoMemory,
            },
            Err(error) if error.kind() == ErrorKind::WouldBlock => Step::Blocked,
            Err(_) => Step::Failed,
        }
    }

    // The next line of what is held, or that the line that is held is too long already.
    fn next_line(&mut self, alloc: Global) -> Option<Step> {
        let ahead = self.held.get(self.searched..)?;
        match memchr(b'\n', ahead) {
            Some(at) => {
                let end = self.searched.saturating_add(at);
                let step = self.line(alloc, end, true);
                self.start = end.saturating_add(1);
                self.searched = self.start;
                Some(step)
            }
            None => {
                self.searched = self.held.len();
                // a carriage return may still be the last byte of a line that isn't too long
                if self.held.len().saturating_sub(self.start) > LONGEST_TEXT.saturating_add(1) {
                    return Some(Step::TooLong(LONGEST_TEXT as u64 + 1));
                }
                None
            }
        }
    }

    // The line behind which the stream ended.
    fn last_line(&mut self, alloc: Global) -> Step {
        let end = self.held.len();
        if self.start >= end {
            return Step::End;
        }
        let step = self.line(alloc, end, false);
        self.start = end;
        self.searched = end;
        step
    }

    // The line before `end`. To its line feed, where it has one, a carriage return before it belongs. One that ends as the
    // first line of a request of HTTP is a fault, where it is the first: any page can send lines in the body of one.
    fn line(&mut self, alloc: Global, end: usize, has_feed: bool) -> Step {
        let Some(whole) = self.held.get(self.start..end) else {
            return Step::Failed;
        };
        let bare = whole.strip_suffix(b"\r".as_slice()).unwrap_or(whole);
        if self.first && (bare.ends_with(b" HTTP/1.0") || bare.ends_with(b" HTTP/1.1")) {
            return Step::Failed;
        }
        self.first = false;
        let line = if has_feed { bare } else { whole };
        if line.len() > LONGEST_TEXT {
            return Step::TooLong(LONGEST_TEXT as u64 + 1);
        }
        let Ok(text) = str::from_utf8(line) else {
            return Step::Failed;
        };
        match Text::copied(alloc, text) {
            Ok(text) => Step::Text(text),
            Err(_) => Step::NoMemory,
        }
    }

    // Holds what came in behind what is still held. Memory goes with what is held.
    fn keep(&mut self, bytes: &[u8]) -> Result<(), AllocError> {
        if self.start >= self.held.len() && self.held.capacity() > KEPT {
            self.held = Vec::new(self.alloc);
        }
        self.held.drain(..self.start.min(self.held.len()));
        self.searched = self.searched.saturating_sub(self.start);
        self.start = 0;
        self.held.extend_from_slice(bytes)
    }

    /// Sends a text and its line feed, as far as the peer takes them.
    pub(crate) fn send(&mut self, text: &str) -> Sent {
        match self.put(text) {
            Sent::Blocked => self.flush(),
            other => other,
        }
    }

    /// Puts a text and its line feed behind what waits to go out.
    pub(crate) fn put(&mut self, text: &str) -> Sent {
        if self.fill(text).is_err() {
            return Sent::NoMemory;
        }
        Sent::Blocked
    }

    fn fill(&mut self, text: &str) -> Result<(), AllocError> {
        self.output.reserve(text.len().saturating_add(1))?;
        self.output.extend_from_slice(text.as_bytes())?;
        self.output.push(b'\n')?;
        Ok(())
    }

    /// Sends the rest of what waits.
    pub(crate) fn flush(&mut self) -> Sent {
        for _ in 0..usize::MAX {
            let rest = self.output.get(self.sent..).unwrap_or(&[]);
            if rest.is_empty() {
                break;
            }
            match self.stream.write(rest) {
                Ok(0) => return Sent::Failed,
                Ok(count) => self.sent = self.sent.saturating_add(count),
                Err(error) => match error.kind() {
                    ErrorKind::WouldBlock => return Sent::Blocked,
                    ErrorKind::Interrupted => {}
                    _ => return Sent::Failed,
                },
            }
        }
        self.output.clear();
        self.sent = 0;
        if self.output.capacity() > KEPT {
            self.output = Vec::new(self.alloc);
        }
        Sent::Whole
    }
}
