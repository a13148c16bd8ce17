// Clocks, and the place of a reader in an order.
use crate::words::{number_of, split};
use fluid_cast::Cursor;
use fluid_io::{Clock, FixedClock, StdClock};
use fluid_json::{LARGEST, NoMemory, Text};
use std::alloc::Global;
use std::io::ErrorKind;
use std::time::Duration;
use std::{io, time};

// A clock that can't be read without a moment.
#[derive(Drop)]
struct ClockAt(Option<u64>);

impl time::Clock for ClockAt {
    fn monotonic(&self) -> io::Result<Duration> {
        Ok(Duration::ZERO)
    }

    fn since_1970(&self) -> io::Result<Duration> {
        match self.0 {
            Some(moment) => Ok(Duration::from_millis(moment)),
            None => Err(io::Error::from(ErrorKind::Other)),
        }
    }
}

// What is shown by a clock of std at this moment, or at none, and by one that stands still there.
pub(crate) fn told(alloc: Global, text: &str) -> Result<Text, NoMemory> {
    let shown = if text == "none" {
        None
    } else {
        Some(number_of(text))
    };
    let now = StdClock::new(ClockAt(shown)).now();
    let still = FixedClock::new(now.min(LARGEST)).now();
    Ok(Text::new(format!(in alloc; "{now} {still}")?))
}

// The next numbers of a reader at this number, of an order of so many messages, at most so many; and its place behind them.
pub(crate) fn batch(alloc: Global, text: &str) -> Result<Text, NoMemory> {
    let (next, rest) = split(text);
    let (len, most) = split(rest);
    let mut cursor = Cursor {
        next: number_of(next),
    };
    let len = number_of(len);
    if len == u64::MAX {
        return Text::copied(alloc, "too many");
    }
    let range = cursor.batch(len, number_of(most));
    cursor.advance(range.end);
    let told = format!(in alloc; "{} {} {}", range.start, range.end, cursor.next)?;
    Ok(Text::new(told))
}
