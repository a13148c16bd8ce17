// Where bytes come from and where they go.
use crate::words::{number_of, split, text_of};
use fluid_io::{
    Failed, Line, Lines, MemorySink, MemorySource, Sink, Source, StdSink, StdSource, write_all,
};
use fluid_json::{NoMemory, Text};
use std::alloc::Global;
use std::io;
use std::io::{ErrorKind, Write};

// What a reader of lines of at most three bytes answers until the end, and once more behind a fault: a line as [line], the end
// as a full stop.
fn lines_told<S: Source>(alloc: Global, source: &mut S) -> Result<String, NoMemory> {
    let mut lines = Lines::new(3);
    let mut told = String::new(alloc);
    for _ in 0..9 {
        match lines.next(alloc, source) {
            Ok(Line::Text(text)) => push_line(&mut told, text.as_str())?,
            Ok(Line::End) => {
                told.push_str(".")?;
                return Ok(told);
            }
            Err(fault) => told.push_str(format!(in alloc; "{fault:?}")?.as_str())?,
        }
    }
    Ok(told)
}

fn push_line(told: &mut String, line: &str) -> Result<(), NoMemory> {
    told.push_str("[")?;
    told.push_str(line)?;
    told.push_str("]")?;
    Ok(())
}

// The lines of these bytes, which must be the same in pieces of one, of two and of a hundred bytes.
pub(crate) fn lines(alloc: Global, bytes: &[u8]) -> Result<Text, NoMemory> {
    let ones = lines_in_pieces(alloc, bytes, 1, 0)?;
    let twos = lines_in_pieces(alloc, bytes, 2, 0)?;
    let whole = lines_in_pieces(alloc, bytes, 100, 0)?;
    if ones.as_str() == whole.as_str() && twos.as_str() == whole.as_str() {
        Ok(Text::new(whole))
    } else {
        Text::copied(alloc, "not the same in pieces")
    }
}

fn lines_in_pieces(
    alloc: Global,
    bytes: &[u8],
    most: usize,
    call: u64,
) -> Result<String, NoMemory> {
    let bytes = Vec::from_slice(alloc, bytes)?;
    let failing = Vec::from_slice(alloc, &[call])?;
    let mut source = MemorySource::in_pieces(bytes, most.max(1), failing);
    lines_told(alloc, &mut source)
}

// Two lines, byte by byte, where the read of this number fails.
pub(crate) fn failing(alloc: Global, call: &str) -> Result<Text, NoMemory> {
    let told = lines_in_pieces(alloc, b"ab\ncd\n", 1, number_of(call))?;
    Ok(Text::new(told))
}

// What three bytes leave in a sink that takes one at a time and fails at the call of this number.
pub(crate) fn sink(alloc: Global, call: &str) -> Result<Text, NoMemory> {
    let failing = Vec::from_slice(alloc, &[number_of(call)])?;
    let mut sink = MemorySink::in_pieces(alloc, 1, failing);
    let answer = letter(written(&mut sink, b"abc"));
    let left = text_of(alloc, sink.written())?;
    Ok(Text::new(format!(in alloc; "{answer} {}", left.as_str())?))
}

fn written<K: Sink>(sink: &mut K, bytes: &[u8]) -> Result<(), Failed> {
    write_all(sink, bytes)?;
    sink.flush()
}

fn letter(answer: Result<(), Failed>) -> &'static str {
    match answer {
        Ok(()) => "+",
        Err(Failed) => "F",
    }
}

// The objects of std: bytes that are read and written, or a writer that takes nothing.
pub(crate) fn of_std(alloc: Global, text: &str) -> Result<Text, NoMemory> {
    match split(text) {
        ("read", rest) => {
            let mut source = StdSource::new(rest.as_bytes());
            Ok(Text::new(lines_told(alloc, &mut source)?))
        }
        ("write", rest) => std_written(alloc, rest.as_bytes()),
        _ => full(alloc),
    }
}

fn std_written(alloc: Global, bytes: &[u8]) -> Result<Text, NoMemory> {
    let mut taken = Vec::new(alloc);
    let mut sink = StdSink::new(&mut taken);
    let answer = letter(written(&mut sink, bytes));
    drop(sink);
    let left = text_of(alloc, &taken)?;
    Ok(Text::new(format!(in alloc; "{answer} {}", left.as_str())?))
}

#[derive(Drop)]
struct FullWriter;

impl Write for FullWriter {
    fn write(&mut self, _bytes: &[u8]) -> io::Result<usize> {
        Ok(0)
    }

    fn flush(&mut self) -> io::Result<()> {
        Err(io::Error::from(ErrorKind::BrokenPipe))
    }
}

// A byte, no byte, and what was held back.
fn full(alloc: Global) -> Result<Text, NoMemory> {
    let mut sink = StdSink::new(FullWriter);
    let byte = letter(sink.write(b"a").map(|_count| ()));
    let nothing = letter(sink.write(b"").map(|_count| ()));
    let flushed = letter(sink.flush());
    Ok(Text::new(format!(in alloc; "{byte}{nothing}{flushed}")?))
}
