// The rows of the input, one answer each.
use crate::rows::told;
use fluid_io::{Failed, LONGEST_TEXT, Line, Lines, MOST_LINES, Sink, Source, write_all};
use std::alloc::Global;

// Answers each row, in their order.
pub(crate) fn answer_all<S: Source, K: Sink>(
    alloc: Global,
    input: &mut S,
    output: &mut K,
) -> Result<(), Failed> {
    let mut lines = Lines::new(LONGEST_TEXT);
    for _ in 0..=MOST_LINES {
        match lines.next(alloc, input) {
            Ok(Line::Text(row)) => answer(alloc, row.as_str(), output)?,
            Ok(Line::End) => return output.flush(),
            Err(_) => return Err(Failed),
        }
    }
    Err(Failed)
}

// A heading, which begins with #, and an empty line are printed as they stand.
fn answer<K: Sink>(alloc: Global, row: &str, output: &mut K) -> Result<(), Failed> {
    if row.is_empty() || row.starts_with('#') {
        write_all(output, row.as_bytes())?;
    } else {
        let Ok(answer) = told(alloc, row) else {
            return Err(Failed);
        };
        write_all(output, answer.as_str().as_bytes())?;
    }
    write_all(output, b"\n")
}
