// How a row writes bytes and numbers, and how an answer is made of them.
use fluid_json::{NoMemory, Text};
use std::alloc::Global;

// The bytes that a row writes: two lower hexadecimal digits behind a % are the byte of that number.
pub(crate) fn bytes_of(alloc: Global, written: &str) -> Result<Vec<u8>, NoMemory> {
    let mut bytes = Vec::new(alloc);
    let mut parts = written.split('%');
    if let Some(first) = parts.next() {
        bytes.extend_from_slice(first.as_bytes())?;
    }
    for part in parts {
        match part.as_bytes() {
            [high, low, rest @ ..] => {
                bytes.push((digit(*high) << 4) | digit(*low))?;
                bytes.extend_from_slice(rest)?;
            }
            rest => bytes.extend_from_slice(rest)?,
        }
    }
    Ok(bytes)
}

fn digit(byte: u8) -> u8 {
    match byte {
        b'0'..=b'9' => byte - b'0',
        b'a'..=b'f' => byte - b'a' + 10,
        _ => 0,
    }
}

// The number that a row writes; 0 for what is none.
pub(crate) fn number_of(written: &str) -> u64 {
    match written.parse() {
        Ok(number) => number,
        Err(_) => 0,
    }
}

// Bytes as an answer: the text that they spell, or their digits.
pub(crate) fn text_of(alloc: Global, bytes: &[u8]) -> Result<Text, NoMemory> {
    match str::from_utf8(bytes) {
        Ok(text) => Text::copied(alloc, text),
        Err(_) => Ok(Text::new(hex::encode(alloc, bytes)?)),
    }
}

// A row's text up to the first blank, and what stands behind it.
pub(crate) fn split(text: &str) -> (&str, &str) {
    match text.split_once(' ') {
        Some((word, rest)) => (word, rest),
        None => (text, ""),
    }
}
