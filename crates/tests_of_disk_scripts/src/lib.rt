//! Tests of scripts over shelves on disks in memory: they write what they write over shelves in memory, and a document is there again
//! behind a crash. There is no code here beside them.
#![tactic(auto)]

#[cfg(test)]
mod scripts;
