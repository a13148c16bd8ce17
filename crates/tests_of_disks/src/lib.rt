//! Tests of the log on disks: what a crash leaves of a disk in memory, the bytes of record files and the calls that they make, what
//! opening finds after a crash at each call of a short life, of a file and of a lane, and the calls of a keeper on three disks.
#![tactic(auto)]

#[cfg(test)]
mod crashes;
#[cfg(test)]
mod files;
#[cfg(test)]
mod images;
#[cfg(test)]
mod keepers;
#[cfg(test)]
mod lanes;
