//! A lock whose users know that the history of its value only grew. Who takes the turn gets the value itself, moved out of its
//! slot, with the list of entries that it stands for, and passes the turn on when that list is the longer one.
//!
//! `chronicle` says what a value has to be, `seat` what a user knows between turns, `turn` is the lock, and `held` the value in hand.
//! `view`, `origin`, `rule` and `steps` are how it stands on a table of words and one slot.
#![tactic(auto)]

mod apart;
mod chronicle;
mod held;
mod origin;
mod rule;
mod seat;
mod steps;
mod turn;
mod view;

pub use chronicle::Chronicle;
pub use held::{Held, Place};
pub use seat::Seat;
pub use turn::Turn;
pub use view::Numbered;
