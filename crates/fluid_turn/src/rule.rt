//! The rule of a turn's table, and the steps that keep it.
ghost use Rattle.std.specs.Prelude.{ℕ, List, []};
ghost use Rattle.fluid_turn.specs.Seats.{StandsFixed};
ghost use Rattle.fluid_turn.specs.Rule.{Kept};
ghost use Rattle.fluid_turn.specs.Steps.{opening_view, newcomer, told_of, drew, looked, noticed, added, passed, rang, recalled, arrived, started};

use crate::chronicle::Chronicle;
use crate::origin::Origin;
use crate::view::View;
use atomic_table::{Join, Play, Split, TableRule};
use std::marker::{Brand, PhantomData};

pub struct TurnRule<T> {
    marker: PhantomData<T>,
}

// The table is told what the turn began with.
impl<T: Chronicle> TableRule<Option<T>, View<T::Entry>, Origin<T::Entry, T::Fixed>>
    for TurnRule<T> {
    ghost holds = { λ key. Kept (StandsFixed T.stands T.fixed key.fixed) key.began };

    ghost first = { λ _. opening_view };
}

// What a step speaks of beside the table: the number of the seat that makes it, the entry that it enters, the list with
// which the turn began, and what is told of a value and its list. The proof of each call picks them.
pub trait Picks<T, E> {
    ghost number: { ℕ };

    ghost entry: { List E };

    ghost began: { List E };

    ghost tells: { T → List E → Type 0 };
}

impl<T, E> Picks<T, E> for Brand {
    ghost number = { 0 };

    ghost entry = { [] };

    ghost began = { [] };

    ghost tells = { λ _ _. Unit {0} };
}

// Draws a ticket.
pub(crate) struct Draw;

impl<T: Chronicle> Play<Option<T>, View<T::Entry>> for Draw {
    ghost then = { drew };
}

// Looks which ticket is served.
pub(crate) struct Look<W> {
    marker: PhantomData<W>,
}

impl<T: Chronicle, W: Picks<T, T::Entry>> Play<Option<T>, View<T::Entry>> for Look<W> {
    ghost then = { looked W.tells };
}

// Notes the entries so far.
pub(crate) struct Note<W> {
    marker: PhantomData<W>,
}

impl<T: Chronicle, W: Picks<T, T::Entry>> Play<Option<T>, View<T::Entry>> for Note<W> {
    ghost then = { noticed W.tells W.began W.number };
}

// Counts an entry.
pub(crate) struct Enter<W> {
    marker: PhantomData<W>,
}

impl<T: Chronicle, W: Picks<T, T::Entry>> Play<Option<T>, View<T::Entry>> for Enter<W> {
    ghost then = { added W.number W.entry };
}

// Serves the next ticket.
pub(crate) struct PassOn;

impl<T: Chronicle> Play<Option<T>, View<T::Entry>> for PassOn {
    ghost then = { passed };
}

// Changes a bay.
pub(crate) struct Ring;

impl<T: Chronicle> Play<Option<T>, View<T::Entry>> for Ring {
    ghost then = { rang };
}

// Recalls which entries are the seat's own.
pub(crate) struct Recall<W> {
    marker: PhantomData<W>,
}

impl<T: Chronicle, W: Picks<T, T::Entry>> Play<Option<T>, View<T::Entry>> for Recall<W> {
    ghost then = { recalled W.number };
}

// Takes a new seat.
pub(crate) struct Arrive<W> {
    marker: PhantomData<W>,
}

impl<T: Chronicle, W: Picks<T, T::Entry>> Play<Option<T>, View<T::Entry>> for Arrive<W> {
    ghost then = { arrived W.tells W.began };
}

// Begins the turn.
pub(crate) struct Begin<W> {
    marker: PhantomData<W>,
}

impl<T: Chronicle, W: Picks<T, T::Entry>> Play<Option<T>, View<T::Entry>> for Begin<W> {
    ghost then = { started W.began };
}

// Cuts a seat in two: the second has seen as much, and has no entries of its own.
pub(crate) struct Cut;

impl<E> Split<View<E>> for Cut {
    ghost left = { λ v. v };

    ghost right = { λ v. newcomer v.seen };
}

// Tells a seat what another has seen, and ends that one.
pub(crate) struct Tell;

impl<E> Join<View<E>> for Tell {
    ghost both = { told_of };

    ghost spent = { newcomer [] };
}
