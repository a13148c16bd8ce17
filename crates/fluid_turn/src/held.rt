//! The value of a turn, in hand.
ghost use Rattle.std.specs.Prelude.{◌≡◌, ◌+◌, ◌++◌, [], ◌∷◌, length};
ghost use Rattle.fluid_turn.specs.Entries.{entries};
ghost use Rattle.fluid_turn.specs.Seats.{HasNoted, noted, entered, IsOfTurn};

use crate::chronicle::Chronicle;
use crate::seat::Seat;
use crate::steps;
use crate::steps::Token;
use crate::turn::Turn;
use std::marker::{Brand, Model};
use std::snapshot::Snapshot;

/// The value of a turn, moved out of its slot, for as long as one seat has the turn. It can't be let go: it is spent by `give` or `end`.
pub struct Held<'a, T: Chronicle> {
    pub value: T,
    pub place: Place<'a, T>,
}

/// The seat that has the turn, and the turn's list.
pub struct Place<'a, T: Chronicle> {
    pub(crate) turn: &'a Turn<T>,
    pub(crate) token: Token<T>,
    pub(crate) ticket: u64,
}

impl<'a, T: Chronicle> Model for Place<'a, T> {
    ghost use Rattle.std.specs.Prelude.{◌≡◌};
    ghost use Rattle.fluid_turn.specs.Seats.{InTurn, StandsFixed};

    ghost Value = { InTurn T.Entry T.Fixed };

    ghost use Rattle.fluid_turn.specs.Seated.{in_turn_of, IsHolding};

    ghost view = { λ p. in_turn_of p.turn.now p.token.id p.token.me.0 };

    ghost invariant = { λ p. (p.token.table_id ≡ p.turn.now.id) × IsHolding (StandsFixed T.stands T.fixed p.turn.now.fixed) p.turn.now.began p.token.id p.ticket p.token.me };
}

impl<'a, T: Chronicle> Held<'a, T> {
    /// Teaches the seat the entries so far.
    pub fn note(&mut self)
        ensures value { self.new.value ≡ self.old.value }
        ensures noted { self.new.place ≡ noted self.old.place }
        ensures history { IsOfTurn T.stands T.fixed self.new.place.seat.turn self.new.place.seat.seen }
    {
        self.place.note();
    }

    /// Counts an entry by which the value has just grown.
    pub fn enter(&mut self, entry: &T::Entry)
        requires noted { HasNoted self.old.place }
        requires grown { T.stands self.old.value (entries self.old.place.list ++ entry.now ∷ []) }
        requires fixed { T.fixed self.old.value ≡ self.old.place.seat.turn.fixed }
        ensures value { self.new.value ≡ self.old.value }
        ensures entered { self.new.place ≡ entered entry.now self.old.place }
        ensures list { entries self.new.place.list ≡ entries self.old.place.list ++ entry.now ∷ [] }
    {
        let count = self.value.entered();
        self.place.enter(entry, count);
    }

    /// Passes the turn on, with the value as it is.
    pub fn give(self) -> Seat<T>
        requires stands { T.stands self.value (entries self.place.list) }
        requires fixed { T.fixed self.value ≡ self.place.seat.turn.fixed }
        ensures { result ≡ self.entry.place.seat }
    {
        let Held { value, place } = self;
        place.give(value)
    }

    /// Ends the turn: the value comes back, and the turn is not passed on.
    pub fn end(self) -> T
        ensures { result ≡ self.entry.value }
    {
        let Held { value, place } = self;
        let Place {
            turn: _,
            token: _,
            ticket: _,
        } = place;
        value
    }
}

impl<'a, T: Chronicle> Place<'a, T> {
    fn note(&mut self)
        ensures noted { self.new ≡ noted self.old }
        ensures history { IsOfTurn T.stands T.fixed self.new.seat.turn self.new.seat.seen }
    {
        let turn = self.turn;
        steps::note::<T, Brand>(&turn.table.shared, &mut self.token);
    }

    // The new count is one more than the old one.
    fn enter(&mut self, entry: &T::Entry, count: u64)
        requires noted { HasNoted self.old }
        requires counted { count ≡ length self.old.list + 1 }
        requires grown { (x : T) × T.stands x (entries self.old.list ++ entry.now ∷ []) × (T.fixed x ≡ self.old.seat.turn.fixed) }
        ensures { self.new ≡ entered entry.now self.old }
    {
        let turn = self.turn;
        steps::enter::<T, Brand>(&turn.table.shared, &mut self.token, entry, count);
    }

    fn give(self, value: T) -> Seat<T>
        requires stands { T.stands value (entries self.list) }
        requires fixed { T.fixed value ≡ self.seat.turn.fixed }
        ensures { result ≡ self.entry.seat }
    {
        let Place {
            turn,
            mut token,
            ticket,
        } = self;
        let words = &turn.table.shared;
        let empty = words.exchange(&mut token, 0, Some(value));
        let None = empty else { unreachable!() };
        steps::pass_on(words, &mut token, ticket);
        Seat {
            token,
            turn: Snapshot::of(turn),
        }
    }
}
