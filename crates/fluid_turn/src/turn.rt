//! The lock.
ghost use Rattle.std.specs.Prelude.{◌≡◌, ◌≢◌, List, [], IfOk, IfErr};
ghost use Rattle.fluid_turn.specs.Entries.{of_nobody, entries, IsPrefix};
ghost use Rattle.fluid_turn.specs.Seats.{seeing, IsNew, SeesMore, IsOfTurn, StandsFixed};
ghost use Rattle.fluid_turn.specs.Seated.{IsSeated};
ghost use Rattle.fluid_turn.specs.Rule.{IsAtTable};
ghost use Rattle.fluid_turn.specs.Steps.{opening_view, newcomer};

use crate::chronicle::Chronicle;
use crate::held::{Held, Place};
use crate::origin::{Origin, origin_of};
use crate::rule::TurnRule;
use crate::seat::Seat;
use crate::steps;
use crate::steps::{COUNT, TICKET, Token, WORDS, Words};
use crate::view::View;
use atomic_table::Table;
use fluid_json::NoMemory;
use std::alloc::Global;
use std::marker::{Brand, Model};
use std::snapshot::Snapshot;
use std::sync::Wait;

/// A value that its users take in turn: who runs before those who sleep, and who has slept often in the order of its tickets. Each of
/// them has a seat, which knows how the list of entries began that the value stands for.
#[derive(Drop)]
pub struct Turn<T: Chronicle> {
    pub(crate) table: Table<
        Option<T>,
        View<T::Entry>,
        Origin<T::Entry, T::Fixed>,
        TurnRule<T>,
        Global,
    >,
}

impl<T: Chronicle> Model for Turn<T> {
    ghost use Rattle.fluid_turn.specs.Seats.{Turning};

    ghost Value = { Turning T.Entry T.Fixed };

    ghost use Rattle.fluid_turn.specs.Rule.{IsTurnTable};

    ghost view = { λ t. record { id = t.table.shared.table_id; began = t.table.shared.key.began; fixed = t.table.shared.key.fixed } };

    ghost invariant = { λ t. IsTurnTable t.table.shared.table_id };
}

impl<T: Chronicle> Turn<T> {
    /// A turn of this value, and its first seat, which has seen the list with which the turn begins: one for which the value
    /// stands. With no memory the value comes back.
    pub fn new(alloc: Global, value: T) -> Result<(Turn<T>, Seat<T>), (T, NoMemory)>
        requires { (l : List T.Entry) × T.stands value l }
        ensures turn { IfOk result (λ t. T.stands value t.0.began × (t.0.fixed ≡ T.fixed value)) }
        ensures seat { IfOk result (λ t. (t.1.turn ≡ t.0) × IsNew (of_nobody t.0.began) t.1) }
        ensures err { IfErr result (λ e. e.0 ≡ value) }
    {
        let origin = origin_of(&value);
        let mut words = [0; WORDS];
        words[TICKET] = 1;
        words[COUNT] = value.entered();
        match Table::vacant(alloc, &words, 1, &origin) {
            Ok((table, token)) => {
                let token = begin(&table.shared, token, value);
                let turn = Turn { table };
                let seat = Seat {
                    token,
                    turn: Snapshot::of(&turn),
                };
                Ok((turn, seat))
            }
            Err(_) => Err((value, NoMemory)),
        }
    }

    /// How many entries the list had at some moment of this call. It takes no turn, and no clause rests on it: who has nothing
    /// to do but to see new entries may look at it first.
    pub fn hint(&self) -> u64 {
        self.table.shared.peek(COUNT)
    }

    /// Waits until the turn comes to this seat. With no ticket of 64 bits left it doesn't return.
    pub fn take<R: Wait>(&self, rt: &R, seat: Seat<T>) -> Held<'_, T>
        requires { seat.turn ≡ self.now }
        ensures seat { result.place.seat ≡ seat }
        ensures list { IsPrefix seat.seen result.place.list }
        ensures stands { T.stands result.value (entries result.place.list) }
        ensures fixed { T.fixed result.value ≡ self.now.fixed }
    {
        let mut token = seat.into_token();
        let words = &self.table.shared;
        let ticket = steps::draw(rt, words, &mut token);
        steps::wait::<T, Brand, R>(rt, words, &mut token, ticket);
        let Some(value) = words.exchange(&mut token, 0, None) else {
            unreachable!()
        };
        Held {
            value,
            place: Place {
                turn: self,
                token,
                ticket,
            },
        }
    }

    /// `take`, and then a note.
    pub fn take_noted<R: Wait>(&self, rt: &R, seat: Seat<T>) -> Held<'_, T>
        requires { seat.turn ≡ self.now }
        ensures seat { result.place.seat ≡ seeing result.place.list seat }
        ensures list { IsPrefix seat.seen result.place.list }
        ensures stands { T.stands result.value (entries result.place.list) }
        ensures fixed { T.fixed result.value ≡ self.now.fixed }
    {
        let mut held = self.take(rt, seat);
        held.note();
        held
    }

    /// A second seat that knows as much, with no entries of its own.
    pub fn fork(&self, seat: &mut Seat<T>) -> Seat<T>
        requires { seat.old.turn ≡ self.now }
        ensures same { seat.new ≡ seat.old }
        ensures second { (result.turn ≡ self.now) × IsNew seat.old.seen result }
        ensures apart { result.number ≢ seat.old.number }
    {
        Seat {
            token: steps::fork(&self.table.shared, &mut seat.token),
            turn: Snapshot::of(self),
        }
    }

    /// Two seats, which both know what the one knew. The first has its entries, the second none.
    pub fn split(&self, mut seat: Seat<T>) -> (Seat<T>, Seat<T>)
        requires { seat.turn ≡ self.now }
        ensures first { result.0 ≡ seat }
        ensures second { (result.1.turn ≡ self.now) × IsNew seat.seen result.1 }
        ensures apart { result.1.number ≢ result.0.number }
    {
        let second = self.fork(&mut seat);
        (seat, second)
    }

    /// Tells each of two seats what the other has seen.
    pub fn meet(&self, mut first: Seat<T>, mut second: Seat<T>) -> (Seat<T>, Seat<T>)
        requires { (first.turn ≡ self.now) × (second.turn ≡ self.now) }
        ensures first { SeesMore first result.0 × IsPrefix second.seen result.0.seen }
        ensures second { SeesMore second result.1 × IsPrefix first.seen result.1.seen }
        ensures history { IsOfTurn T.stands T.fixed self.now result.0.seen × IsOfTurn T.stands T.fixed self.now result.1.seen }
        ensures apart { result.1.number ≢ result.0.number }
    {
        first.apart(&mut second);
        let of_first = self.fork(&mut first);
        let of_second = self.fork(&mut second);
        self.tell(&mut first, of_second);
        self.tell(&mut second, of_first);
        first.know();
        second.know();
        (first, second)
    }

    // Tells a seat what another has seen, which has no entries and ends.
    fn tell(&self, seat: &mut Seat<T>, other: Seat<T>)
        requires turn { (seat.old.turn ≡ self.now) × (other.turn ≡ self.now) }
        requires bare { other.mine ≡ [] }
        ensures { SeesMore seat.old seat.new × IsPrefix other.seen seat.new.seen }
    {
        let words = &self.table.shared;
        steps::tell(words, &mut seat.token, other.into_token());
        steps::note::<T, Brand>(words, &mut seat.token);
    }

    /// A new seat of this turn, which has no entries of its own. What it has seen is a list that the turn had once; its first
    /// `note` shows it all entries.
    pub fn seat(&self) -> Seat<T>
        ensures { (result.turn ≡ self.now) × (result.mine ≡ []) }
    {
        Seat {
            token: steps::arrive::<T, Brand>(&self.table.shared),
            turn: Snapshot::of(self),
        }
    }
}

// Puts the first value into its slot.
fn begin<T: Chronicle>(words: &Words<T>, mut token: Token<T>, value: T) -> Token<T>
    requires turn { IsAtTable words.now.table_id token.table_id }
    requires first { StandsFixed T.stands T.fixed words.now.key.fixed value words.now.key.began }
    requires opens { token.me ≡ (opening_view, []) }
    ensures turn { result.table_id ≡ words.now.table_id }
    ensures seated { IsSeated (StandsFixed T.stands T.fixed words.now.key.fixed) words.now.key.began result.id result.me }
    ensures view { result.me ≡ (newcomer (of_nobody words.now.key.began), []) }
{
    steps::begin::<T, Brand>(words, &mut token);
    let empty = words.exchange(&mut token, 0, Some(value));
    let None = empty else { unreachable!() };
    steps::pass_on(words, &mut token, 0);
    token
}
