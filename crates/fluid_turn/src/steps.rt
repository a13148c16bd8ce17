//! The steps of a turn, one function each, on the table that keeps its rule.
ghost use Rattle.std.specs.Prelude.{◌≡◌, ◌≢◌, ◌+◌, ◌<◌, ◌%◌, ℕ, Some, [], ◌∷◌, ◌++◌, length, IfSome};
ghost use Rattle.fluid_turn.specs.declared.view.Stage.TheVariants.{Idle, Waiting, Holding};
ghost use Rattle.fluid_turn.specs.Entries.{entries, made_by};
ghost use Rattle.fluid_turn.specs.Seats.{StandsFixed};
ghost use Rattle.fluid_turn.specs.Rule.{IsTurnTable, IsAtTable};
ghost use Rattle.fluid_turn.specs.Steps.{opening_view, newcomer, waiting, drawing, idle, adding, told_of, HasValue, HasNews, HasArrived, HasBegun, Follows};

use crate::apart::apart;
use crate::chronicle::Chronicle;
use crate::origin::Origin;
use crate::rule::{
    Arrive, Begin, Cut, Draw, Enter, Look, Note, PassOn, Picks, Recall, Ring, Tell, TurnRule,
};
use crate::view::View;
use atomic_table::{Seat, Shared};
use std::hint::spin_loop;
use std::marker::Brand;
use std::sync::Wait;

// The words: how many tickets were drawn, which one is served, how many entries the list has, whether somebody sleeps who
// has no ticket yet, the bell on which those sleep, and the bays, on which those sleep who wait with a ticket.
pub(crate) const TICKET: usize = 0;

pub(crate) const SERVING: usize = 1;

pub(crate) const COUNT: usize = 2;

const ASLEEP: usize = 3;

const BELL: usize = 4;

const BAYS: usize = 5;

const BAY_COUNT: u64 = 64;

pub(crate) const WORDS: usize = 69;

// How often a waiter looks before it sleeps while nobody else sleeps, some seven microseconds: no longer than it takes until one that
// was woken runs.
const LOOKS: u64 = 1000;

// How often it looks where others sleep.
const FEW_LOOKS: u64 = 20;

// How often one sleeps before it draws a ticket that isn't served yet.
const SLEEPS: u64 = 16;

// Of so many passes one wakes who sleeps without a ticket, also where the next ticket was drawn.
const ROUSES: u64 = 64;

pub(crate) type Token<T> = Seat<Option<T>, View<<T as Chronicle>::Entry>>;

pub(crate) type Words<T> = Shared<
    Option<T>,
    View<<T as Chronicle>::Entry>,
    Origin<<T as Chronicle>::Entry, <T as Chronicle>::Fixed>,
    TurnRule<T>,
>;

// Draws a ticket: at first only one that is served at once, since nobody has the turn or waits for it. So who runs has the
// turn before those who sleep, and nobody need be woken first. Who has slept so often draws the next one and waits for it, so
// that all have their turn. With no ticket left it doesn't return.
pub(crate) fn draw<T: Chronicle, R: Wait>(rt: &R, words: &Words<T>, token: &mut Token<T>) -> u64
    requires turn { IsAtTable words.now.table_id token.old.table_id }
    requires idle { token.old.me.0.stage ≡ Idle }
    ensures same { (token.new.table_id ≡ token.old.table_id) × (token.new.id ≡ token.old.id) }
    ensures drawn { token.new.me ≡ (waiting result token.old.me.0, token.old.me.1) }
    ensures below { result < u64.MAX }
{
    if let Some(ticket) = draw_watching(words, token) {
        return ticket;
    }
    for _ in 0..SLEEPS {
        if let Some(ticket) = draw_sleeping(rt, words, token) {
            // Others may sleep on: whoever passes on next is to wake one of them.
            words.store::<Ring>(token, ASLEEP, 1);
            return ticket;
        }
    }
    words.store::<Ring>(token, ASLEEP, 1);
    draw_next(rt, words, token)
}

// Draws the next ticket where it is served at once.
fn draw_free<T: Chronicle>(words: &Words<T>, token: &mut Token<T>) -> Option<u64>
    requires turn { IsAtTable words.now.table_id token.old.table_id }
    requires idle { token.old.me.0.stage ≡ Idle }
    ensures same { (token.new.table_id ≡ token.old.table_id) × (token.new.id ≡ token.old.id) }
    ensures drawn { token.new.me ≡ drawing result token.old.me }
    ensures below { IfSome result (λ ticket. ticket < u64.MAX) }
{
    let next = words.peek(TICKET);
    if words.peek(SERVING) != next || next == u64::MAX {
        return None;
    }
    let found = words.compare_exchange::<Draw>(token, TICKET, next, next + 1);
    if found == next { Some(next) } else { None }
}

// Looks for a ticket that is served at once, and only a few times where others sleep.
fn draw_watching<T: Chronicle>(words: &Words<T>, token: &mut Token<T>) -> Option<u64>
    requires turn { IsAtTable words.now.table_id token.old.table_id }
    requires idle { token.old.me.0.stage ≡ Idle }
    ensures same { (token.new.table_id ≡ token.old.table_id) × (token.new.id ≡ token.old.id) }
    ensures drawn { token.new.me ≡ drawing result token.old.me }
    ensures below { IfSome result (λ ticket. ticket < u64.MAX) }
{
    for looks in 0..LOOKS {
        if let Some(ticket) = draw_free(words, token) {
            return Some(ticket);
        }
        if looks >= FEW_LOOKS && words.peek(ASLEEP) != 0 {
            return None;
        }
        spin_loop();
    }
    None
}

// Sleeps until somebody passes on, and looks again.
fn draw_sleeping<T: Chronicle, R: Wait>(
    rt: &R,
    words: &Words<T>,
    token: &mut Token<T>,
) -> Option<u64>
    requires turn { IsAtTable words.now.table_id token.old.table_id }
    requires idle { token.old.me.0.stage ≡ Idle }
    ensures same { (token.new.table_id ≡ token.old.table_id) × (token.new.id ≡ token.old.id) }
    ensures drawn { token.new.me ≡ drawing result token.old.me }
    ensures below { IfSome result (λ ticket. ticket < u64.MAX) }
{
    let bell = words.peek(BELL);
    words.store::<Ring>(token, ASLEEP, 1);
    if let Some(ticket) = draw_free(words, token) {
        return Some(ticket);
    }
    words.park(rt, BELL, (bell % (1 << 32)) as u32);
    draw_watching(words, token)
}

// Draws the next ticket, whether it is served yet or not.
fn draw_next<T: Chronicle, R: Wait>(rt: &R, words: &Words<T>, token: &mut Token<T>) -> u64
    requires turn { IsAtTable words.now.table_id token.old.table_id }
    requires idle { token.old.me.0.stage ≡ Idle }
    ensures same { (token.new.table_id ≡ token.old.table_id) × (token.new.id ≡ token.old.id) }
    ensures drawn { token.new.me ≡ (waiting result token.old.me.0, token.old.me.1) }
    ensures below { result < u64.MAX }
{
    for _ in rt.forever() {
        let next = words.peek(TICKET);
        if next < u64::MAX {
            let found = words.compare_exchange::<Draw>(token, TICKET, next, next + 1);
            if found == next {
                return next;
            }
        }
    }
    unreachable!()
}

// The bay of those who wait with this ticket.
fn bay_of(ticket: u64) -> usize
    ensures below { result < WORDS }
    ensures behind { COUNT < result }
{
    BAYS + (ticket % BAY_COUNT) as usize
}

// Looks once whether the ticket is served. Where it is, the value is out with the token.
fn look<T: Chronicle, W: Picks<T, T::Entry>>(
    words: &Words<T>,
    token: &mut Token<T>,
    ticket: u64,
) -> u64
    requires turn { IsAtTable words.now.table_id token.old.table_id }
    requires tells { Follows (StandsFixed T.stands T.fixed words.now.key.fixed) W.tells }
    requires waits { (token.old.me.0.stage ≡ Waiting ticket) × (token.old.me.1 ≡ []) }
    ensures same { (token.new.table_id ≡ token.old.table_id) × (token.new.id ≡ token.old.id) }
    ensures served { result ≡ ticket → HasValue W.tells ticket token.old.me.0 token.new.me }
    ensures other { result ≢ ticket → token.new.me ≡ token.old.me }
{
    words.load::<Look<W>>(token, SERVING)
}

// Looks a few times whether the ticket is served.
fn watch<T: Chronicle>(words: &Words<T>, ticket: u64) -> bool
    requires { IsTurnTable words.now.table_id }
{
    for _ in 0..FEW_LOOKS {
        if words.peek(SERVING) == ticket {
            return true;
        }
        spin_loop();
    }
    false
}

// Wakes who sleeps in the bay of this ticket.
fn ring<T: Chronicle>(words: &Words<T>, token: &mut Token<T>, ticket: u64)
    requires turn { IsAtTable words.now.table_id token.old.table_id }
    ensures same { (token.new.table_id ≡ token.old.table_id) × (token.new.id ≡ token.old.id) }
    ensures view { token.new.me ≡ token.old.me }
{
    let bay = bay_of(ticket);
    words.fetch_add::<Ring>(token, bay, 1);
    words.wake_all(bay);
}

// Waits until the ticket is served.
pub(crate) fn wait<T: Chronicle, W: Picks<T, T::Entry>, R: Wait>(
    rt: &R,
    words: &Words<T>,
    token: &mut Token<T>,
    ticket: u64,
)
    requires turn { IsAtTable words.now.table_id token.old.table_id }
    requires tells { Follows (StandsFixed T.stands T.fixed words.now.key.fixed) W.tells }
    requires waits { (token.old.me.0.stage ≡ Waiting ticket) × (token.old.me.1 ≡ []) }
    ensures same { (token.new.table_id ≡ token.old.table_id) × (token.new.id ≡ token.old.id) }
    ensures served { HasValue W.tells ticket token.old.me.0 token.new.me }
{
    let bay = bay_of(ticket);
    let _served = watch(words, ticket);
    for _ in rt.forever() {
        let bell = words.peek(bay);
        let serving = look::<T, W>(words, token, ticket);
        if serving == ticket {
            return;
        }
        words.park(rt, bay, (bell % (1 << 32)) as u32);
    }
    unreachable!()
}

// Notes the entries so far.
pub(crate) fn note<T: Chronicle, W: Picks<T, T::Entry>>(words: &Words<T>, token: &mut Token<T>)
    requires turn { IsAtTable words.now.table_id token.old.table_id }
    requires seat { W.number ≡ token.old.id }
    requires began { W.began ≡ words.now.key.began }
    requires tells { Follows (StandsFixed T.stands T.fixed words.now.key.fixed) W.tells }
    ensures same { (token.new.table_id ≡ token.old.table_id) × (token.new.id ≡ token.old.id) }
    ensures noted { HasNews W.tells W.began token.old.id token.old.me token.new.me }
{
    words.load::<Note<W>>(token, COUNT);
}

// Counts the entry by which the value has just grown. The entry itself is for the proof alone.
pub(crate) fn enter<T: Chronicle, W: Picks<T, T::Entry>>(
    words: &Words<T>,
    token: &mut Token<T>,
    entry: &T::Entry,
    count: u64,
)
    requires turn { IsAtTable words.now.table_id token.old.table_id }
    requires seat { (W.number ≡ token.old.id) × (W.entry ≡ entry.now ∷ []) }
    requires holds { (t : ℕ) × (token.old.me.0.stage ≡ Holding t) }
    requires counted { count ≡ length token.old.me.0.all + 1 }
    requires stood { (x : T) × StandsFixed T.stands T.fixed words.now.key.fixed x (entries token.old.me.0.all ++ entry.now ∷ []) }
    ensures same { (token.new.table_id ≡ token.old.table_id) × (token.new.id ≡ token.old.id) }
    ensures entered { token.new.me ≡ (adding token.old.id (entry.now ∷ []) token.old.me.0, token.old.me.1) }
{
    let _ = entry;
    words.store::<Enter<W>>(token, COUNT, count);
}

// Serves the next ticket, with the value at home again, and wakes who sleeps with it, or where nobody has drawn it one of those
// who sleep without a ticket.
//
// No wake is lost, since all steps on the words stand in one total order (each is `SeqCst`). Who waits with a ticket reads
// the number of its bay, looks which ticket is served, and sleeps only while the bay has that number. Who passes on stores
// the ticket, adds one to the ticket's bay and wakes who sleeps there. Where the waiter's look didn't see the ticket, it
// stands before that store, and its reading of the bay too, so that the bay has another number behind the addition: a
// waiter that slept before it is woken, and one that was about to sleep doesn't. While one ticket waits its bay grows
// at most once for each ticket before it, by fewer than 2^32, so that the low 32 bits, by which one sleeps, differ too.
// Those of one bay are woken together, and sleep again. Who draws a ticket behind the look at the tickets finds it served,
// so that nobody need be woken where none was drawn.
//
// Who sleeps without a ticket reads the bell, says that somebody sleeps, looks, and sleeps only while the bell has that
// number (its low 32 bits: others would have to ring it 2^32 times between the two). Whoever has the turn at that look passes
// on behind it. The last one that passes on before nobody has the turn finds that no ticket is drawn and that somebody sleeps,
// or it was found in between: whoever found it rang the bell, so that this one doesn't fall asleep, or woke one. Who is woken
// says anew that somebody sleeps, before its own turn ends or before it sleeps again: so as long as somebody sleeps, that is
// said, or one is awake who will say it. Who draws between the two looks of one that passes on hides the sleepers from it: so
// now and then one of them is woken all the same.
pub(crate) fn pass_on<T: Chronicle>(words: &Words<T>, token: &mut Token<T>, ticket: u64)
    requires turn { IsAtTable words.now.table_id token.old.table_id }
    requires holds { (token.old.me.0.stage ≡ Holding ticket) × (ticket < u64.MAX) }
    requires stands { (x : T) × (token.old.me.1 ≡ (0, Some x) ∷ [])
        × StandsFixed T.stands T.fixed words.now.key.fixed x (entries token.old.me.0.all) }
    ensures same { (token.new.table_id ≡ token.old.table_id) × (token.new.id ≡ token.old.id) }
    ensures passed { token.new.me ≡ (idle token.old.me.0, []) }
{
    let next = ticket + 1;
    words.store::<PassOn>(token, SERVING, next);
    let is_drawn = words.peek(TICKET) != next;
    if is_drawn {
        ring(words, token, next);
    }
    if (!is_drawn || next % ROUSES == 0) && words.peek(ASLEEP) != 0 {
        rouse(words, token);
    }
}

// Wakes one of those who sleep without a ticket.
fn rouse<T: Chronicle>(words: &Words<T>, token: &mut Token<T>)
    requires turn { IsAtTable words.now.table_id token.old.table_id }
    ensures same { (token.new.table_id ≡ token.old.table_id) × (token.new.id ≡ token.old.id) }
    ensures view { token.new.me ≡ token.old.me }
{
    words.store::<Ring>(token, ASLEEP, 0);
    words.fetch_add::<Ring>(token, BELL, 1);
    words.wake_one(BELL);
}

// Recalls which entries are the seat's own.
fn recall<T: Chronicle, W: Picks<T, T::Entry>>(words: &Words<T>, token: &mut Token<T>)
    requires turn { IsAtTable words.now.table_id token.old.table_id }
    requires seat { W.number ≡ token.old.id }
    ensures same { (token.new.table_id ≡ token.old.table_id) × (token.new.id ≡ token.old.id) }
    ensures view { token.new.me ≡ token.old.me }
    ensures own { token.new.me.0.mine ≡ made_by token.new.id token.new.me.0.seen }
{
    words.load::<Recall<W>>(token, TICKET);
}

// A second seat that has seen as much, with no entries of its own.
pub(crate) fn fork<T: Chronicle>(words: &Words<T>, token: &mut Token<T>) -> Token<T>
    requires turn { IsAtTable words.now.table_id token.old.table_id }
    ensures same { (token.new.table_id ≡ token.old.table_id) × (token.new.id ≡ token.old.id) }
    ensures view { token.new.me ≡ token.old.me }
    ensures second { (result.table_id ≡ token.old.table_id) × (result.me ≡ (newcomer token.old.me.0.seen, [])) }
    ensures own { made_by result.id token.old.me.0.seen ≡ [] }
    ensures apart { result.id ≢ token.old.id }
{
    let mut second = words.split_seat::<Cut>(token);
    apart(token, &mut second);
    recall::<T, Brand>(words, &mut second);
    second
}

// Tells a seat what another has seen. The other ends.
pub(crate) fn tell<T: Chronicle>(words: &Words<T>, token: &mut Token<T>, other: Token<T>)
    requires turn { IsAtTable words.now.table_id token.old.table_id × (other.table_id ≡ words.now.table_id) }
    requires bare { (other.me.0.stage ≡ Idle) × (other.me.0.mine ≡ []) × (other.me.1 ≡ []) }
    ensures same { (token.new.table_id ≡ token.old.table_id) × (token.new.id ≡ token.old.id) }
    ensures told { token.new.me ≡ (told_of token.old.me.0 other.me.0, token.old.me.1) }
{
    words.join_seat::<Tell>(token, other);
}

// A new seat that has seen the entries so far.
pub(crate) fn arrive<T: Chronicle, W: Picks<T, T::Entry>>(words: &Words<T>) -> Token<T>
    requires turn { IsTurnTable words.now.table_id }
    requires began { W.began ≡ words.now.key.began }
    requires tells { Follows (StandsFixed T.stands T.fixed words.now.key.fixed) W.tells }
    ensures seat { (result.table_id ≡ words.now.table_id) × HasArrived W.tells W.began result.me }
    ensures own { made_by result.id result.me.0.seen ≡ [] }
{
    let (_, mut token) = words.load_new_seat::<Arrive<W>>(COUNT);
    recall::<T, Brand>(words, &mut token);
    token
}

// Begins the turn. The token holds the empty slot of the value.
pub(crate) fn begin<T: Chronicle, W: Picks<T, T::Entry>>(words: &Words<T>, token: &mut Token<T>)
    requires turn { IsAtTable words.now.table_id token.old.table_id }
    requires began { W.began ≡ words.now.key.began }
    requires opens { token.old.me ≡ (opening_view, []) }
    ensures same { (token.new.table_id ≡ token.old.table_id) × (token.new.id ≡ token.old.id) }
    ensures began { HasBegun W.began token.new.me }
{
    words.load::<Begin<W>>(token, COUNT);
}
