//! What the threads do.
ghost use Rattle.std.specs.Prelude.{◌≡◌};

use fluid_turn::{Chronicle, Turn};
use std::alloc::Global;
use std::sync::Wait;
use std::thread;
use std::thread::Threads;

// A value that counts its passes and is worked on. Nothing is entered.
#[derive(Drop)]
pub(crate) struct Worked {
    passes: u64,
    state: u64,
}

impl Chronicle for Worked {
    ghost use Rattle.std.specs.Prelude.{◌≡◌, []};

    type Entry = u64;

    type Fixed = ();

    ghost stands = { λ _ l. l ≡ [] };

    ghost fixed = { λ _. tt };

    fn entered(&self) -> u64 {
        0
    }
}

impl Worked {
    fn work(&mut self, rounds: u64) {
        self.passes = self.passes.wrapping_add(1);
        for _ in 0..rounds {
            self.state = (self.state ^ (self.state >> 29)).wrapping_mul(6_364_136_223_846_793_005);
        }
    }
}

// Takes the turn so often, and works under it each time.
fn pass<R: Wait>(rt: &R, turn: &Turn<Worked>, passes: u64, rounds: u64) {
    let mut seat = turn.seat();
    for _ in 0..passes {
        let mut held = turn.take(rt, seat);
        held.value.work(rounds);
        seat = held.give();
    }
}

// Lets so many threads pass the turn, and answers how many passes the value has seen.
pub(crate) fn pass_all<R: Threads + Wait + Sync>(
    rt: &R,
    alloc: Global,
    threads: u64,
    passes: u64,
    rounds: u64,
) -> Option<u64> {
    let value = Worked {
        passes: 0,
        state: 1,
    };
    let (turn, seat) = Turn::new(alloc, value).ok()?;
    if !start_all(rt, &turn, threads, passes, rounds) {
        return None;
    }
    let Worked { passes, state: _ } = turn.take(rt, seat).end();
    Some(passes)
}

// Whether all threads were started. All have ended then.
fn start_all<R: Threads + Wait + Sync>(
    rt: &R,
    turn: &Turn<Worked>,
    threads: u64,
    passes: u64,
    rounds: u64,
) -> bool {
    thread::scope(thread::scope_env(), rt, move |scope| {
        for _ in 0..threads {
            if scope.spawn(move || pass(rt, turn, passes, rounds)).is_err() {
                return false;
            }
        }
        true
    })
}
