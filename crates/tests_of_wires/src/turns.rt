ghost use Rattle.std.specs.Prelude.{◌≡◌, ◌+◌, ◌^◌, ◌<◌, [], ◌∷◌, ◌++◌, IfOk};

use fluid_json::{NoMemory, Text};
use fluid_turn::{Chronicle, Seat, Turn};
use std::alloc::Global;
use std::sync::Wait;
use std::test::Fail;
use std::thread;
use std::thread::Threads;

// How many threads take the turn, and how many numbers each enters.
const THREADS: u64 = 64;

const EACH: u64 = 2000;

// Numbers in the order in which they were entered.
#[derive(Drop)]
struct Numbers {
    all: Vec<u64>,
}

impl Chronicle for Numbers {
    ghost use Rattle.std.specs.Prelude.{◌≡◌};

    type Entry = u64;

    type Fixed = ();

    ghost stands = { λ numbers l. numbers.all.items ≡ l };

    ghost fixed = { λ _. tt };

    fn entered(&self) -> u64 {
        self.all.len() as u64
    }
}

// Enters the numbers from `first` on, each in a turn of its own. Where memory lacks it stops.
fn enter_all<R: Wait>(rt: &R, turn: &Turn<Numbers>, first: u64)
    requires { first + EACH < 2 ^ 64 }
{
    let mut seat = turn.seat();
    for number in first..first + EACH {
        let mut held = turn.take_noted(rt, seat);
        if held.value.all.push(number).is_err() {
            drop(held.give());
            return;
        }
        held.enter(&number);
        seat = held.give();
    }
}

// Whether all threads were started. All have ended then.
fn enter_in_threads<R: Threads + Wait + Sync>(rt: &R, turn: &Turn<Numbers>) -> bool {
    thread::scope(thread::scope_env(), rt, move |scope| {
        for caller in 0..THREADS {
            if scope
                .spawn(move || enter_all(rt, turn, caller * EACH))
                .is_err()
            {
                return false;
            }
        }
        true
    })
}

// Whether these are the numbers of one caller, each once and in order.
fn are_of(all: &[u64], caller: u64) -> bool
    requires { caller < THREADS }
{
    all.iter()
        .copied()
        .filter(|&number| number / EACH == caller)
        .eq(caller * EACH..caller * EACH + EACH)
}

fn no_numbers(alloc: Global) -> Numbers {
    Numbers {
        all: Vec::new(alloc),
    }
}

#[test]
fn threads_enter_side_by_side(rt: HostRuntime) -> Result<(), Fail> {
    let Ok((turn, first)) = Turn::new(rt.alloc(), no_numbers(rt.alloc())) else {
        panic!(rt; "no memory")
    };
    assert!(rt; enter_in_threads(&rt, &turn), "no thread");
    assert!(rt; turn.hint() == THREADS * EACH, "as many entries");
    let all = turn.take(&rt, first).end().all;
    assert!(rt; all.len() as u64 == THREADS * EACH, "as many numbers");
    for caller in 0..THREADS {
        assert!(rt; are_of(all.as_slice(), caller), "caller {caller}");
    }
    Ok(())
}

// A line of a notebook.
#[derive(Drop)]
struct Line {
    page: u32,
    text: Text,
}

// Lines in the order in which they were written.
#[derive(Drop)]
struct Notebook {
    lines: Vec<Line>,
}

impl Chronicle for Notebook {
    ghost use Rattle.std.specs.Prelude.{◌≡◌};

    type Entry = Line;

    type Fixed = ();

    ghost stands = { λ notebook l. notebook.lines.items ≡ l };

    ghost fixed = { λ _. tt };

    fn entered(&self) -> u64 {
        self.lines.len() as u64
    }
}

// Writes a line. The entry that is counted and the line that is kept are two equal ones.
fn write<R: Wait>(
    rt: &R,
    alloc: Global,
    turn: &Turn<Notebook>,
    seat: Seat<Notebook>,
    page: u32,
    text: &str,
) -> Result<Seat<Notebook>, NoMemory>
    requires { seat.turn ≡ turn.now }
    ensures turn { IfOk result (λ after. after.turn ≡ turn.now) }
    ensures mine { IfOk result (λ after. after.mine ≡ seat.mine ++ record { page = page; text = text.now } ∷ []) }
{
    let line = Line {
        page,
        text: Text::copied(alloc, text)?,
    };
    let kept = Line {
        page,
        text: line.text.copy(alloc)?,
    };
    let mut held = turn.take_noted(rt, seat);
    if held.value.lines.push(kept).is_err() {
        drop(held.give());
        return Err(NoMemory);
    }
    held.enter(&line);
    Ok(held.give())
}

#[test]
fn a_notebook_keeps_the_lines_of_two_seats(rt: HostRuntime) -> Result<(), Fail> {
    let alloc = rt.alloc();
    let lines = Vec::new(alloc);
    let Ok((turn, first)) = Turn::new(alloc, Notebook { lines }) else {
        panic!(rt; "no memory")
    };
    let second = turn.seat();
    let first = write(&rt, alloc, &turn, first, 1, "one")?;
    let second = write(&rt, alloc, &turn, second, 2, "")?;
    let (mut first, mut second) = turn.meet(first, second);
    first.know();
    first.apart(&mut second);
    let first = write(&rt, alloc, &turn, first, 3, "three \u{20ac}")?;
    drop(second);
    let lines = turn.take(&rt, first).end().lines;
    let [one, two, three] = lines.as_slice() else {
        panic!(rt; "not three lines")
    };
    assert!(rt; one.page == 1 && one.text.as_str() == "one");
    assert!(rt; two.page == 2 && two.text.as_str() == "");
    assert!(rt; three.page == 3 && three.text.as_str() == "three \u{20ac}");
    Ok(())
}
