//! What time it is.
ghost use Rattle.std.specs.Prelude.{◌≡◌, ℕ, ◌+◌, ◌-◌, ◌*◌, ◌^◌, ◌<◌, ◌≤◌, Option};
ghost use Rattle.fluid_io.specs.Causes.{Tells};

use fluid_json::LARGEST;
use std::marker::Model;
use std::time;
use std::time::{SystemTime, UNIX_EPOCH};

/// A clock. A moment is a whole number of milliseconds since the start of 1970, and at most `LARGEST`,
/// since it stands in JSON texts.
/// A clock has no fault.
pub trait Clock {
    /// The moment, of a clock that tells it.
    ghost moment: { Self → Option ℕ };

    fn now(&self) -> u64
        ensures bound { result ≤ LARGEST }
        ensures told { Tells (moment self.now) (λ moment. result ≡ moment) };
}

/// A clock that stands still. It tells its moment.
#[derive(Drop)]
pub struct FixedClock {
    moment: u64,
}

impl Model for FixedClock {
    ghost use Rattle.std.specs.Prelude.{ℕ, ◌-◌, ◌^◌, ◌≤◌};

    ghost Value = { ℕ };

    ghost view = { λ c. c.moment };

    ghost invariant = { λ c. c.moment ≤ 2 ^ 53 - 1 };
}

impl FixedClock {
    /// It always tells this moment, in milliseconds.
    pub fn new(moment: u64) -> FixedClock
        requires { moment ≤ LARGEST }
        ensures { result ≡ moment }
    {
        FixedClock { moment }
    }
}

impl Clock for FixedClock {
    ghost use Rattle.std.specs.Prelude.{Some};

    ghost moment = { λ moment. Some moment };

    fn now(&self) -> u64 {
        self.moment
    }
}

/// A clock of std. It doesn't tell its moment. It reads 0 where it can't be read or is set before 1970, and
/// stands at `LARGEST` behind it.
#[derive(Drop)]
pub struct StdClock<C: time::Clock> {
    inner: C,
}

impl<C: time::Clock> Model for StdClock<C> {
    ghost Value = { C };

    ghost view = { λ c. c.inner };
}

impl<C: time::Clock> StdClock<C> {
    pub fn new(inner: C) -> StdClock<C>
        ensures { result ≡ inner }
    {
        StdClock { inner }
    }
}

impl<C: time::Clock> Clock for StdClock<C> {
    ghost use Rattle.std.specs.Prelude.{None};

    ghost moment = { λ _. None };

    fn now(&self) -> u64 {
        let since_1970 = SystemTime::now(&self.inner)
            .ok()
            .and_then(|now| now.duration_since(UNIX_EPOCH).ok());
        match since_1970 {
            Some(elapsed) => elapsed.as_millis().min(u128::from(LARGEST)) as u64,
            None => 0,
        }
    }
}
