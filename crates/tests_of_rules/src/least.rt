// The least of values of another type, through its bound, and how often they are compared.
ghost use Rattle.std.specs.Prelude.{◌≡◌, ◌<◌, ◌∷◌, [], None, length};

use fluid_clients::Steps;
use fluid_clients::index::{Least, Rank};
use std::alloc::Global;
use std::cell::Cell;
use std::marker::Brand;
use std::process::Abort;
use std::sync::ledger::{Blank, Ledger};

// A price that knows how often it was asked.
#[derive(Drop)]
struct Price<'a> {
    cents: u64,
    asked: &'a Cell<u64>,
}

impl<'a> Rank for Price<'a> {
    ghost number = { λ price. price.cents };

    fn before<L: Ledger>(&self, other: &Price<'a>, steps: &mut Steps<L>) -> bool {
        steps.tick();
        self.asked.set(self.asked.get().wrapping_add(1));
        self.cents < other.cents
    }
}

// In each row the slot that gets a price, or is emptied at 0, and the price; then the least price behind that, and how often
// prices were compared in this step. Over five slots there are three matches, in which one is compared where both sides hold one.
const ROWS: [[u64; 4]; 11] = [
    [4, 9, 9, 0],
    [0, 7, 7, 1],
    [1, 8, 7, 2],
    [2, 7, 7, 2],
    [3, 5, 5, 3],
    [3, 6, 6, 3],
    [0, 3, 3, 3],
    [0, 0, 6, 2],
    [4, 2, 2, 1],
    [2, 0, 2, 2],
    [4, 0, 6, 0],
];

// Puts a price into a slot, or empties it where the price is 0. Nobody counts the steps.
fn take<'a, L: Ledger>(prices: &mut Least<Price<'a>>, slot: u64, price: Price<'a>, blank: Blank)
    requires name { blank.name ≡ L.name }
    requires parts { blank.parts ≡ L.parts }
    requires some { 0 < blank.parts }
    requires slot { slot < length prices.old }
{
    let mut steps = Steps::<L>::new(blank);
    if price.cents == 0 {
        prices.clear(slot, &mut steps);
    } else {
        prices.set(slot, price, &mut steps);
    }
}

fn grown<'a>(rt: &impl Abort, alloc: Global, slots: u64) -> Least<Price<'a>> {
    let mut prices = Least::new(alloc);
    for _ in 0..slots {
        prices.grow().expect(rt, "memory");
    }
    prices
}

#[test]
fn the_least_price_in_so_many_comparisons(rt: HostRuntime) {
    let asked = Cell::new(0);
    let mut prices = grown(&rt, rt.alloc(), 5);
    assert!(rt; prices.least().is_none());
    for [slot, cents, least, compared] in ROWS {
        let before = asked.get();
        assert!(rt; slot < prices.len());
        let asked = &asked;
        let price = Price { cents, asked };
        take::<Brand>(&mut prices, slot, price, Blank::new(1));
        assert!(rt; prices.least().map_or(0, |price| price.cents) == least);
        assert!(rt; asked.get().wrapping_sub(before) == compared);
    }
    drop(prices);
}
