//! A wire that gives hints.
ghost use Rattle.std.specs.Prelude.{◌≡◌};

use crate::bell::Bell;
use crossbeam_channel::Sender;
use fluid_lines::{Recv, Wire, WireFault};
use std::alloc::Global;
use std::marker::Model;
use std::sync::{Mutex, Wait};

/// A wire round another one, whose texts it gives and takes. Whoever receives from it has worked off the text before: then it sends a
/// hint, unless one is on its way already. No clause says that a hint arrives.
#[derive(Drop)]
pub struct HintWire<'a, W: Wire> {
    wire: W,
    bell: &'a Mutex<Bell>,
    hints: &'a Sender<()>,
    // whether a text came in since its last hint
    heard: bool,
}

impl<'a, W: Wire> Model for HintWire<'a, W> {
    ghost use Rattle.fluid_lines.specs.Wires.{Wiring};

    ghost Value = { Wiring };

    ghost view = { λ w. W.seen w.wire };
}

impl<'a, W: Wire> HintWire<'a, W> {
    /// Hints go into this channel, beside this bell.
    pub fn new(wire: W, bell: &'a Mutex<Bell>, hints: &'a Sender<()>) -> HintWire<'a, W>
        ensures { result ≡ W.seen wire }
    {
        HintWire {
            wire,
            bell,
            hints,
            heard: false,
        }
    }

    /// The wire in it.
    pub fn into_wire(self) -> W
        ensures { W.seen result ≡ self.entry }
    {
        let HintWire {
            wire,
            bell: _,
            hints: _,
            heard: _,
        } = self;
        wire
    }

    // Sends a hint where a text was heard since the last one and none is on its way. Where the channel refuses it, the flag is
    // cleared again.
    fn ring<R: Wait>(&mut self, rt: &R)
        ensures { self.new ≡ self.old }
    {
        if !self.heard {
            return;
        }
        if !self.bell.lock(rt).set() {
            return;
        }
        if self.hints.send(rt, ()).is_ok() {
            self.heard = false;
        } else {
            self.bell.lock(rt).clear();
        }
    }
}

impl<'a, W: Wire> Wire for HintWire<'a, W> {
    ghost seen = { λ w. w };

    fn recv<R: Wait>(&mut self, rt: &R, alloc: Global) -> Result<Recv, WireFault> {
        self.ring(rt);
        let answer = self.wire.recv(rt, alloc);
        if let Ok(Recv::Text(_)) = &answer {
            self.heard = true;
        }
        answer
    }

    fn send<R: Wait>(&mut self, rt: &R, alloc: Global, text: &str) -> Result<(), WireFault> {
        self.wire.send(rt, alloc, text)
    }

    fn follow<R: Wait>(&mut self, rt: &R, name: &str) {
        self.wire.follow(rt, name);
    }

    fn is_free<R: Wait>(&mut self, rt: &R) -> bool {
        self.wire.is_free(rt)
    }

    fn is_handed_on<R: Wait>(&mut self, rt: &R) -> bool {
        self.wire.is_handed_on(rt)
    }
}
