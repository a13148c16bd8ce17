// One round of a tournament.
ghost use Rattle.std.specs.Prelude.{◌≡◌, ◌<◌, ◌∷◌, [], None, IfOk, OnOk, OnErr, length, slice_index_or, slice_set};
ghost use Rattle.fluid_clients.specs.Rounds.{IsWidened};

use fluid_json::NoMemory;
use std::alloc::Global;
use std::marker::Model;

// The winner of each node of a round: a slot, or none where no slot below the node holds a value.
#[derive(Drop)]
pub(crate) struct Round {
    nodes: Vec<Option<usize>>,
}

impl Model for Round {
    ghost use Rattle.std.specs.Prelude.{ℕ, List, Option};

    ghost Value = { List (Option ℕ) };

    ghost view = { λ r. r.nodes.items };
}

impl Round {
    pub(crate) fn of_one(alloc: Global, winner: Option<usize>) -> Result<Round, NoMemory>
        ensures { IfOk result (λ round. round ≡ winner ∷ []) }
    {
        let mut nodes = Vec::with_capacity(alloc, 1)?;
        nodes.push(winner)?;
        Ok(Round { nodes })
    }

    pub(crate) fn len(&self) -> usize
        ensures { result ≡ length self.now }
    {
        self.nodes.len()
    }

    // A node that isn't there has no winner.
    pub(crate) fn at(&self, node: usize) -> Option<usize>
        ensures { result ≡ slice_index_or self.now node None }
    {
        if node < self.nodes.len() {
            self.nodes[node]
        } else {
            None
        }
    }

    pub(crate) fn put(&mut self, node: usize, winner: Option<usize>)
        requires { node < length self.old }
        ensures { self.new ≡ slice_set self.old node winner }
    {
        self.nodes[node] = winner;
    }

    // Makes room for the node after the last one.
    pub(crate) fn widen(&mut self, node: usize) -> Result<(), NoMemory>
        ensures wide { OnOk result (IsWidened node self.old self.new) }
        ensures unchanged { OnErr result (self.new ≡ self.old) }
    {
        if node == self.nodes.len() {
            self.nodes.push(None)?;
        }
        Ok(())
    }

    pub(crate) fn copy(&self, alloc: Global) -> Result<Round, NoMemory>
        ensures { IfOk result (λ copy. copy ≡ self.now) }
    {
        let mut nodes = Vec::with_capacity(alloc, self.nodes.len())?;
        for node in &self.nodes {
            nodes.push(*node)?;
        }
        Ok(Round { nodes })
    }
}
