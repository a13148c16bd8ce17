//! A workload, act by act.
ghost use Rattle.std.specs.Prelude.{◌≡◌, ◌+◌, ◌<◌, ◌≤◌, ◌++◌, ℕ, drop, slice_get};
ghost use Rattle.fluid_gen.specs.Acts.{acts, choice, edit, rounds};
ghost use Rattle.fluid_gen.specs.Drawing.{next_state};
ghost use Rattle.fluid_gen.specs.Left.{CanGo, Goes, IsChosen, IsEdit, IsNextStage, IsTurn, behind_turn, from_client};

use crate::act::Act;
use crate::random::Random;
use std::marker::Model;

/// What comes next.
#[derive(Clone, Copy)]
pub(crate) enum Stage {
    Begin,
    /// This client joins, then collects for the first time, then submits its noop.
    Join(u32),
    FirstCollect(u32),
    Noop(u32),
    /// The turn of this number, from 1.
    Turn(u32),
    /// This client collects at the end of this turn.
    Collect { client: u32, turn: u32 },
    /// This turn ends with a round.
    Round(u32),
    Finish,
    End,
}

/// Which client has a turn, and what it does.
#[derive(Clone, Copy)]
pub(crate) struct Chosen {
    client: u32,
    act: Act,
}

/// The acts of a workload that are left. Takes no memory.
#[derive(Drop)]
pub struct Workload {
    random: Random,
    clients: u32,
    ops: u32,
    stage: Stage,
}

impl Model for Workload {
    ghost use Rattle.std.specs.Prelude.{List};
    ghost use Rattle.fluid_gen.specs.Left.{left, CanGo};
    ghost use Rattle.fluid_gen.specs.declared.act.Act.{Act as AnAct};

    ghost Value = { List AnAct };

    ghost view = { λ w. left w.clients w.ops w.random.state w.stage };

    ghost invariant = { λ w. CanGo w.clients w.ops w.stage };
}

impl Workload {
    /// All acts of the workload of this number: 1 to 1,000 clients, and 1 to 100,000 ops.
    pub fn new(number: u64, clients: u32, ops: u32) -> Workload
        requires clients { (1 ≤ clients) × (clients ≤ 1_000) }
        requires ops { (1 ≤ ops) × (ops ≤ 100_000) }
        ensures { result ≡ acts number clients ops }
    {
        Workload {
            random: Random { state: number },
            clients,
            ops,
            stage: Stage::Begin,
        }
    }

    /// The first act that is left.
    pub fn next(&mut self) -> Option<Act>
        ensures act { result ≡ slice_get self.old 0 }
        ensures left { self.new ≡ drop 1 self.old }
    {
        let (act, stage) = step(&mut self.random, self.clients, self.ops, self.stage)?;
        self.stage = stage;
        Some(act)
    }
}

// What this stage gives, and the stage behind it. At the end there is none.
fn step(random: &mut Random, clients: u32, ops: u32, stage: Stage) -> Option<(Act, Stage)>
    requires { CanGo clients ops stage }
    ensures { Goes clients ops stage random.old.state random.new.state result }
{
    match stage {
        Stage::Begin => Some((Act::Begin, Stage::Join(0))),
        Stage::Join(client) => Some((Act::Join(client), Stage::FirstCollect(client))),
        Stage::FirstCollect(client) => Some((Act::Collect(client), Stage::Noop(client))),
        Stage::Noop(client) => Some((Act::Noop(client), behind_client(clients, client))),
        Stage::Turn(turn) => Some(take_turn(random, clients, ops, turn)),
        Stage::Collect { client, turn } => Some((Act::Collect(client), behind_edit(ops, turn))),
        Stage::Round(turn) => Some((Act::Round, behind_turn(ops, turn))),
        Stage::Finish => Some((Act::Finish, Stage::End)),
        Stage::End => None,
    }
}

fn behind_client(clients: u32, client: u32) -> Stage
    requires { client < clients }
    ensures { (ops x : ℕ) → 0 < ops →
        IsNextStage clients ops x (from_client clients ops (client + 1) x) result }
{
    if client + 1 < clients {
        Stage::Join(client + 1)
    } else {
        Stage::Turn(1)
    }
}

fn behind_turn(ops: u32, turn: u32) -> Stage
    requires { turn ≤ ops }
    ensures { (clients x : ℕ) →
        IsNextStage clients ops x (behind_turn clients ops turn x) result }
{
    if turn < ops {
        Stage::Turn(turn + 1)
    } else {
        Stage::Finish
    }
}

fn behind_edit(ops: u32, turn: u32) -> Stage
    requires { turn ≤ ops }
    ensures { (clients x : ℕ) →
        IsNextStage clients ops x (rounds turn ++ behind_turn clients ops turn x) result }
{
    if turn % 1_000 == 0 {
        Stage::Round(turn)
    } else {
        behind_turn(ops, turn)
    }
}

// The act of a turn, and what comes behind it.
fn take_turn(random: &mut Random, clients: u32, ops: u32, turn: u32) -> (Act, Stage)
    requires clients { 0 < clients }
    requires turn { (0 < turn) × (turn ≤ ops) }
    ensures { IsTurn clients ops turn random.old.state random.new.state result }
{
    let chosen = choose(random, clients, turn);
    let stage = if random.draw(2) == 0 {
        Stage::Collect {
            client: chosen.client,
            turn,
        }
    } else {
        behind_edit(ops, turn)
    };
    (chosen.act, stage)
}

// Which client has this turn, and what it does.
fn choose(random: &mut Random, clients: u32, turn: u32) -> Chosen
    requires { 0 < clients }
    ensures { IsChosen (choice clients turn random.old.state) random.old.state random.new.state result }
{
    let client = random.draw(clients);
    if turn % 10 == 0 {
        return Chosen {
            client,
            act: Act::Again(client),
        };
    }
    if turn % 100 == 99 {
        return Chosen {
            client,
            act: Act::Gap(client),
        };
    }
    let act = draw_edit(random, client);
    Chosen { client, act }
}

// An edit of this client, which is drawn behind its turn.
fn draw_edit(random: &mut Random, client: u32) -> Act
    ensures { (x : ℕ) → random.old.state ≡ next_state x → IsEdit (edit client x) x random.new.state result }
{
    match random.draw(4) {
        0 | 1 => {
            let key = random.draw(50);
            let value = random.draw(1_000);
            Act::Set { client, key, value }
        }
        2 => Act::Delete {
            client,
            key: random.draw(50),
        },
        _ => Act::Increment {
            client,
            amount: i64::from(random.draw(2_001)) - 1_000,
        },
    }
}
