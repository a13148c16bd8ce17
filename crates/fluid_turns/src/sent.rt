//! What each client submitted last that was sequenced or absorbed.
ghost use Rattle.std.specs.Prelude.{◌≡◌, IfOk, OnOk, option_map};
ghost use Rattle.std.specs.FinMap.{empty, get, insert};

use fluid_json::NoMemory;
use fluid_steps::ScriptName;
use fluid_table::{Key, SortedMap};
use fluid_types::Submission;
use std::alloc::Global;
use std::marker::Model;

/// A client's name as a key.
#[derive(Drop)]
pub struct ClientKey {
    name: ScriptName,
}

impl Key for ClientKey {
    ghost text_of = { λ key. key.name };

    fn text(&self) -> &str {
        self.name.as_str()
    }
}

/// A submission that a log takes from any client at any moment.
#[derive(Drop)]
pub struct Fitting {
    submission: Submission,
}

impl Model for Fitting {
    ghost use Rattle.fluid_types.specs.declared.entries.Submission.{Submission as ASubmission};
    ghost use Rattle.fluid_types.specs.contracts.entries.Submission as submissions;
    ghost use Rattle.fluid_turns.specs.Saying.{FitsAll};

    ghost Value = { ASubmission };

    ghost coded = { submissions.the_row.coded };

    ghost view = { λ s. s.submission };

    ghost invariant = { λ s. FitsAll s.submission };
}

impl Fitting {
    ghost use Rattle.fluid_turns.specs.Saying.{FitsAll};

    pub fn new(submission: Submission) -> Fitting
        requires { FitsAll submission }
        ensures { result ≡ submission }
    {
        Fitting { submission }
    }

    pub fn get(&self) -> &Submission
        ensures value { result.now ≡ self.now }
        ensures fits { FitsAll self.now }
    {
        &self.submission
    }

    pub fn copy(&self, alloc: Global) -> Result<Fitting, NoMemory>
        ensures { IfOk result (λ copy. copy ≡ self.now) }
    {
        let submission = self.submission.copy(alloc)?;
        Ok(Fitting { submission })
    }
}

/// The last submission of each client that was sequenced or absorbed, by the client's name.
#[derive(Drop)]
pub struct Sent {
    pub table: SortedMap<ClientKey, Fitting>,
}

impl Sent {
    pub fn new(alloc: Global) -> Sent
        ensures { result.table.values ≡ empty }
    {
        Sent {
            table: SortedMap::new(alloc),
        }
    }

    pub fn get(&self, name: &ScriptName) -> Option<&Fitting>
        ensures { option_map (λ s. s.now) result ≡ get self.now.table.values name.now }
    {
        self.table.get(name.as_str())
    }

    /// Puts a submission in place of the one that its client had.
    pub fn put(
        &mut self,
        alloc: Global,
        name: &ScriptName,
        submission: Fitting,
    ) -> Result<(), NoMemory>
        ensures { OnOk result (self.new.table.values ≡ insert self.old.table.values name.now submission) }
    {
        let name = name.copy(alloc)?;
        self.table.reserve(1)?;
        self.table.insert(ClientKey { name }, submission);
        Ok(())
    }
}
