//! What the words ask of the program as it is built.
ghost use Rattle.std.specs.Prelude.{IfOk};
ghost use Rattle.fluidd.specs.Tasks.{IsTask, task_of, task_by as task_for_command};

use crate::status::Status;
use fluid_json::{NoMemory, Text};
use fluid_pages::{USAGE, VERSION, page};
use fluid_types::DocName;
use fluid_words::{Command, WordsFault, read_words};
use std::alloc::Global;

/// What is done for the words.
#[derive(Drop)]
pub(crate) enum Task {
    Sequence,
    /// Does the steps of a script.
    Script,
    /// Does them without their lines, and shows a container of this document.
    Load(DocName),
    /// Does the acts of the workload of this number, with so many clients and ops.
    Workload {
        number: u64,
        clients: u32,
        ops: u32,
    },
    /// Serves so many connections at this port, over WebSockets or over lines.
    Serve {
        port: u16,
        connections: u32,
        lines: bool,
    },
    /// Writes this text and ends with this status.
    Show(Status, &'static str),
}

/// What the words behind the program's name ask for. A command that isn't built gets the usage line.
pub(crate) fn read_task(alloc: Global, words: &[Text]) -> Result<Task, NoMemory>
    ensures { IfOk result (λ task. IsTask (task_of words.now) task) }
{
    match read_words(alloc, words) {
        Ok(command) => Ok(task_by(command)),
        Err(WordsFault::Usage) => Ok(Task::Show(Status::Usage, USAGE)),
        Err(WordsFault::NoMemory) => Err(NoMemory),
    }
}

fn task_by(command: Command) -> Task
    ensures { IsTask (task_for_command command) result }
{
    match command {
        Command::Sequence => Task::Sequence,
        Command::Script => Task::Script,
        Command::Load(document) => Task::Load(document),
        Command::Workload {
            number,
            clients,
            ops,
        } => Task::Workload {
            number,
            clients,
            ops,
        },
        Command::Serve {
            port,
            connections,
            lines,
        } => Task::Serve {
            port,
            connections,
            lines,
        },
        Command::Help(topic) => match page(topic) {
            Some(text) => Task::Show(Status::Done, text),
            None => Task::Show(Status::Usage, USAGE),
        },
        Command::Version => Task::Show(Status::Done, VERSION),
    }
}
