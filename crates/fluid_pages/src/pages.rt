//! Which commands are built, and what is shown to a person.
ghost use Rattle.std.specs.Prelude.{◌≡◌, option_map};
ghost use Rattle.fluid_pages.specs.Pages.{built, page};

use fluid_words::CommandName;

/// What is written where the words ask for nothing.
pub const USAGE: &str =
    "usage: fluidd sequence | script | load DOC | workload N [--clients C] [--ops K] | serve PORT [--connections N] [--lines]\n";

/// The program's name and its version.
pub const VERSION: &str = "fluidd 0.1.0\n";

const PROGRAM: &str = "\
fluidd puts the edits of collaborative documents into one order.

usage: fluidd COMMAND

commands:
  serve       serve documents to clients over WebSockets, or over lines
  sequence    order the raw records of one document
  script      do the steps of a script, and write what each says
  load        do the steps of a script, and show a document then
  workload    do the edits of a stated generator, and write a summary

help:
  fluidd --help            this page
  fluidd COMMAND --help    what a command does, with an example
  fluidd --version         the version

The exit status is 0 where what was asked for is done: all of the input was read
and all of the output written, all connections were served, or a page was
written. It is 2 where the words ask for nothing, 3 where a line of the input is
refused, 4 where reading failed, 5 where writing failed, 6 where memory was
wanting, 7 where the log of a document failed, 8 where the store of objects
failed, 9 where no connection can be taken, as at a port that is in use, 10
where a thread was refused, and 11 where what is stored is refused.

examples:
  $ fluidd serve 7070
  $ fluidd sequence < records.jsonl > verdicts.jsonl
  $ fluidd script < steps.txt
  $ fluidd workload 7
";

const SEQUENCE: &str = "\
fluidd sequence reads raw records of one document from standard input, one JSON
value a line, and writes a line with the verdict on each to standard output:
sequenced with its message, refused with a nack, dropped as a repeat or as what
changes nothing, or absorbed (a noop).

usage: fluidd sequence

It has no options. An input has at most 16,777,216 lines, and a line at most
1,048,576 bytes; an empty line is passed over. A document takes 4,194,304 joins
and submissions, and 1,024 clients may be joined at once. At the first line that
is refused the run ends with `bad line N: WHY` and status 3.

example:
  $ echo '{\"raw\":\"join\",\"clientId\":\"A\",\"detail\":null,\"scopes\":[\"doc:read\"],\"moment\":5}' | fluidd sequence
  {\"sequenced\":{\"clientId\":null,\"clientSequenceNumber\":-1,\"contents\":null,\"data\":\"{\\\"clientId\\\":\\\"A\\\",\\\"detail\\\":null}\",\"minimumSequenceNumber\":0,\"referenceSequenceNumber\":-1,\"sequenceNumber\":1,\"timestamp\":5,\"type\":\"join\"}}
";

const SCRIPT: &str = "\
fluidd script reads steps from standard input, one a line, does them one after
another on documents of its own, and writes what each says to standard output.

usage: fluidd script

  send C TEXT       connection C hears an event of the protocol; a new C starts
  collect C         C is given the messages that weren't delivered
  close C           C leaves; its name can't be used again
  load P D none     container P joins document D, without a summary; or with
                    `latest`, the last acknowledged one, or a summary's handle
  pump P            P takes in the messages up to the last
  edit P OP         P edits a channel by the JSON contents of an op
  beat P            P says by a noop where it is
  summarize P       P uploads its channels, and proposes them as a summary
  show P            what P shows
  roam R D          roamer R, one user's edits over many clients, joins D
  say R OP          R edits a channel, and sends the edit unless it is lost
  lose R            R's connection is lost
  back R            a lost R comes back as a new client, and sends again what
                    doesn't stand
  acked R           how many of R's edits stand
  scribe D          the scribe answers the pending summary of D
  checkpoint D      a checkpoint of D is stored
  restart D K       D begins again from its stored checkpoint K
  reopen D          D is closed, and opened as by a new process
  sweep D MS        one client that was silent for over MS milliseconds leaves,
                    the first of them in byte order of ids
  count D           how many entries D has, and its numbers
  tasks D           the queues and tasks of D, as its messages make them

C, P and R are names of 1 to 16 characters of a-z and 0-9; D is a document's, of
1 to 64 of A-Z, a-z, 0-9, `_` and `-`. The moment of a step, in milliseconds, is
its line's number. An input has at most 16,777,216 lines, and a line at most
1,048,576 bytes; an empty line is passed over. At the first line that is refused
the run ends with `bad line N: WHY` and status 3. All is kept in memory.

example:
  $ printf 'load p d none\\nedit p {\"type\":\"attach\",\"address\":\"m\",\"kind\":\"map\"}\\nshow p\\n' | fluidd script
  p loaded d at 1
  p edited
  p at 1: {\"m\":{\"kind\":\"map\",\"value\":{}}}
";

const LOAD: &str = "\
fluidd load does the steps of a script, which it reads from standard input as
`fluidd script` does, without writing what they say. Then a container is loaded
for document DOC, from its last acknowledged summary where there is one, and
what it shows is written.

usage: fluidd load DOC

The name of a document has 1 to 64 characters of A-Z, a-z, 0-9, `_` and `-`. At
the first line that is refused `bad line N: WHY` is all that is written.

example:
  $ printf 'load p d none\\nedit p {\"type\":\"attach\",\"address\":\"m\",\"kind\":\"map\"}\\n' | fluidd load d
  d at 3: {\"m\":{\"kind\":\"map\",\"value\":{}}}
";

const WORKLOAD: &str = "\
fluidd workload does the edits of a stated generator on one document, with
summaries, checkpoints and restarts among them, and writes a summary: how many
messages there are, how many submissions were dropped, absorbed and nacked, how
many summaries were acknowledged, the id of what the first container shows, and
whether a container that is loaded then has the same.

usage: fluidd workload N [--clients C] [--ops K]

  N                  the number from which all is drawn, up to
                     18,446,744,073,709,551,615
  --clients C        1 to 1,000 clients; 8 without
  --ops K            1 to 100,000 ops; 20,000 without

The same words give the same lines. It reads nothing, writes nothing before its
summary, and keeps all in memory.

example:
  $ fluidd workload 7
  messages 17852
  dropped 2000
  absorbed 8
  nacked 200
  summaries 20
  state eccde2227a774c0bd650cece3b559e5fec52c2b3
  loaded same
";

const SERVE: &str = "\
fluidd serve takes clients at a port of this machine's own address, 127.0.0.1,
and puts what they submit to each document into one order, which it sends to all
who are connected to it. A text of a WebSocket is one event.

usage: fluidd serve PORT [--connections N] [--lines]

  --connections N    ends when N connections were served; 4,294,967,295 without
  --lines            one event a line over TCP, in place of WebSockets

Port 0 takes one that is free. A line on standard error says where it listens,
or why it can't; then the status is 9. All documents are kept in memory, and go
with the process. At most 1,024 of them are open, each with 4,194,304 joins and
submissions and 1,024 clients that write. Whoever writes and is silent for five
minutes is taken for gone. It is ended by a signal.

example:
  $ fluidd serve 7070
  listening on 127.0.0.1:7070 for WebSockets, at most 1016 connections at once
";

/// The page on a command that is built, or on the program.
pub fn page(topic: Option<CommandName>) -> Option<&'static str>
    ensures { option_map (λ text. text.now) result ≡ page topic }
{
    match topic {
        None => Some(PROGRAM),
        Some(name) => page_on(name),
    }
}

// The commands that are built, each with its page.
fn page_on(name: CommandName) -> Option<&'static str>
    ensures { option_map (λ text. text.now) result ≡ built name }
{
    match name {
        CommandName::Sequence => Some(SEQUENCE),
        CommandName::Script => Some(SCRIPT),
        CommandName::Load => Some(LOAD),
        CommandName::Workload => Some(WORKLOAD),
        CommandName::Serve => Some(SERVE),
    }
}
