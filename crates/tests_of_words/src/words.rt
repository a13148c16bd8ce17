//! The words behind the program's name. A row has the words with a blank between two, and what they ask for.
use fluid_json::Text;
use fluid_pages::page;
use fluid_words::{Command, CommandName, WordsFault, read_words};
use std::alloc::{AllocError, Global};
use std::process::Abort;

const ROWS: &[(&str, &str)] = &[
    ("", "usage"),
    ("sequence", "sequence"),
    ("sequences", "usage"),
    ("Sequence", "usage"),
    ("sequence d", "usage"),
    ("sequence --lines", "usage"),
    ("sequence --", "sequence"),
    ("script", "script"),
    ("script d", "usage"),
    ("script --", "script"),
    // the document's name
    ("load", "usage"),
    ("load d", "load d"),
    ("load d e", "usage"),
    ("load a.b", "usage"),
    ("load ", "usage"),
    ("load --d", "usage"),
    ("load -- --d", "load --d"),
    ("load -- --help", "load --help"),
    ("load -- d e", "usage"),
    ("load --", "usage"),
    // the number of a workload
    ("workload", "usage"),
    ("workload 0", "workload 0 8 20000"),
    ("workload 1", "workload 1 8 20000"),
    (
        "workload 18446744073709551615",
        "workload 18446744073709551615 8 20000",
    ),
    ("workload 18446744073709551616", "usage"),
    ("workload +1", "usage"),
    ("workload -1", "usage"),
    ("workload -- -1", "usage"),
    ("workload 01", "usage"),
    ("workload 00", "usage"),
    ("workload 1a", "usage"),
    ("workload ", "usage"),
    ("workload 1 2", "usage"),
    // its options
    ("workload 7 --clients 1", "workload 7 1 20000"),
    ("workload 7 --clients 1000", "workload 7 1000 20000"),
    ("workload 7 --clients 1001", "usage"),
    ("workload 7 --clients 0", "usage"),
    ("workload 7 --clients", "usage"),
    ("workload 7 --clients --ops 5", "usage"),
    ("workload 7 --clients +8", "usage"),
    ("workload 7 --clients -8", "usage"),
    ("workload 7 --clients 08", "usage"),
    ("workload 7 --clients 2 --clients 2", "usage"),
    ("workload 7 --clients=3", "workload 7 3 20000"),
    ("workload 7 --client 3", "usage"),
    ("workload 7 --ops 1", "workload 7 8 1"),
    ("workload 7 --ops 100000", "workload 7 8 100000"),
    ("workload 7 --ops 100001", "usage"),
    ("workload 7 --ops 0", "usage"),
    ("workload 7 --ops", "usage"),
    ("workload 7 --ops --clients 5", "usage"),
    ("workload 7 --ops +5", "usage"),
    ("workload 7 --ops -5", "usage"),
    ("workload 7 --ops 05", "usage"),
    ("workload 7 --ops 5 --ops 5", "usage"),
    ("workload --ops 5 --clients 2 7", "workload 7 2 5"),
    ("workload --ops 5 7 --clients 2", "workload 7 2 5"),
    ("workload --ops 5 -- 7", "workload 7 8 5"),
    ("workload 7 --lines", "usage"),
    // the port, and its options
    ("serve", "usage"),
    ("serve 0", "serve 0 4294967295 false"),
    ("serve 1", "serve 1 4294967295 false"),
    ("serve -- 80", "serve 80 4294967295 false"),
    ("serve 65535", "serve 65535 4294967295 false"),
    ("serve 65536", "usage"),
    ("serve 080", "usage"),
    ("serve +80", "usage"),
    ("serve -80", "usage"),
    ("serve 80 81", "usage"),
    ("serve 80 --connections 0", "serve 80 0 false"),
    ("serve 80 --connections 1", "serve 80 1 false"),
    (
        "serve 80 --connections 4294967295",
        "serve 80 4294967295 false",
    ),
    ("serve 80 --connections 4294967296", "usage"),
    ("serve 80 --connections", "usage"),
    ("serve 80 --connections --lines", "usage"),
    ("serve 80 --connections +5", "usage"),
    ("serve 80 --connections -5", "usage"),
    ("serve 80 --connections 05", "usage"),
    ("serve 80 --connections 5 --connections 5", "usage"),
    ("serve 80 --lines", "serve 80 4294967295 true"),
    ("serve --lines --connections 2 80", "serve 80 2 true"),
    ("serve 80 --lines --lines", "usage"),
    ("serve 80 --lines true", "usage"),
    ("serve 80 -- --lines", "usage"),
    // pages
    ("--help", "help"),
    ("--help --help", "usage"),
    ("--help load", "usage"),
    ("help", "usage"),
    ("-h", "usage"),
    ("--version", "version"),
    ("--version --help", "usage"),
    ("-V", "usage"),
    ("sequence --help", "help sequence"),
    ("script --help", "help script"),
    ("load --help", "help load"),
    ("load d --help", "usage"),
    ("workload --help", "help workload"),
    ("workload 7 --help", "usage"),
    ("serve --help", "help serve"),
    ("serve -h", "usage"),
    ("sequence --version", "usage"),
    ("dance --help", "usage"),
];

// The words of a row, of which an empty one has one word without letters.
fn words_of(alloc: Global, row: &str) -> Result<Vec<Text>, AllocError> {
    let mut words = Vec::new(alloc);
    for word in row.split(' ') {
        words.push(Text::new(String::from_str(alloc, word)?))?;
    }
    Ok(words)
}

fn name_of(name: CommandName) -> &'static str {
    match name {
        CommandName::Sequence => "sequence",
        CommandName::Script => "script",
        CommandName::Load => "load",
        CommandName::Workload => "workload",
        CommandName::Serve => "serve",
    }
}

fn told(alloc: Global, command: &Command) -> Result<String, AllocError> {
    match command {
        Command::Sequence => String::from_str(alloc, "sequence"),
        Command::Script => String::from_str(alloc, "script"),
        Command::Load(name) => format!(in alloc; "load {}", name.as_str()),
        Command::Workload {
            number,
            clients,
            ops,
        } => format!(in alloc; "workload {number} {clients} {ops}"),
        Command::Serve {
            port,
            connections,
            lines,
        } => format!(in alloc; "serve {port} {connections} {lines}"),
        Command::Help(None) => String::from_str(alloc, "help"),
        Command::Help(Some(name)) => format!(in alloc; "help {}", name_of(*name)),
        Command::Version => String::from_str(alloc, "version"),
    }
}

fn answer(alloc: Global, words: &[Text]) -> Result<String, AllocError> {
    match &read_words(alloc, words) {
        Ok(command) => told(alloc, command),
        Err(WordsFault::Usage) => String::from_str(alloc, "usage"),
        Err(WordsFault::NoMemory) => Err(AllocError),
    }
}

fn is_read(rt: &impl Abort, alloc: Global, row: &str, wanted: &str) -> Result<(), AllocError> {
    let words = words_of(alloc, row)?;
    let answer = answer(alloc, words.as_slice())?;
    assert!(rt; answer.as_str() == wanted, "{row}");
    Ok(())
}

#[test]
fn each_row_of_words_asks_for_its_command(rt: HostRuntime) -> Result<(), AllocError> {
    let alloc = rt.alloc();
    for (row, wanted) in ROWS {
        is_read(&rt, alloc, row, wanted)?;
    }
    let none = answer(alloc, &[])?;
    assert!(rt; none.as_str() == "usage");
    Ok(())
}

#[test]
fn a_page_names_the_commands_that_are_built(rt: HostRuntime) {
    let program = page(None).expect(&rt, "a page");
    for (name, word) in [
        (CommandName::Sequence, "\n  sequence "),
        (CommandName::Script, "\n  script "),
        (CommandName::Load, "\n  load "),
        (CommandName::Workload, "\n  workload "),
        (CommandName::Serve, "\n  serve "),
    ] {
        assert!(rt;
            page(Some(name)).is_some() == program.contains(word),
            "{word}"
        );
    }
}
