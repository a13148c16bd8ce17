//! The words behind the program's name.
ghost use Rattle.std.specs.Prelude.{◌≡◌, ◌≤◌, IfOk, option_and_then};
ghost use Rattle.clap.specs.Walk.{texts, rows_of};
ghost use Rattle.clap.specs.Simple.{app_of};
ghost use Rattle.clap.specs.Matches.{found_of};
ghost use Rattle.fluid_json.specs.Unless.{IsUnless};
ghost use Rattle.fluid_words.specs.Found.{found};
ghost use Rattle.fluid_words.specs.Words.{command_of, or_usage, behind, is_flagged, is_word, load_by, number_of, serve_by, workload_by};
ghost use Rattle.fluid_words.specs.Words.{load as load_app, serve as serve_app, workload as workload_app};

use crate::command::{Command, CommandName, WordsFault};
use crate::found::{command, find, find_none, flag, option, wanted};
use crate::number::read_number;
use clap::ArgMatches;
use fluid_json::Text;
use fluid_types::{DocName, NameFault};
use std::alloc::{AllocError, Global};

/// What the words behind the program's name ask for.
pub fn read_words(alloc: Global, words: &[Text]) -> Result<Command, WordsFault>
    ensures { IsUnless WordsFault.NoMemory result (command_of words.now) }
{
    let borrowed = borrow_all(alloc, words)?;
    read(alloc, borrowed.as_slice())
}

fn borrow_all<'w>(alloc: Global, words: &'w [Text]) -> Result<Vec<&'w str>, AllocError>
    ensures { IfOk result (λ borrowed. texts borrowed.items ≡ words.entry.now) }
{
    let mut borrowed = Vec::new(alloc);
    for word in words {
        borrowed.push(word.as_str())?;
    }
    Ok(borrowed)
}

fn read<'w>(alloc: Global, words: &'w [&'w str]) -> Result<Command, WordsFault>
    ensures { IsUnless WordsFault.NoMemory result (command_of (texts words.entry.now)) }
{
    if is_word("--help", words) {
        return Ok(Command::Help(None));
    }
    if is_word("--version", words) {
        return Ok(Command::Version);
    }
    let [first, words @ ..] = words else {
        return Err(WordsFault::Usage);
    };
    let Some(name) = CommandName::read(first) else {
        return Err(WordsFault::Usage);
    };
    if is_word("--help", words) {
        return Ok(Command::Help(Some(name)));
    }
    read_command(alloc, name, words)
}

// The words are this one alone.
fn is_word(word: &str, words: &[&str]) -> bool
    ensures { result ≡ is_word word.now (texts words.now) }
{
    match words {
        [first] => *first == word,
        _ => false,
    }
}

// What the words behind a command's name ask for.
fn read_command<'w>(
    alloc: Global,
    name: CommandName,
    words: &'w [&'w str],
) -> Result<Command, WordsFault>
    ensures { IsUnless WordsFault.NoMemory result (or_usage (behind name (texts words.entry.now))) }
{
    match name {
        CommandName::Sequence => {
            find_none(command(alloc, "sequence"), words)?;
            Ok(Command::Sequence)
        }
        CommandName::Script => {
            find_none(command(alloc, "script"), words)?;
            Ok(Command::Script)
        }
        CommandName::Load => read_load(alloc, words),
        CommandName::Workload => read_workload(alloc, words),
        CommandName::Serve => read_serve(alloc, words),
    }
}

fn read_load<'w>(alloc: Global, words: &'w [&'w str]) -> Result<Command, WordsFault>
    ensures { IsUnless WordsFault.NoMemory result
        (or_usage (option_and_then load_by (found load_app (texts words.entry.now)))) }
{
    let matches = find(load(alloc)?, words)?;
    load_by(alloc, &matches)
}

fn read_workload<'w>(alloc: Global, words: &'w [&'w str]) -> Result<Command, WordsFault>
    ensures { IsUnless WordsFault.NoMemory result
        (or_usage (option_and_then workload_by (found workload_app (texts words.entry.now)))) }
{
    let matches = find(workload(alloc)?, words)?;
    workload_by(&matches)
}

fn read_serve<'w>(alloc: Global, words: &'w [&'w str]) -> Result<Command, WordsFault>
    ensures { IsUnless WordsFault.NoMemory result
        (or_usage (option_and_then serve_by (found serve_app (texts words.entry.now)))) }
{
    let matches = find(serve(alloc)?, words)?;
    serve_by(&matches)
}

// load DOC
fn load<'w>(alloc: Global) -> Result<clap::Command<'w>, AllocError>
    ensures { IfOk result (λ command. app_of command ≡ load_app) }
{
    let command = command(alloc, "load").arg(wanted(alloc, "DOC"))?;
    Ok(command)
}

// workload N [--clients C] [--ops K]
fn workload<'w>(alloc: Global) -> Result<clap::Command<'w>, AllocError>
    ensures { IfOk result (λ command. app_of command ≡ workload_app) }
{
    let command = command(alloc, "workload")
        .arg(wanted(alloc, "N"))?
        .arg(option(alloc, "clients", "8"))?
        .arg(option(alloc, "ops", "20000"))?;
    Ok(command)
}

// serve PORT [--connections N] [--lines]
fn serve<'w>(alloc: Global) -> Result<clap::Command<'w>, AllocError>
    ensures { IfOk result (λ command. app_of command ≡ serve_app) }
{
    let command = command(alloc, "serve")
        .arg(wanted(alloc, "PORT"))?
        .arg(option(alloc, "connections", "4294967295"))?
        .arg(flag(alloc, "lines"))?;
    Ok(command)
}

fn load_by(alloc: Global, matches: &ArgMatches) -> Result<Command, WordsFault>
    ensures { IsUnless WordsFault.NoMemory result (or_usage (load_by (rows_of (found_of matches.now)))) }
{
    let Some(word) = matches.get_str("DOC") else {
        return Err(WordsFault::Usage);
    };
    match DocName::read(alloc, word) {
        Ok(name) => Ok(Command::Load(name)),
        Err(NameFault::BadName) => Err(WordsFault::Usage),
        Err(NameFault::NoMemory) => Err(WordsFault::NoMemory),
    }
}

fn workload_by(matches: &ArgMatches) -> Result<Command, WordsFault>
    ensures { result ≡ or_usage (workload_by (rows_of (found_of matches.now))) }
{
    let number = number_of(matches, "N", 0, u64::MAX)?;
    let clients = number_of(matches, "clients", 1, 1_000)? as u32;
    let ops = number_of(matches, "ops", 1, 100_000)? as u32;
    Ok(Command::Workload {
        number,
        clients,
        ops,
    })
}

fn serve_by(matches: &ArgMatches) -> Result<Command, WordsFault>
    ensures { result ≡ or_usage (serve_by (rows_of (found_of matches.now))) }
{
    let port = number_of(matches, "PORT", 0, 65_535)? as u16;
    let connections = number_of(matches, "connections", 0, 4_294_967_295)? as u32;
    Ok(Command::Serve {
        port,
        connections,
        lines: is_flagged(matches, "lines"),
    })
}

// The value of this name, as a number from `least` to `most`.
fn number_of(matches: &ArgMatches, id: &str, least: u64, most: u64) -> Result<u64, WordsFault>
    ensures number { result ≡ or_usage (number_of id.now least most (rows_of (found_of matches.now))) }
    ensures most { IfOk result (λ number. number ≤ most) }
{
    let Some(word) = matches.get_str(id) else {
        return Err(WordsFault::Usage);
    };
    match read_number(word, least, most) {
        Some(number) => Ok(number),
        None => Err(WordsFault::Usage),
    }
}

// Whether this option was given. (The contract of `get_flag` speaks of two texts alone.)
fn is_flagged(matches: &ArgMatches, id: &str) -> bool
    ensures { result ≡ is_flagged id.now (rows_of (found_of matches.now)) }
{
    match matches.get_str(id) {
        Some(word) => word == "true",
        None => false,
    }
}
