//! The values of a command among the words behind its name.
ghost use Rattle.std.specs.Prelude.{◌≡◌, true, false};
ghost use Rattle.clap.specs.Walk.{texts, rule_of};
ghost use Rattle.clap.specs.Simple.{App, app_of, is_simple};
ghost use Rattle.clap.specs.Faults.{is_simple_and_free};
ghost use Rattle.clap.specs.Values.{kind_of};
ghost use Rattle.fluid_words.specs.Found.{AreWordsOf, IsFound, fault_by, command as command_named, flag as flag_named, option as option_named, wanted as wanted_named};

use crate::command::WordsFault;
use clap::error::ErrorKind;
use clap::{Arg, ArgAction, ArgMatches, Command};
use std::alloc::Global;

/// A value that has to be given, by its place.
pub(crate) fn wanted<'a>(alloc: Global, id: &'a str) -> Arg<'a>
    ensures rule { rule_of result ≡ wanted_named id.entry.now }
    ensures local { result.global ≡ false }
{
    Arg::new(alloc, id).required(true)
}

/// The option `--ID VALUE`, and the value that stands where it isn't given.
pub(crate) fn option<'a>(alloc: Global, id: &'a str, default: &'a str) -> Arg<'a>
    ensures rule { rule_of result ≡ option_named id.entry.now default.entry.now }
    ensures local { result.global ≡ false }
{
    Arg::new(alloc, id).long(id).default_value(default)
}

/// The option `--ID`.
pub(crate) fn flag<'a>(alloc: Global, id: &'a str) -> Arg<'a>
    ensures rule { rule_of result ≡ flag_named id.entry.now }
    ensures local { result.global ≡ false }
{
    Arg::new(alloc, id).long(id).action(ArgAction::SetTrue)
}

/// A command of this name without arguments, whose words are those behind its name.
pub(crate) fn command<'a>(alloc: Global, name: &'a str) -> Command<'a>
    ensures { app_of result ≡ command_named name.entry.now }
{
    Command::new(alloc, name)
        .no_binary_name(true)
        .disable_help_flag(true)
}

/// What is found for a command among these words.
pub(crate) fn find<'a>(
    command: Command<'a>,
    words: &'a [&'a str],
) -> Result<ArgMatches<'a>, WordsFault>
    ensures { (app : App) → app_of command.entry ≡ app → is_simple app ≡ true → is_simple_and_free app ≡ true →
        IsFound app (texts words.entry.now) result }
{
    match command.try_get_matches_from(words) {
        Ok(matches) => Ok(matches),
        Err(error) => Err(fault_of(&error)),
    }
}

/// The same for a command without arguments: whether these are its words.
pub(crate) fn find_none<'a>(command: Command<'a>, words: &'a [&'a str]) -> Result<(), WordsFault>
    ensures { (app : App) → app_of command.entry ≡ app → is_simple app ≡ true → is_simple_and_free app ≡ true →
        AreWordsOf app (texts words.entry.now) result }
{
    find(command, words)?;
    Ok(())
}

fn fault_of(error: &clap::Error) -> WordsFault
    ensures { result ≡ fault_by (kind_of error.now) }
{
    match error.kind() {
        ErrorKind::OutOfMemory => WordsFault::NoMemory,
        _ => WordsFault::Usage,
    }
}
