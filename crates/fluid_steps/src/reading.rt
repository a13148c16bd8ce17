//! The step that a line spells.
ghost use Rattle.std.specs.Prelude.{◌≡◌, ℕ, List, Option, IfOk, option_map};
ghost use Rattle.std.specs.List.{position};
ghost use Rattle.fluid_steps.specs.Grammar.{is_blank, first_word, cut, script_name, document_name, number, pick, form, step_spelled};
ghost use Rattle.fluid_steps.specs.Grammar as grammar;

use crate::names::ScriptName;
use crate::ops::read_op;
use crate::refusal::LineWhy;
use crate::steps::{Step, StepWord};
use fluid_json::{LARGEST, NoMemory, Text};
use fluid_loader::Pick;
use fluid_tree::Id;
use fluid_types::{DocName, NameFault, of_word};
use fluid_words::read_number;
use std::alloc::Global;

/// The step that a line spells, or why it spells none: its first word is unknown, or the other words are outside its form.
pub fn read_step(alloc: Global, line: &str) -> Result<Result<Step, LineWhy>, NoMemory>
    ensures { IfOk result (λ answer. answer ≡ step_spelled line.now) }
{
    let Some(word) = of_word(&StepWord::ALL, first_word(line)) else {
        return Ok(Err(LineWhy::UnknownStep));
    };
    let Some((_, rest)) = cut(line) else {
        return Ok(Err(LineWhy::BadStep));
    };
    let step = read_form(alloc, word, rest)?;
    Ok(step.ok_or(LineWhy::BadStep))
}

// ---- words

// A text at its first blank, with what stands before it and behind it.
fn cut(text: &str) -> Option<(&str, &str)>
    ensures { option_map (λ parts. (parts.0.now, parts.1.now)) result ≡ cut text.now }
{
    let Some(place) = blank_place(text.as_bytes()) else {
        return None;
    };
    Some((&text[..place], &text[place + 1..]))
}

// The place of the first blank.
fn blank_place(text: &[u8]) -> Option<usize>
    ensures { result ≡ position is_blank text.now }
{
    text.iter().position(|byte| is_blank(*byte))
}

fn is_blank(byte: u8) -> bool
    ensures { result ≡ is_blank byte }
{
    byte == b' ' || byte == b'\t'
}

// What stands before the first blank, which is all of it where there is none.
fn first_word(line: &str) -> &str
    ensures { result.now ≡ first_word line.now }
{
    match cut(line) {
        Some((word, _)) => word,
        None => line,
    }
}

fn script_name(alloc: Global, word: &str) -> Result<Option<ScriptName>, NoMemory>
    ensures { IfOk result (λ name. name ≡ script_name word.now) }
{
    match ScriptName::read(alloc, word) {
        Ok(name) => Ok(Some(name)),
        Err(NameFault::BadName) => Ok(None),
        Err(NameFault::NoMemory) => Err(NoMemory),
    }
}

fn document_name(alloc: Global, word: &str) -> Result<Option<DocName>, NoMemory>
    ensures { IfOk result (λ name. name ≡ document_name word.now) }
{
    match DocName::read(alloc, word) {
        Ok(name) => Ok(Some(name)),
        Err(NameFault::BadName) => Ok(None),
        Err(NameFault::NoMemory) => Err(NoMemory),
    }
}

fn number(word: &str) -> Option<u64>
    ensures { result ≡ number word.now }
{
    read_number(word, 0, LARGEST)
}

fn pick(word: &str) -> Option<Pick>
    ensures { result ≡ pick word.now }
{
    match word {
        "none" => Some(Pick::Empty),
        "latest" => Some(Pick::Latest),
        _ => Id::read(word).map(Pick::Handle),
    }
}

// ---- forms

fn read_form(alloc: Global, word: StepWord, rest: &str) -> Result<Option<Step>, NoMemory>
    ensures { IfOk result (λ step. step ≡ form word rest.now) }
{
    match word {
        StepWord::Send => send(alloc, rest),
        StepWord::Edit => edit(alloc, rest),
        StepWord::Load => load(alloc, rest),
        StepWord::Restart => restart(alloc, rest),
        StepWord::Sweep => sweep(alloc, rest),
        StepWord::Collect => Ok(script_name(alloc, rest)?.map(Step::Collect)),
        StepWord::Close => Ok(script_name(alloc, rest)?.map(Step::Close)),
        StepWord::Pump => Ok(script_name(alloc, rest)?.map(Step::Pump)),
        StepWord::Beat => Ok(script_name(alloc, rest)?.map(Step::Beat)),
        StepWord::Summarize => Ok(script_name(alloc, rest)?.map(Step::Summarize)),
        StepWord::Show => Ok(script_name(alloc, rest)?.map(Step::Show)),
        StepWord::Roam => roam(alloc, rest),
        StepWord::Say => say(alloc, rest),
        StepWord::Lose => Ok(script_name(alloc, rest)?.map(Step::Lose)),
        StepWord::Back => Ok(script_name(alloc, rest)?.map(Step::Back)),
        StepWord::Acked => Ok(script_name(alloc, rest)?.map(Step::Acked)),
        StepWord::Scribe => Ok(document_name(alloc, rest)?.map(Step::Scribe)),
        StepWord::Checkpoint => Ok(document_name(alloc, rest)?.map(Step::Checkpoint)),
        StepWord::Reopen => Ok(document_name(alloc, rest)?.map(Step::Reopen)),
        StepWord::Count => Ok(document_name(alloc, rest)?.map(Step::Count)),
        StepWord::Tasks => Ok(document_name(alloc, rest)?.map(Step::Tasks)),
    }
}

// C TEXT
fn send(alloc: Global, rest: &str) -> Result<Option<Step>, NoMemory>
    ensures { IfOk result (λ step. step ≡ grammar.send rest.now) }
{
    let Some((word, text)) = cut(rest) else {
        return Ok(None);
    };
    let Some(name) = script_name(alloc, word)? else {
        return Ok(None);
    };
    let text = Text::copied(alloc, text)?;
    Ok(Some(Step::Send(name, text)))
}

// P OP
fn edit(alloc: Global, rest: &str) -> Result<Option<Step>, NoMemory>
    ensures { IfOk result (λ step. step ≡ grammar.edit rest.now) }
{
    let Some((word, text)) = cut(rest) else {
        return Ok(None);
    };
    let Some(name) = script_name(alloc, word)? else {
        return Ok(None);
    };
    let Some(op) = read_op(alloc, text)? else {
        return Ok(None);
    };
    Ok(Some(Step::Edit(name, op)))
}

// P D PICK
fn load(alloc: Global, rest: &str) -> Result<Option<Step>, NoMemory>
    ensures { IfOk result (λ step. step ≡ grammar.load rest.now) }
{
    let Some((first, rest)) = cut(rest) else {
        return Ok(None);
    };
    let Some((second, third)) = cut(rest) else {
        return Ok(None);
    };
    let Some(name) = script_name(alloc, first)? else {
        return Ok(None);
    };
    let Some(document) = document_name(alloc, second)? else {
        return Ok(None);
    };
    let Some(pick) = pick(third) else {
        return Ok(None);
    };
    Ok(Some(Step::Load(name, document, pick)))
}

// D K
fn restart(alloc: Global, rest: &str) -> Result<Option<Step>, NoMemory>
    ensures { IfOk result (λ step. step ≡ grammar.restart rest.now) }
{
    let Some((first, second)) = cut(rest) else {
        return Ok(None);
    };
    let Some(document) = document_name(alloc, first)? else {
        return Ok(None);
    };
    let Some(checkpoint) = number(second) else {
        return Ok(None);
    };
    Ok(Some(Step::Restart(document, checkpoint)))
}

// D MS
fn sweep(alloc: Global, rest: &str) -> Result<Option<Step>, NoMemory>
    ensures { IfOk result (λ step. step ≡ grammar.sweep rest.now) }
{
    let Some((first, second)) = cut(rest) else {
        return Ok(None);
    };
    let Some(document) = document_name(alloc, first)? else {
        return Ok(None);
    };
    let Some(silence) = number(second) else {
        return Ok(None);
    };
    Ok(Some(Step::Sweep(document, silence)))
}

// R D
fn roam(alloc: Global, rest: &str) -> Result<Option<Step>, NoMemory>
    ensures { IfOk result (λ step. step ≡ grammar.roam rest.now) }
{
    let Some((first, second)) = cut(rest) else {
        return Ok(None);
    };
    let Some(name) = script_name(alloc, first)? else {
        return Ok(None);
    };
    let Some(document) = document_name(alloc, second)? else {
        return Ok(None);
    };
    Ok(Some(Step::Roam(name, document)))
}

// R OP
fn say(alloc: Global, rest: &str) -> Result<Option<Step>, NoMemory>
    ensures { IfOk result (λ step. step ≡ grammar.say rest.now) }
{
    let Some((word, text)) = cut(rest) else {
        return Ok(None);
    };
    let Some(name) = script_name(alloc, word)? else {
        return Ok(None);
    };
    let Some(op) = read_op(alloc, text)? else {
        return Ok(None);
    };
    Ok(Some(Step::Say(name, op)))
}
