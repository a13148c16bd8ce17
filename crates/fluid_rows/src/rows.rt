// Which word asks for what.
use crate::words::{bytes_of, split};
use crate::{
    checkpoints, clients, clocks, counters, events, keepers, maps, names, records, replies,
    shelves, streams, tables, trees, values,
};
use fluid_json::{NoMemory, Text};
use std::alloc::Global;

// The answer to a row.
pub(crate) fn told(alloc: Global, row: &str) -> Result<Text, NoMemory> {
    let (word, written) = split(row);
    let bytes = bytes_of(alloc, written)?;
    match word {
        "checkpoint" => checkpoints::told(alloc, &bytes),
        "blob" => trees::blob(alloc, &bytes),
        "object" => trees::object(alloc, &bytes),
        "prefixes" => trees::prefixes(alloc, &bytes),
        "counter-bytes" => counters::bytes_told(alloc, &bytes),
        "map-bytes" => maps::bytes_told(alloc, &bytes),
        "lines" => streams::lines(alloc, &bytes),
        _ => match str::from_utf8(&bytes) {
            Ok(text) => of_values(alloc, word, text),
            Err(_) => Text::copied(alloc, "no text"),
        },
    }
}

fn of_values(alloc: Global, word: &str, text: &str) -> Result<Text, NoMemory> {
    match word {
        "json" => values::read_told(alloc, text),
        "stored" => values::stored_told(alloc, text),
        "body" => values::body_told(alloc, text),
        "made" => values::made(alloc, text),
        "name" => names::told(alloc, text),
        "order" => names::order(alloc, text),
        "entry" => names::entry(alloc, text),
        "tree" => trees::told(alloc, text),
        "names" => trees::named(alloc, text),
        "entries" => trees::written(alloc, text),
        "id" => trees::id(alloc, text),
        _ => of_protocol(alloc, word, text),
    }
}

fn of_protocol(alloc: Global, word: &str, text: &str) -> Result<Text, NoMemory> {
    match word {
        "raw" => records::raw(alloc, text),
        "message" => records::message(alloc, text),
        "dropped" => records::dropped(alloc, text),
        "sequenced" => records::sequenced(alloc, text),
        "nacked" => records::nacked(alloc, text),
        "event" => events::told(alloc, text),
        "rule" => replies::rule(alloc, text),
        "send" => replies::sent(alloc, text),
        _ => of_keepers(alloc, word, text),
    }
}

fn of_keepers(alloc: Global, word: &str, text: &str) -> Result<Text, NoMemory> {
    match word {
        "counter" => counters::told(alloc, text),
        "map" => maps::told(alloc, text),
        "table" => tables::told(alloc, text),
        "clients" => clients::told(alloc, text),
        "keeper" => keepers::told(alloc, text),
        "shelves" => shelves::told(alloc, text),
        "failing" => streams::failing(alloc, text),
        "sink" => streams::sink(alloc, text),
        "std" => streams::of_std(alloc, text),
        "clock" => clocks::told(alloc, text),
        "batch" => clocks::batch(alloc, text),
        _ => Text::copied(alloc, "no such word"),
    }
}
