// What a connection sends, and the rules by which it refuses.
use crate::records::nack_of;
use crate::words::{number_of, split};
use fluid_codec::{Messages, Reply, print_event, read_message};
use fluid_json::{Bytes, NoMemory, Text};
use fluid_tree::Id;
use fluid_types::{ClientId, CodecFault, DocName, Field, Nack, NackRule, What};
use std::alloc::Global;

// The code, the kind and the text of a rule.
pub(crate) fn rule(alloc: Global, word: &str) -> Result<Text, NoMemory> {
    let rule = rule_of(word);
    let text = rule.text(alloc)?;
    let told = format!(in alloc; "{} {}: {}", rule.code(), rule.kind().name(), text.as_str())?;
    Ok(Text::new(told))
}

fn rule_of(word: &str) -> NackRule {
    match word {
        "gap" => NackRule::Gap,
        "nonexistent" => NackRule::Nonexistent,
        "below" => NackRule::Below,
        "ahead" => NackRule::Ahead,
        "scope" => NackRule::Scope,
        "not-whole" => NackRule::Unread(CodecFault::NotWhole),
        "bad-to" => NackRule::Unread(CodecFault::BadField(Field::To, What::OutOfRange)),
        "not-connected" => NackRule::NotConnected,
        "foreign" => NackRule::ForeignClient,
        "read-only" => NackRule::ReadOnly,
        _ => NackRule::Full,
    }
}

// The text of a reply.
pub(crate) fn sent(alloc: Global, text: &str) -> Result<Text, NoMemory> {
    match reply_of(alloc, text) {
        Ok(reply) => print_event(alloc, &reply),
        Err(fault) => fault.text(alloc),
    }
}

fn reply_of(alloc: Global, text: &str) -> Result<Reply, CodecFault> {
    let (word, rest) = split(text);
    let (first, second) = split(rest);
    match word {
        "connected" => connected(alloc, first, second),
        "refused" => refused(alloc, first, second),
        "op" => ops(alloc, first, second),
        "nack" => nacked(alloc, first, second),
        "deltas" => deltas(alloc, first, second),
        "summary" => Ok(summary(first, second)),
        "object" => object(alloc, first, second),
        _ => Ok(Reply::Stored(id_of(first))),
    }
}

// Behind this many messages, and as which client; with none it only reads.
fn connected(alloc: Global, number: &str, name: &str) -> Result<Reply, CodecFault> {
    let id = if name.is_empty() {
        None
    } else {
        Some(client_of(alloc, name)?)
    };
    Ok(Reply::Connected {
        checkpoint: number_of(number),
        id,
        write: !name.is_empty(),
    })
}

fn client_of(alloc: Global, name: &str) -> Result<ClientId, NoMemory> {
    match ClientId::read(alloc, name) {
        Ok(id) => Ok(id),
        Err(_) => Err(NoMemory),
    }
}

fn document_of(alloc: Global, name: &str) -> Result<DocName, NoMemory> {
    match DocName::read(alloc, name) {
        Ok(name) => Ok(name),
        Err(_) => Err(NoMemory),
    }
}

fn refused(alloc: Global, code: &str, text: &str) -> Result<Reply, CodecFault> {
    let text = Text::copied(alloc, text)?;
    let code = if code == "403" { 403 } else { 400 };
    Ok(Reply::ConnectError { code, text })
}

// The messages that stand behind a semicolon each.
fn messages(alloc: Global, texts: &str) -> Result<Messages, CodecFault> {
    let mut messages = Vec::new(alloc);
    for text in texts.split("; ").skip(1) {
        messages.push(read_message(alloc, text)?)?;
    }
    Ok(Messages::new(messages))
}

fn ops(alloc: Global, name: &str, texts: &str) -> Result<Reply, CodecFault> {
    let name = document_of(alloc, name)?;
    let messages = messages(alloc, texts)?;
    Ok(Reply::Ops { name, messages })
}

fn deltas(alloc: Global, from: &str, texts: &str) -> Result<Reply, CodecFault> {
    let messages = messages(alloc, texts)?;
    Ok(Reply::Deltas {
        from: number_of(from),
        messages,
    })
}

// By this rule, to this document, of the submission in this record: with a full stop to none and of none.
fn nacked(alloc: Global, rule: &str, rest: &str) -> Result<Reply, CodecFault> {
    let (name, text) = split(rest);
    let nack = if text.is_empty() {
        Nack {
            rule: rule_of(rule),
            operation: None,
            minimum: -1,
        }
    } else {
        nack_of(alloc, rule_of(rule), 1, text)?
    };
    let name = if name == "." {
        None
    } else {
        Some(document_of(alloc, name)?)
    };
    Ok(Reply::Nacked { name, nack })
}

fn summary(handle: &str, number: &str) -> Reply {
    match Id::read(handle) {
        Some(_) => Reply::Summary(Some((id_of(handle), number_of(number)))),
        None => Reply::Summary(None),
    }
}

fn object(alloc: Global, id: &str, content: &str) -> Result<Reply, CodecFault> {
    let bytes = if content.is_empty() {
        None
    } else {
        Some(Bytes::copied(alloc, content.as_bytes())?)
    };
    Ok(Reply::Object {
        id: id_of(id),
        bytes,
    })
}

// The bytes of an id; zeros where the text is none.
fn id_of(text: &str) -> [u8; 20] {
    let mut bytes = [0; 20];
    if let Some(id) = Id::read(text) {
        bytes.copy_from_slice(id.as_bytes());
    }
    bytes
}
