//! What steps write.
ghost use Rattle.std.specs.Prelude.{◌≡◌, [], ◌∷◌, ◌++◌, List, ℕ, IfOk, OnOk, map, codes};
ghost use Rattle.fluid_transcript.specs.Transcript.{written};
ghost use Rattle.fluid_transcript.specs.Lines as lines;

use fluid_codec::{Reply, print_event};
use fluid_json::{NoMemory, Text};
use fluid_steps::ScriptName;
use fluid_tree::Id;
use std::alloc::Global;
use std::marker::Model;

/// Lines, each with its end. Contracts see the bytes.
#[derive(Drop)]
pub struct Written {
    bytes: Vec<u8>,
}

impl Model for Written {
    ghost use Rattle.std.specs.Prelude.{List, ℕ};

    ghost Value = { List ℕ };

    ghost view = { λ w. w.bytes.items };
}

impl Written {
    /// No lines. Takes no memory.
    pub fn none(alloc: Global) -> Written
        ensures { result ≡ [] }
    {
        Written {
            bytes: Vec::new(alloc),
        }
    }

    /// One line.
    pub fn one(alloc: Global, line: &str) -> Result<Written, NoMemory>
        ensures { IfOk result (λ lines. lines ≡ written (line.now ∷ [])) }
    {
        let mut lines = Written::none(alloc);
        lines.push(line)?;
        Ok(lines)
    }

    pub fn as_slice(&self) -> &[u8]
        ensures { result.now ≡ self.now }
    {
        self.bytes.as_slice()
    }

    /// Puts a line behind the others.
    pub fn push(&mut self, line: &str) -> Result<(), NoMemory>
        ensures { OnOk result (self.new ≡ self.old ++ written (line.now ∷ [])) }
    {
        self.bytes.extend_from_slice(line.as_bytes())?;
        self.bytes.push(b'\n')?;
        Ok(())
    }

    /// Puts the line for what a connection was told behind the others.
    pub fn push_reply(
        &mut self,
        alloc: Global,
        name: &ScriptName,
        reply: &Reply,
    ) -> Result<(), NoMemory>
        ensures { OnOk result (self.new ≡ self.old ++ written (lines.reply_line name.now reply.now ∷ [])) }
    {
        let event = print_event(alloc, reply)?;
        let line = told_line(alloc, name, event.as_str())?;
        self.push(line.as_str())
    }

    /// Puts a line for each reply behind the others.
    pub(crate) fn push_replies(
        &mut self,
        alloc: Global,
        name: &ScriptName,
        replies: &[Reply],
    ) -> Result<(), NoMemory>
        ensures { OnOk result (self.new ≡ self.old ++ written (map (lines.reply_line name.now) replies.now)) }
    {
        for reply in replies {
            self.push_reply(alloc, name, reply)?;
        }
        Ok(())
    }

    /// Puts the line for a clash behind the others: other bytes are held under this id.
    pub(crate) fn push_clash(
        &mut self,
        alloc: Global,
        name: &ScriptName,
        id: &Id,
    ) -> Result<(), NoMemory>
        ensures { OnOk result (self.new ≡ self.old ++ written (lines.clash_line name.now id.now ∷ [])) }
    {
        let digits = id.print(alloc)?;
        let line = clash_line(alloc, name, digits.as_str())?;
        self.push(line.as_str())
    }
}

fn told_line(alloc: Global, name: &ScriptName, event: &str) -> Result<Text, NoMemory>
    ensures { IfOk result (λ line. line ≡ lines.of_name name.now (codes "< " ++ event.now)) }
{
    let name = name.as_str();
    let line = format!(in alloc; "{name} < {event}")?;
    Ok(Text::new(line))
}

fn clash_line(alloc: Global, name: &ScriptName, digits: &str) -> Result<Text, NoMemory>
    ensures { IfOk result (λ line. line ≡ lines.of_name name.now (codes "clash " ++ digits.now)) }
{
    let name = name.as_str();
    let line = format!(in alloc; "{name} clash {digits}")?;
    Ok(Text::new(line))
}
