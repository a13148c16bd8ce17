// Nacks and verdict lines, printed.
ghost use Rattle.std.specs.Prelude.{◌≡◌, ◌++◌, IfOk, OnOk, OnErr};
ghost use Rattle.fluid_types.specs.Printed.{verdict_line, client_of};

use crate::rows::{Members, Print, member, print_object, print_text, push_text};
use fluid_json::{NoMemory, Printer, Text};
use fluid_types::{Field, Nack, NackRule, Raw, Verdict};
use std::alloc::Global;

/// The line of an entry's verdict, without its end.
pub fn print_verdict(alloc: Global, raw: &Raw, verdict: &Verdict) -> Result<Text, NoMemory>
    ensures { IfOk result (λ s. s ≡ verdict_line raw.now verdict.now) }
{
    print_text(alloc, &Line { raw, verdict })
}

/// Puts the line of an entry's verdict, without its end, behind these bytes. Where memory runs out they stay as they were.
pub fn push_verdict(
    alloc: Global,
    bytes: &mut Vec<u8>,
    raw: &Raw,
    verdict: &Verdict,
) -> Result<(), NoMemory>
    ensures ok { OnOk result (bytes.new.items ≡ bytes.old.items ++ verdict_line raw.now verdict.now) }
    ensures err { OnErr result (bytes.new.items ≡ bytes.old.items) }
{
    push_text(alloc, bytes, &Line { raw, verdict })
}

#[derive(Drop)]
struct Line<'a> {
    raw: &'a Raw,
    verdict: &'a Verdict,
}

impl Print for Line<'_> {
    ghost use Rattle.fluid_types.specs.Printed.{verdict_tree};

    ghost tree = { λ line. verdict_tree line.raw.now line.verdict.now };

    fn print(&self, alloc: Global, out: &mut Printer) -> Result<(), NoMemory> {
        print_object(alloc, out, self)
    }
}

impl Members for Line<'_> {
    ghost use Rattle.fluid_types.specs.Printed.{verdict_rows};

    ghost rows = { λ line. verdict_rows line.raw.now line.verdict.now };

    #[tactic(auto, unfolding(fluid_types::specs::Printed::verdict_rows))]
    fn print_members(&self, alloc: Global, out: &mut Printer) -> Result<(), NoMemory> {
        match self.verdict {
            Verdict::Sequenced(message) => member(alloc, out, Field::Sequenced, message),
            Verdict::Nacked(nack) => {
                member(alloc, out, Field::ClientId, &Client(self.raw))?;
                member(alloc, out, Field::Nacked, nack)?;
                Ok(())
            }
            Verdict::Dropped => member(alloc, out, Field::Dropped, &true),
            Verdict::Absorbed => member(alloc, out, Field::Absorbed, &true),
        }
    }
}

/// The client of an entry.
#[derive(Drop)]
struct Client<'a>(&'a Raw);

impl Print for Client<'_> {
    ghost use Rattle.fluid_json.specs.Tree.{text};
    ghost use Rattle.fluid_types.specs.Printed.{or_null, client_of};

    ghost tree = { λ client. or_null text (client_of client.0.now) };

    fn print(&self, alloc: Global, out: &mut Printer) -> Result<(), NoMemory> {
        match self.0 {
            Raw::Join { id, .. } | Raw::Leave { id, .. } | Raw::Submit { id, .. } => id.print(
                alloc, out,
            ),
            Raw::Report { .. } => out.null(),
        }
    }
}

impl Print for Nack {
    ghost use Rattle.fluid_types.specs.Printed.{nack_tree};

    ghost tree = { nack_tree };

    fn print(&self, alloc: Global, out: &mut Printer) -> Result<(), NoMemory> {
        print_object(alloc, out, self)
    }
}

impl Members for Nack {
    ghost use Rattle.fluid_types.specs.Printed.{nack_rows};

    ghost rows = { nack_rows };

    #[tactic(auto, unfolding(fluid_types::specs::Printed::nack_rows))]
    fn print_members(&self, alloc: Global, out: &mut Printer) -> Result<(), NoMemory> {
        member(alloc, out, Field::Content, &self.rule)?;
        member(alloc, out, Field::Operation, &self.operation)?;
        member(alloc, out, Field::SequenceNumber, &self.minimum)?;
        Ok(())
    }
}

/// The content of a nack.
impl Print for NackRule {
    ghost use Rattle.fluid_types.specs.Printed.{content_tree};

    ghost tree = { content_tree };

    fn print(&self, alloc: Global, out: &mut Printer) -> Result<(), NoMemory> {
        print_object(alloc, out, self)
    }
}

impl Members for NackRule {
    ghost use Rattle.fluid_types.specs.Printed.{content_rows};

    ghost rows = { content_rows };

    #[tactic(auto, unfolding(fluid_types::specs::Printed::content_rows))]
    fn print_members(&self, alloc: Global, out: &mut Printer) -> Result<(), NoMemory> {
        member(alloc, out, Field::Code, &self.code())?;
        match self.words() {
            Ok(words) => member(alloc, out, Field::Message, &words)?,
            Err(_) => member(alloc, out, Field::Message, &self.text(alloc)?)?,
        }
        member(alloc, out, Field::Type, &self.kind().name())?;
        Ok(())
    }
}
