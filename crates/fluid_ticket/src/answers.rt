// What the answers to a summary say.
ghost use Rattle.std.specs.Prelude.{◌≡◌, ◌<◌, ◌^◌, ◌++◌, ◌∷◌, [], IfOk};
ghost use Rattle.fluid_json.specs.Tree.{members, AreAscending};
ghost use Rattle.fluid_types.specs.Printed.{row};
ghost use Rattle.fluid_rules.specs.Scribe.{proposal_tree, ack_contents, refusal_contents};

use fluid_json::{Json, NoMemory, Pairs, Text};
use fluid_rules::SummaryRule;
use fluid_tree::Id;
use fluid_types::Field;
use std::alloc::Global;

// The contents of a summaryAck with this handle.
pub(crate) fn ack_contents(alloc: Global, summary: u64, handle: Id) -> Result<Json, NoMemory>
    requires { summary < 2 ^ 63 }
    ensures { IfOk result (λ contents. contents ≡ ack_contents summary handle) }
{
    let handle = handle.print(alloc)?;
    let proposal = proposal_of(alloc, summary)?;
    let mut pairs = Pairs::with_capacity(alloc, 2)?;
    put(alloc, &mut pairs, Field::Handle, Json::text(handle))?;
    put(alloc, &mut pairs, Field::SummaryProposal, proposal)?;
    Ok(Json::object(pairs))
}

// The contents of a summaryNack by this rule.
pub(crate) fn refusal_contents(
    alloc: Global,
    summary: u64,
    rule: SummaryRule,
) -> Result<Json, NoMemory>
    requires { summary < 2 ^ 63 }
    ensures { IfOk result (λ contents. contents ≡ refusal_contents summary rule) }
{
    let text = Text::copied(alloc, rule.text())?;
    let proposal = proposal_of(alloc, summary)?;
    let mut pairs = Pairs::with_capacity(alloc, 3)?;
    put(alloc, &mut pairs, Field::Code, Json::whole(400))?;
    put(alloc, &mut pairs, Field::Message, Json::text(text))?;
    put(alloc, &mut pairs, Field::SummaryProposal, proposal)?;
    Ok(Json::object(pairs))
}

// Which summarize is answered.
fn proposal_of(alloc: Global, summary: u64) -> Result<Json, NoMemory>
    requires { summary < 2 ^ 63 }
    ensures { IfOk result (λ proposal. proposal ≡ proposal_tree summary) }
{
    let mut pairs = Pairs::with_capacity(alloc, 1)?;
    let number = Json::whole(summary as i64);
    put(alloc, &mut pairs, Field::SummarySequenceNumber, number)?;
    Ok(Json::object(pairs))
}

// Puts a member behind others.
fn put(alloc: Global, pairs: &mut Pairs, field: Field, value: Json) -> Result<(), NoMemory>
    requires { AreAscending (members (pairs.old ++ row field value ∷ [])) }
    ensures { IfOk result (λ _. pairs.new ≡ pairs.old ++ row field value ∷ []) }
{
    let name = Text::copied(alloc, field.name())?;
    pairs.push(name, value)?;
    Ok(())
}
