// Whether a summary may be acknowledged, whatever is found of it.
ghost use Rattle.std.specs.Prelude.{◌≡◌, IfOk};
ghost use Rattle.fluid_rules.specs.Scribe.{head_behind, is_stale, is_old};
ghost use Rattle.fluid_scribe.specs.Jobs.{refused_by, may_be_acknowledged};

use fluid_json::{NoMemory, Text};
use fluid_rules::{Proposed, SummaryRule};
use fluid_tree::SummaryRef;
use std::alloc::Global;

/// The rule that refuses a summary whatever is found of it.
pub(crate) fn refused_by(
    alloc: Global,
    last: &Option<SummaryRef>,
    reference: u64,
    proposed: &Proposed,
) -> Result<Option<SummaryRule>, NoMemory>
    ensures { IfOk result (λ rule. rule ≡ refused_by last.now reference proposed.now) }
{
    if is_stale(alloc, last, proposed)? {
        return Ok(Some(SummaryRule::StaleHead));
    }
    if is_old(last, reference) {
        return Ok(Some(SummaryRule::OldReference));
    }
    Ok(None)
}

/// Whether a summary is acknowledged where its tree is found.
pub(crate) fn may_be_acknowledged(
    alloc: Global,
    last: &Option<SummaryRef>,
    reference: u64,
    proposed: &Option<Proposed>,
) -> Result<bool, NoMemory>
    ensures { IfOk result (λ may. may ≡ may_be_acknowledged last.now reference proposed.now) }
{
    let Some(proposed) = proposed else {
        return Ok(false);
    };
    let rule = refused_by(alloc, last, reference, proposed)?;
    Ok(rule.is_none())
}

fn is_stale(alloc: Global, last: &Option<SummaryRef>, proposed: &Proposed) -> Result<bool, NoMemory>
    ensures { IfOk result (λ stale. stale ≡ is_stale last.now proposed.now) }
{
    let head = head_behind(alloc, last)?;
    Ok(proposed.head.as_str() != head.as_str())
}

// The head on which a summary has to build.
fn head_behind(alloc: Global, last: &Option<SummaryRef>) -> Result<Text, NoMemory>
    ensures { IfOk result (λ head. head ≡ head_behind last.now) }
{
    match last {
        Some(ack) => ack.handle.print(alloc),
        None => Text::copied(alloc, ""),
    }
}

fn is_old(last: &Option<SummaryRef>, reference: u64) -> bool
    ensures { result ≡ is_old last.now reference }
{
    match last {
        Some(ack) => reference < ack.number,
        None => false,
    }
}
