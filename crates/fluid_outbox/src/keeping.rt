// What messages say, and what they change of what is kept of an id.
ghost use Rattle.std.specs.Prelude.{◌≡◌, Some, if◌then◌else◌, option_map, bytes_eq};
ghost use Rattle.fluid_json.specs.Printed.{printed};
ghost use Rattle.fluid_json.specs.Tree.{text};
ghost use Rattle.fluid_types.specs.Quorum.{of_leave};
ghost use Rattle.fluid_outbox.specs.Past.{op_of};
ghost use Rattle.fluid_outbox.specs.Kept.{takes, any_takes, acknowledged_one, unless_left, noted};

use crate::line::Line;
use fluid_types::{ClientId, Kind, Message};

/// The id and the client number of an op.
#[tactic(auto, unfolding(crate::specs::Past::op_of))]
pub(crate) fn op_of(message: &Message) -> Option<(&ClientId, u64)>
    ensures { option_map (λ op. (op.0.now, op.1)) result ≡ op_of message.now }
{
    if message.kind != Kind::Op {
        return None;
    }
    let Some(id) = &message.client else {
        return None;
    };
    let Ok(number) = u64::try_from(message.client_number) else {
        return None;
    };
    Some((id, number))
}

/// The data of a leave.
pub(crate) fn left_text(message: &Message) -> Option<&str>
    ensures { option_map (λ left. left.now) result ≡ of_leave message.now.kind message.now.system }
{
    if message.kind != Kind::Leave {
        return None;
    }
    match &message.system {
        Some(text) => Some(text.as_str()),
        None => None,
    }
}

// Whether a text is the JSON text of an id. A name has no character that JSON writes in another way.
fn is_text_of(left: &str, id: &ClientId) -> bool
    ensures { result ≡ bytes_eq left.now (printed (text id.now)) }
{
    let Some(rest) = left.as_bytes().strip_prefix(b"\"") else {
        return false;
    };
    let Some(own) = rest.strip_suffix(b"\"") else {
        return false;
    };
    own == id.as_str().as_bytes()
}

// Whether an op is that of the first edit on its way under an id.
fn takes(line: &Line, id: &ClientId, number: u64) -> bool
    ensures { result ≡ takes (id.now, number) line.now }
{
    line.id == *id && !line.left && line.acknowledged < line.sent && number == line.acknowledged + 1
}

/// Counts the op of the first edit on its way under an id, where it is one.
pub(crate) fn acknowledge(kept: &mut Option<Line>, id: &ClientId, number: u64) -> bool
    ensures taken { result ≡ any_takes (id.now, number) kept.old }
    ensures counted { kept.new ≡ (if result then option_map acknowledged_one kept.old else kept.old) }
{
    let Some(line) = kept else {
        return false;
    };
    if !takes(line, id, number) {
        return false;
    }
    line.acknowledged += 1;
    true
}

/// Notes the leave of an id, where it is one of it.
pub(crate) fn note_leave(kept: &mut Option<Line>, left: &str)
    ensures { kept.new ≡ option_map (noted (Some left.now)) kept.old }
{
    let Some(line) = kept else {
        return;
    };
    if is_text_of(left, &line.id) {
        line.left = true;
    }
}

/// Whether the leave of an id, where one is kept, is this one.
pub(crate) fn is_leave_of(kept: &Option<Line>, left: &str) -> bool
    ensures { unless_left (Some left.now) kept.now ≡ (if result then None else kept.now) }
{
    match kept {
        Some(line) => is_text_of(left, &line.id),
        None => false,
    }
}
