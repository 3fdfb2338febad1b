//! Judging sequences of commands, and the sequences inside them, without keeping them.

ghost use Rattle.std.specs.Prelude.{◌≡◌, ◌+◌, ◌<◌, ◌^◌, length};
ghost use Rattle.det_cbor.specs.HeadReading.{map_ok};
ghost use Rattle.suit_params.specs.ParamReading.{next_params};
ghost use Rattle.suit_commands.specs.Allowed.{levels_inside};
ghost use Rattle.suit_commands.specs.Judged.{inner_by, behind};
ghost use Rattle.suit_commands.specs.SequenceReading.{indices_from, selection_from, override_from, run_from, branch_from, branches_from, try_from, argument_from, step_from, steps_from, sequence_at, whole_sequence};

use crate::argument::{read_element, read_report};
use crate::command_code::{CommandCode, read_code};
use crate::decode::MAX_LEVELS;
use crate::rules::Rules;
use det_cbor::{Cursor, HeadKind};
use suit_params::{
    Refusal, Why, component_index, judge_params, next_content, only_item, read_head, read_item,
    read_kind, refused, same_place,
};

// Judges `elements` elements of the list whose place is `list`.
fn judge_indices(
    cursor: &mut Cursor<'_>,
    list: u64,
    elements: u64,
    count: u32,
) -> Result<(), Refusal>
    ensures { map_ok (λ _. cursor.new) result
        ≡ behind (indices_from count list elements cursor.old) }
{
    for _ in 0..elements {
        read_element(cursor, list, count)?;
    }
    Ok(())
}

// Judges the argument of a set component index.
#[tactic(auto, unfolding(crate::specs::SequenceReading::selection_from))]
fn judge_selection(cursor: &mut Cursor<'_>, count: u32) -> Result<(), Refusal>
    ensures { map_ok (λ _. cursor.new) result ≡ behind (selection_from count cursor.old) }
{
    let place = cursor.place();
    let head = read_head(cursor)?;
    match head.kind {
        HeadKind::Unsigned => {
            component_index(place, head.value, count)?;
            Ok(())
        }
        HeadKind::Bool => {
            if head.value == 1 {
                Ok(())
            } else {
                refused(place, Why::BadArgument)
            }
        }
        HeadKind::Array => {
            if head.value == 0 {
                refused(place, Why::BadArgument)
            } else {
                judge_indices(cursor, place, head.value, count)
            }
        }
        _ => refused(place, Why::BadArgument),
    }
}

// Judges the next item, which is a map, as parameters.
fn judge_map(cursor: &mut Cursor<'_>, count: u32) -> Result<(), Refusal>
    ensures { map_ok (λ _. cursor.new) result ≡ behind (next_params count cursor.old) }
{
    let item = read_item(cursor)?;
    judge_params(item, count)
}

// Judges the parameters of an override.
#[tactic(auto, unfolding(crate::specs::SequenceReading::override_from))]
fn judge_override(cursor: &mut Cursor<'_>, count: u32) -> Result<(), Refusal>
    ensures { map_ok (λ _. cursor.new) result ≡ behind (override_from count cursor.old) }
{
    let mut ahead = same_place(cursor);
    read_kind(&mut ahead, HeadKind::Map, Why::BadArgument)?;
    judge_map(cursor, count)
}

// Judges the content of a byte string as a sequence. `place` is that of the byte string.
#[cycle(judge)]
#[tactic(auto, using(crate::proofs::Nesting::nested_above, crate::proofs::Nesting::nested_none))]
fn judge_nested(place: u64, content: Cursor<'_>, rules: Rules) -> Result<(), Refusal>
    ensures { result ≡ map_ok (λ _. tt) (inner_by rules place content.entry) }
{
    if rules.levels == 0 {
        return refused(place, Why::Nested);
    }
    let item = only_item(content)?;
    let inside = Rules {
        levels: rules.levels - 1,
        shared: rules.shared,
        count: rules.count,
    };
    judge_array(item, inside)
}

// Judges a whole item as a sequence.
#[cycle(judge)]
#[tactic(auto, unfolding(crate::specs::SequenceReading::sequence_at))]
fn judge_array(mut item: Cursor<'_>, rules: Rules) -> Result<(), Refusal>
    ensures { result ≡ map_ok (λ _. tt)
        (sequence_at (inner_by rules) rules.shared rules.count item.entry) }
{
    let place = item.place();
    let elements = read_kind(&mut item, HeadKind::Array, Why::Shape)?;
    if elements == 0 {
        refused(place, Why::Shape)
    } else if elements % 2 == 0 {
        judge_steps(item, elements / 2, rules)
    } else {
        refused(place, Why::Shape)
    }
}

// Judges the next `steps` commands.
#[cycle(judge)]
fn judge_steps(mut cursor: Cursor<'_>, steps: u64, rules: Rules) -> Result<(), Refusal>
    ensures { result ≡ map_ok (λ _. tt)
        (steps_from (inner_by rules) rules.shared rules.count steps cursor.entry) }
{
    for _ in 0..steps {
        judge_step(&mut cursor, rules)?;
    }
    Ok(())
}

// Judges a command's code and its argument.
#[cycle(judge)]
fn judge_step(cursor: &mut Cursor<'_>, rules: Rules) -> Result<(), Refusal>
    ensures { map_ok (λ _. cursor.new) result
        ≡ behind (step_from (inner_by rules) rules.shared rules.count cursor.old) }
{
    let code = read_code(cursor, rules.shared)?;
    judge_argument(cursor, code, rules)
}

#[cycle(judge)]
fn judge_argument(cursor: &mut Cursor<'_>, code: CommandCode, rules: Rules) -> Result<(), Refusal>
    ensures { map_ok (λ _. cursor.new) result
        ≡ behind (argument_from (inner_by rules) rules.count code cursor.old) }
{
    match code {
        CommandCode::Test(_) | CommandCode::Act(_) => {
            read_report(cursor)?;
            Ok(())
        }
        CommandCode::Index => judge_selection(cursor, rules.count),
        CommandCode::TryEach => judge_try(cursor, rules),
        CommandCode::Override => judge_override(cursor, rules.count),
        CommandCode::Run => judge_run(cursor, rules),
    }
}

// Judges the sequence that a byte string holds.
#[cycle(judge)]
#[tactic(auto, unfolding(crate::specs::SequenceReading::run_from))]
fn judge_run(cursor: &mut Cursor<'_>, rules: Rules) -> Result<(), Refusal>
    ensures { map_ok (λ _. cursor.new) result ≡ behind (run_from (inner_by rules) cursor.old) }
{
    let place = cursor.place();
    let length = read_kind(cursor, HeadKind::Bytes, Why::BadArgument)?;
    let content = next_content(cursor, length)?;
    judge_nested(place, content, rules)
}

#[cycle(judge)]
#[tactic(auto, unfolding(crate::specs::SequenceReading::try_from))]
fn judge_try(cursor: &mut Cursor<'_>, rules: Rules) -> Result<(), Refusal>
    ensures { map_ok (λ _. cursor.new) result ≡ behind (try_from (inner_by rules) cursor.old) }
{
    let place = cursor.place();
    let number = read_kind(cursor, HeadKind::Array, Why::BadArgument)?;
    if number < 2 {
        refused(place, Why::BadArgument)
    } else {
        judge_branches(cursor, number, rules)
    }
}

// Judges the next `number` branches.
#[cycle(judge)]
fn judge_branches(cursor: &mut Cursor<'_>, number: u64, rules: Rules) -> Result<(), Refusal>
    ensures { map_ok (λ _. cursor.new) result
        ≡ behind (branches_from (inner_by rules) number cursor.old) }
{
    for done in 0..number {
        let others = number - done - 1;
        judge_branch(cursor, others == 0, rules)?;
    }
    Ok(())
}

// Judges a branch: a sequence, or null if it is the last.
#[cycle(judge)]
#[tactic(auto, unfolding(crate::specs::SequenceReading::branch_from))]
fn judge_branch(cursor: &mut Cursor<'_>, last: bool, rules: Rules) -> Result<(), Refusal>
    ensures { map_ok (λ _. cursor.new) result
        ≡ behind (branch_from (inner_by rules) last cursor.old) }
{
    let place = cursor.place();
    let head = read_head(cursor)?;
    match head.kind {
        HeadKind::Bytes => {
            let content = next_content(cursor, head.value)?;
            judge_nested(place, content, rules)
        }
        HeadKind::Null => {
            if last {
                Ok(())
            } else {
                refused(place, Why::BadArgument)
            }
        }
        _ => refused(place, Why::BadArgument),
    }
}

/// Judges the bytes as `decode_sequence` does (draft-ietf-suit-manifest-25, section 8.4.6): the
/// answer is `Ok` if and only if they can be decoded, and otherwise the same refusal. Builds no
/// tree and allocates nothing.
pub fn judge_sequence(bytes: &[u8], place: u64, shared: bool, count: u32) -> Result<(), Refusal>
    requires { place + length bytes.now < 2 ^ 64 }
    ensures { result ≡ map_ok (λ _. tt)
        (whole_sequence shared count levels_inside (record { left = bytes.now; place = place })) }
{
    let item = only_item(Cursor::new(bytes, place))?;
    let rules = Rules {
        levels: MAX_LEVELS - 1,
        shared,
        count,
    };
    judge_array(item, rules)
}
