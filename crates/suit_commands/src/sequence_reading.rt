//! Reading sequences of commands, and the sequences inside them, from items that were judged
//! before.

ghost use Rattle.std.specs.Prelude.{◌≡◌};
ghost use Rattle.det_cbor.specs.HeadReading.{map_ok};
ghost use Rattle.suit_params.specs.Reading.{string_from};
ghost use Rattle.suit_params.specs.Answering.{Gives};
ghost use Rattle.suit_commands.specs.View.{command_tree};
ghost use Rattle.suit_commands.specs.SequenceReading.{held_sequence, run_from, branch_from, branches_from, try_from, argument_from, step_from, steps_from, sequence_at, inner_reader};

use crate::argument::{read_override, read_report, read_selection};
use crate::command_code::{CommandCode, read_code};
use crate::scope::Scope;
use crate::{Branches, Command, Sequence, Step};
use det_cbor::{Cursor, HeadKind};
use suit_params::{Fault, Why, next_content, only_item, read_head, read_kind, refused};

// Reads the content of a byte string as a sequence. `place` is that of the byte string.
#[cycle(read)]
#[tactic(auto, using(crate::proofs::Nesting::nested_above, crate::proofs::Nesting::nested_none))]
fn read_nested(place: u64, content: Cursor<'_>, scope: Scope) -> Result<Sequence, Fault>
    ensures { Gives (λ s. s) result (inner_reader scope place content.entry) }
{
    if scope.levels == 0 {
        return Ok(refused(place, Why::Nested)?);
    }
    let item = only_item(content)?;
    let inside = Scope {
        alloc: scope.alloc,
        levels: scope.levels - 1,
        shared: scope.shared,
        count: scope.count,
    };
    read_array(item, inside)
}

/// Reads a whole item as a sequence.
#[cycle(read)]
#[tactic(auto, unfolding(crate::specs::SequenceReading::sequence_at))]
pub(crate) fn read_array(mut item: Cursor<'_>, scope: Scope) -> Result<Sequence, Fault>
    ensures { Gives (λ s. s) result
        (sequence_at (inner_reader scope) scope.shared scope.count item.entry) }
{
    let place = item.place();
    let elements = read_kind(&mut item, HeadKind::Array, Why::Shape)?;
    if elements == 0 {
        Ok(refused(place, Why::Shape)?)
    } else if elements % 2 == 0 {
        read_steps(item, elements / 2, scope)
    } else {
        Ok(refused(place, Why::Shape)?)
    }
}

// Reads the next `steps` commands.
#[cycle(read)]
fn read_steps(mut cursor: Cursor<'_>, steps: u64, scope: Scope) -> Result<Sequence, Fault>
    ensures { Gives (λ s. s) result
        (steps_from (inner_reader scope) scope.shared scope.count steps cursor.entry) }
{
    let mut sequence = Sequence::with_room(scope.alloc, steps as usize)?;
    for _ in 0..steps {
        let place = cursor.place();
        let command = read_step(&mut cursor, scope)?;
        sequence.push(Step { place, command })?;
    }
    Ok(sequence)
}

// Reads a command's code and its argument.
#[cycle(read)]
fn read_step(cursor: &mut Cursor<'_>, scope: Scope) -> Result<Command, Fault>
    ensures { Gives (λ c. (command_tree c, cursor.new)) result
        (step_from (inner_reader scope) scope.shared scope.count cursor.old) }
{
    let code = read_code(cursor, scope.shared)?;
    read_argument(cursor, code, scope)
}

#[cycle(read)]
fn read_argument(cursor: &mut Cursor<'_>, code: CommandCode, scope: Scope) -> Result<Command, Fault>
    ensures { Gives (λ c. (command_tree c, cursor.new)) result
        (argument_from (inner_reader scope) scope.count code cursor.old) }
{
    match code {
        CommandCode::Test(kind) => {
            let report = read_report(cursor)?;
            Ok(Command::Test { kind, report })
        }
        CommandCode::Act(kind) => {
            let report = read_report(cursor)?;
            Ok(Command::Act { kind, report })
        }
        CommandCode::Index => Ok(Command::Index(read_selection(cursor, scope)?)),
        CommandCode::TryEach => {
            let branches = read_try(cursor, scope)?;
            Ok(Command::TryEach(branches))
        }
        CommandCode::Override => Ok(Command::Override(read_override(cursor, scope)?)),
        CommandCode::Run => {
            let inner = read_run(cursor, scope)?;
            Ok(Command::Run(inner))
        }
    }
}

// Reads the sequence that a byte string holds.
#[cycle(read)]
#[tactic(auto, unfolding(crate::specs::SequenceReading::run_from))]
fn read_run(cursor: &mut Cursor<'_>, scope: Scope) -> Result<Sequence, Fault>
    ensures { Gives (λ s. (s, cursor.new)) result
        (run_from (inner_reader scope) cursor.old) }
{
    let place = cursor.place();
    let length = read_kind(cursor, HeadKind::Bytes, Why::BadArgument)?;
    let content = next_content(cursor, length)?;
    read_nested(place, content, scope)
}

#[cycle(read)]
#[tactic(auto, unfolding(crate::specs::SequenceReading::try_from))]
fn read_try(cursor: &mut Cursor<'_>, scope: Scope) -> Result<Branches, Fault>
    ensures { Gives (λ bs. (bs, cursor.new)) result
        (try_from (inner_reader scope) cursor.old) }
{
    let place = cursor.place();
    let number = read_kind(cursor, HeadKind::Array, Why::BadArgument)?;
    if number < 2 {
        Ok(refused(place, Why::BadArgument)?)
    } else {
        read_branches(cursor, number, scope)
    }
}

// Reads the next `number` branches.
#[cycle(read)]
fn read_branches(cursor: &mut Cursor<'_>, number: u64, scope: Scope) -> Result<Branches, Fault>
    ensures { Gives (λ bs. (bs, cursor.new)) result
        (branches_from (inner_reader scope) number cursor.old) }
{
    let mut branches = Branches::with_room(scope.alloc, number as usize)?;
    for done in 0..number {
        let others = number - done - 1;
        let branch = read_branch(cursor, others == 0, scope)?;
        branches.push(branch)?;
    }
    Ok(branches)
}

// Reads a branch: a sequence, or null if it is the last.
#[cycle(read)]
#[tactic(auto, unfolding(crate::specs::SequenceReading::branch_from))]
fn read_branch(cursor: &mut Cursor<'_>, last: bool, scope: Scope) -> Result<Option<Sequence>, Fault>
    ensures { Gives (λ b. (b, cursor.new)) result
        (branch_from (inner_reader scope) last cursor.old) }
{
    let place = cursor.place();
    let head = read_head(cursor)?;
    match head.kind {
        HeadKind::Bytes => {
            let content = next_content(cursor, head.value)?;
            let inner = read_nested(place, content, scope)?;
            Ok(Some(inner))
        }
        HeadKind::Null => {
            if last {
                Ok(None)
            } else {
                Ok(refused(place, Why::BadArgument)?)
            }
        }
        _ => Ok(refused(place, Why::BadArgument)?),
    }
}
