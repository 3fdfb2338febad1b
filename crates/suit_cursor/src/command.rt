//! Borrowed commands.

ghost use Rattle.std.specs.Prelude.{◌≡◌, IsOk, Ok};
ghost use Rattle.suit_commands.specs.Judged.{inner_by};
ghost use Rattle.suit_commands.specs.SequenceReading.{selection_from, run_from, argument_from};
ghost use Rattle.suit_cursor.specs.Lending.{selection_of, command_of};

use crate::branches::lend_try;
use crate::entering::enter_held;
use crate::indices::lend_indices;
use crate::params::lend_override;
use crate::{LentBranches, LentIndices, LentSequence, ParamView};
use det_cbor::{Cursor, HeadKind};
use suit_commands::{ActKind, CommandCode, Rules, TestKind, read_report};
use suit_params::{Why, component_index, read_head, read_kind};

/// A borrowed command, and the place of its code in bytes from the start of the envelope.
#[derive(Drop)]
pub struct Lent<'a> {
    pub place: u64,
    pub command: LentCommand<'a>,
}

/// A borrowed condition or directive with its argument (draft-ietf-suit-manifest-25, sections 8.4.9
/// and 8.4.10).
#[derive(Drop)]
pub enum LentCommand<'a> {
    /// A condition and its reporting policy.
    Test { kind: TestKind, report: u8 },
    /// A directive that acts on contents, and its reporting policy.
    Act { kind: ActKind, report: u8 },
    /// Sets the component index.
    Index(LentSelection<'a>),
    /// Overrides parameters.
    Override(ParamView<'a>),
    TryEach(LentBranches<'a>),
    /// Runs a sequence.
    Run(LentSequence<'a>),
}

/// The borrowed argument of a set component index (draft-ietf-suit-manifest-25, section 8.4.10.1).
#[derive(Drop)]
pub enum LentSelection<'a> {
    /// The component with this index.
    One(u32),
    /// Every component of the manifest, in ascending order.
    All,
    /// These components, in this order. An index may occur more than once.
    Listed(LentIndices<'a>),
}

// Borrows the argument of the set component index at the cursor.
#[tactic(auto, unfolding(suit_commands::specs::SequenceReading::selection_from))]
fn lend_selection<'a>(cursor: &mut Cursor<'a>, count: u32) -> LentSelection<'a>
    requires { IsOk (selection_from count cursor.old) }
    ensures { selection_from count cursor.old ≡ Ok (selection_of result, cursor.new) }
{
    let place = cursor.place();
    let head = read_head(cursor).unwrap();
    match head.kind {
        HeadKind::Unsigned => {
            LentSelection::One(component_index(place, head.value, count).unwrap())
        }
        HeadKind::Array => { LentSelection::Listed(lend_indices(cursor, place, head.value, count)) }
        _ => LentSelection::All,
    }
}

// Borrows the sequence that a byte string holds.
#[tactic(auto, unfolding(suit_commands::specs::SequenceReading::run_from))]
fn lend_run<'a>(cursor: &mut Cursor<'a>, rules: Rules) -> LentSequence<'a>
    requires { IsOk (run_from (inner_by rules) cursor.old) }
    ensures { run_from (inner_by rules) cursor.old ≡ Ok (result, cursor.new) }
{
    let place = cursor.place();
    let length = read_kind(cursor, HeadKind::Bytes, Why::BadArgument).unwrap();
    enter_held(cursor, place, length, rules)
}

/// Borrows the command with this code, whose argument is at the cursor.
pub(crate) fn lend_command<'a>(
    cursor: &mut Cursor<'a>,
    code: CommandCode,
    rules: Rules,
) -> LentCommand<'a>
    requires { IsOk (argument_from (inner_by rules) rules.count code cursor.old) }
    ensures { argument_from (inner_by rules) rules.count code cursor.old
        ≡ Ok (command_of result, cursor.new) }
{
    match code {
        CommandCode::Test(kind) => {
            let report = read_report(cursor).unwrap();
            LentCommand::Test { kind, report }
        }
        CommandCode::Act(kind) => {
            let report = read_report(cursor).unwrap();
            LentCommand::Act { kind, report }
        }
        CommandCode::Index => LentCommand::Index(lend_selection(cursor, rules.count)),
        CommandCode::TryEach => LentCommand::TryEach(lend_try(cursor, rules)),
        CommandCode::Override => LentCommand::Override(lend_override(cursor, rules.count)),
        CommandCode::Run => LentCommand::Run(lend_run(cursor, rules)),
    }
}
