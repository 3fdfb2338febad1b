//! Commands.

ghost use Rattle.std.specs.Prelude.{◌≡◌, IfOk};
ghost use Rattle.serde_json.specs.Data.{array};
ghost use Rattle.serde_json.specs.View.{view};
ghost use Rattle.suit_commands.specs.View.{command_tree};
ghost use Rattle.describe.specs.CommandData.{command_name, named, sequence_data, command_data, branch_data};

use crate::params::params;
use crate::selection::selection;
use serde_json::Value;
use std::alloc::{AllocError, Global};
use suit_commands::{ActKind, Branches, Command, Sequence, TestKind};

fn command_name(command: &Command) -> &'static str
    ensures { result.now ≡ command_name (command_tree command.now) }
{
    match command {
        Command::Test { kind, .. } => match kind {
            TestKind::Vendor => "vendor",
            TestKind::Class => "class",
            TestKind::Device => "device",
            TestKind::Slot => "slot",
            TestKind::ImageMatch => "match",
            TestKind::CheckContent => "content",
            TestKind::Abort => "abort",
        },
        Command::Act { kind, .. } => match kind {
            ActKind::Write => "write",
            ActKind::Fetch => "fetch",
            ActKind::Copy => "copy",
            ActKind::Invoke => "invoke",
            ActKind::Swap => "swap",
        },
        Command::Index(_) => "index",
        Command::Override(_) => "set",
        Command::TryEach(_) => "try",
        Command::Run(_) => "run",
    }
}

// Writes an array of a name and an argument.
fn named(alloc: Global, name: &str, argument: Value) -> Result<Value, AllocError>
    ensures { IfOk result (λ v. view v ≡ named name.now (view argument)) }
{
    let mut values = Vec::new(alloc);
    values.push(Value::try_from_str(alloc, name)?)?;
    values.push(argument)?;
    Ok(Value::from(values))
}

/// Writes an array of commands, in order, as deep as the sequences are nested. Does not write their places.
#[cycle(describing)]
pub(crate) fn sequence(alloc: Global, sequence: &Sequence) -> Result<Value, AllocError>
    ensures { IfOk result (λ v. view v ≡ sequence_data sequence.now) }
{
    let mut values = Vec::new(alloc);
    for step in sequence.as_slice() {
        values.push(command(alloc, &step.command)?)?;
    }
    Ok(Value::from(values))
}

#[cycle(describing)]
fn command(alloc: Global, command: &Command) -> Result<Value, AllocError>
    ensures { IfOk result (λ v. view v ≡ command_data (command_tree command.now)) }
{
    let name = command_name(command);
    match command {
        Command::Test { report, .. } => named(alloc, name, Value::from(*report)),
        Command::Act { report, .. } => named(alloc, name, Value::from(*report)),
        Command::Index(chosen) => named(alloc, name, selection(alloc, chosen)?),
        Command::Override(list) => named(alloc, name, params(alloc, list)?),
        Command::TryEach(tries) => named(alloc, name, branches(alloc, tries)?),
        Command::Run(inner) => named(alloc, name, sequence(alloc, inner)?),
    }
}

#[cycle(describing)]
fn branches(alloc: Global, branches: &Branches) -> Result<Value, AllocError>
    ensures { IfOk result (λ v. view v ≡ array (branch_data branches.now)) }
{
    let mut values = Vec::new(alloc);
    for branch in branches.as_slice() {
        match branch {
            Some(inner) => values.push(sequence(alloc, inner)?)?,
            None => values.push(Value::from(()))?,
        }
    }
    Ok(Value::from(values))
}
