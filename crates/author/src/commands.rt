//! Commands in a description.

ghost use Rattle.std.specs.Prelude.{◌≡◌};
ghost use Rattle.serde_json.specs.View.{view};
ghost use Rattle.json_fields.specs.Answers.{Gives};
ghost use Rattle.suit_commands.specs.View.{command_tree};
ghost use Rattle.author.specs.Commands.{argument, sequence_of, command_of, command_named, tries_of, branch_of};
ghost use Rattle.json_fields.specs.Values.{number_up_to};

use crate::command_name::{CommandName, name};
use crate::elements::{elements, pair};
use crate::index_argument::selection;
use crate::param_fields::params;
use crate::scope::Scope;
use json_fields::{FlawKind, JsonFault, at_index, flawed, number};
use serde_json::Value;
use std::alloc::Global;
use suit_commands::{Branches, Command, Sequence, Step};

/// Reads a sequence of commands, nested at most `levels` levels deep.
#[cycle(commands)]
pub(crate) fn sequence(
    alloc: Global,
    value: &Value,
    scope: &Scope<'_>,
    levels: u8,
) -> Result<Sequence, JsonFault>
    ensures { Gives (λ s. s) result (sequence_of scope.now levels (view value.now)) }
{
    let values = elements(value);
    if levels == 0 || values.is_empty() {
        return flawed(alloc, FlawKind::Field);
    }
    let mut sequence = Sequence::new(alloc);
    for (index, value) in values.iter().enumerate() {
        match command(alloc, value, scope, levels - 1) {
            Ok(command) => sequence.push(Step { place: 0, command })?,
            Err(fault) => return at_index(alloc, index, Err(fault)),
        }
    }
    Ok(sequence)
}

#[cycle(commands)]
fn command(
    alloc: Global,
    value: &Value,
    scope: &Scope<'_>,
    levels: u8,
) -> Result<Command, JsonFault>
    ensures { Gives command_tree result (command_of scope.now levels (view value.now)) }
{
    match pair(value) {
        Some((first, argument)) => {
            let name = at_index(alloc, 0, name(alloc, first, scope.shared))?;
            named(alloc, argument, name, scope, levels)
        }
        None => flawed(alloc, FlawKind::Field),
    }
}

// Reads the argument of the command with this name.
#[cycle(commands)]
fn named(
    alloc: Global,
    value: &Value,
    name: CommandName,
    scope: &Scope<'_>,
    levels: u8,
) -> Result<Command, JsonFault>
    ensures { Gives command_tree result (command_named scope.now levels name (view value.now)) }
{
    match name {
        CommandName::Test(kind) => Ok(Command::Test {
            kind,
            report: report(alloc, value)?,
        }),
        CommandName::Act(kind) => Ok(Command::Act {
            kind,
            report: report(alloc, value)?,
        }),
        CommandName::Index => {
            let selection = at_index(alloc, 1, selection(alloc, value, scope.count))?;
            Ok(Command::Index(selection))
        }
        CommandName::Set => {
            let list = at_index(alloc, 1, params(alloc, value, scope))?;
            Ok(Command::Override(list))
        }
        CommandName::Try => {
            let branches = at_index(alloc, 1, tries(alloc, value, scope, levels))?;
            Ok(Command::TryEach(branches))
        }
        CommandName::Run => {
            let inner = at_index(alloc, 1, sequence(alloc, value, scope, levels))?;
            Ok(Command::Run(inner))
        }
    }
}

// Reads a reporting policy, which is the argument of a command.
fn report(alloc: Global, value: &Value) -> Result<u8, JsonFault>
    ensures { Gives (λ r. r) result (argument (number_up_to 15 (view value.now))) }
{
    let report = at_index(alloc, 1, number(alloc, value, 15))?;
    Ok(report as u8)
}

// Reads the sequences of a try each.
#[cycle(commands)]
fn tries(alloc: Global, value: &Value, scope: &Scope<'_>, levels: u8) -> Result<Branches, JsonFault>
    ensures { Gives (λ b. b) result (tries_of scope.now levels (view value.now)) }
{
    let values = elements(value);
    if values.len() < 2 {
        return flawed(alloc, FlawKind::Field);
    }
    let mut branches = Branches::new(alloc);
    for (index, value) in values.iter().enumerate() {
        let last = index + 1 == values.len();
        let branch = at_index(alloc, index, branch(alloc, value, last, scope, levels))?;
        branches.push(branch)?;
    }
    Ok(branches)
}

// Reads a branch of a try each. The last one may be null.
#[cycle(commands)]
fn branch(
    alloc: Global,
    value: &Value,
    last: bool,
    scope: &Scope<'_>,
    levels: u8,
) -> Result<Option<Sequence>, JsonFault>
    ensures { Gives (λ b. b) result (branch_of scope.now levels last (view value.now)) }
{
    if last && value.is_null() {
        return Ok(None);
    }
    let inner = sequence(alloc, value, scope, levels)?;
    Ok(Some(inner))
}
