//! Names of commands.

ghost use Rattle.std.specs.Prelude.{◌≡◌};
ghost use Rattle.serde_json.specs.View.{view};
ghost use Rattle.json_fields.specs.Answers.{Gives};
ghost use Rattle.author.specs.CommandNames.{command_named, name_of};
ghost use Rattle.author.specs.Contents.{command_by_name};

use json_fields::{FlawKind, JsonFault, flawed};
use serde_json::Value;
use std::alloc::Global;
use suit_commands::{ActKind, TestKind};

/// The command that a name stands for.
#[derive(Clone, Copy)]
pub(crate) enum CommandName {
    Test(TestKind),
    Act(ActKind),
    Index,
    Set,
    Try,
    Run,
}

fn command_named(name: &str) -> Option<CommandName>
    ensures { result ≡ command_named name.now }
{
    let command = match name {
        "vendor" => CommandName::Test(TestKind::Vendor),
        "class" => CommandName::Test(TestKind::Class),
        "match" => CommandName::Test(TestKind::ImageMatch),
        "slot" => CommandName::Test(TestKind::Slot),
        "content" => CommandName::Test(TestKind::CheckContent),
        "abort" => CommandName::Test(TestKind::Abort),
        "device" => CommandName::Test(TestKind::Device),
        "write" => CommandName::Act(ActKind::Write),
        "fetch" => CommandName::Act(ActKind::Fetch),
        "copy" => CommandName::Act(ActKind::Copy),
        "invoke" => CommandName::Act(ActKind::Invoke),
        "swap" => CommandName::Act(ActKind::Swap),
        "index" => CommandName::Index,
        "set" => CommandName::Set,
        "try" => CommandName::Try,
        "run" => CommandName::Run,
        _ => return None,
    };
    Some(command)
}

/// The command that a value names, if it names one.
pub(crate) fn named(value: &Value) -> Option<CommandName>
    ensures { result ≡ command_by_name (view value.now) }
{
    match value.as_str() {
        Some(text) => command_named(text),
        None => None,
    }
}

/// Reads the name of a command, which the shared sequence may have if `shared` is set.
pub(crate) fn name(alloc: Global, value: &Value, shared: bool) -> Result<CommandName, JsonFault>
    ensures { Gives (λ n. n) result (name_of shared (view value.now)) }
{
    let Some(text) = value.as_str() else {
        return flawed(alloc, FlawKind::Field);
    };
    match command_named(text) {
        Some(CommandName::Act(_)) if shared => flawed(alloc, FlawKind::Field),
        Some(name) => Ok(name),
        None => flawed(alloc, FlawKind::Field),
    }
}
