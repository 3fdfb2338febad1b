//! The ways of a sequence. Each inner sequence is walked once, not once for each selected
//! component.

ghost use Rattle.std.specs.Prelude.{◌≡◌};
ghost use Rattle.suit_commands.specs.Numbers.{ways_of, start_ways};
ghost use Rattle.suit_commands.specs.WaysOnce.{counted, capped_ways, once_ways, tried_ways};
ghost use Rattle.suit_commands.specs.View.{command_tree};

use crate::capped::plus;
use crate::ways::Ways;
use crate::work_walk::count_after;
use crate::{Branches, Command, Sequence};

/// The ways of a sequence that begins with one component selected.
#[cycle(ways)]
pub(crate) fn sequence_ways(sequence: &Sequence, count: u32) -> Ways
    ensures { counted result ≡ capped_ways (ways_of sequence.now count 1 start_ways) }
{
    let mut selected: u64 = 1;
    let mut ways = Ways::start();
    for step in sequence.as_slice() {
        let once = command_ways(&step.command, count);
        ways = ways.then(once.repeated(selected));
        selected = count_after(&step.command, count, selected);
    }
    ways
}

/// The ways of a command for one of the selected components.
#[cycle(ways)]
fn command_ways(command: &Command, count: u32) -> Ways
    ensures { counted result ≡ capped_ways (once_ways (command_tree command.now) count) }
{
    match command {
        Command::Test { .. } => Ways { on: 1, off: 1 },
        Command::TryEach(branches) => branches_ways(branches, count),
        Command::Run(inner) => {
            let ways = sequence_ways(inner, count);
            Ways {
                on: plus(ways.on, ways.off),
                off: ways.off,
            }
        }
        _ => Ways::start(),
    }
}

/// The ways of a try each. It completes if one of its sequences completes after a condition ended
/// each one before, and a condition ends it if one ends each of its sequences.
#[cycle(ways)]
fn branches_ways(branches: &Branches, count: u32) -> Ways
    ensures { counted result ≡ capped_ways (tried_ways branches.now count) }
{
    let mut tried = Ways::none_done();
    for branch in branches.as_slice() {
        let ways = match branch {
            Some(inner) => sequence_ways(inner, count),
            None => Ways::start(),
        };
        tried = tried.or_else(ways);
    }
    tried
}
