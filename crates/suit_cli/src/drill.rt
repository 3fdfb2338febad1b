//! The command `drill`: rounds of updates and boots on a flash in memory.

ghost use Rattle.std.specs.Prelude.{◌≡◌, [], IfOk, string_bytes};
ghost use Rattle.suit_cli.specs.Commands.{drills};
ghost use Rattle.suit_cli.specs.Drilling.{DrillsTo, drill_line, rounds_text, tally_line};
ghost use Rattle.suit_cli.specs.Stages.{Tells};

mod device;
mod judging;
mod round;
mod tally;

use crate::drill::device::new_flash;
use crate::drill::round::run_round;
use crate::drill::tally::{Tally, wrong_launches};
use crate::reply::{Outcome, Reply, Stop};
use conformance::Draw;
use det_cbor::Text;
use std::alloc::{AllocError, Global};
use suit_edge::MemoryLauncher;

/// How many rounds there are.
const ROUNDS: u64 = 200;

// What became of the rounds.
fn rounds_text(alloc: Global, tally: &Tally) -> Result<String, AllocError>
    ensures { IfOk result (λ t. string_bytes t ≡ rounds_text tally.now) }
{
    let Tally {
        installed,
        stopped,
        cut,
    } = *tally;
    format!(in alloc; "rounds 200, installed {installed}, stopped {stopped}, cut {cut}")
}

// The line, with this text about the rounds.
fn tally_line(
    alloc: Global,
    number: u64,
    rounds: &str,
    launches: u64,
    wrong: u64,
) -> Result<String, AllocError>
    ensures { IfOk result (λ t. string_bytes t ≡ tally_line number rounds.now launches wrong) }
{
    format!(in alloc; "drill {number}: {rounds}, launches {launches}, wrong {wrong}\n")
}

// The line that tells what became of the rounds.
fn drill_line(
    alloc: Global,
    number: u64,
    tally: &Tally,
    launches: u64,
    wrong: u64,
) -> Result<String, AllocError>
    ensures { IfOk result (λ t. string_bytes t ≡ drill_line number tally.now launches wrong) }
{
    let rounds = rounds_text(alloc, tally)?;
    tally_line(alloc, number, rounds.as_str(), launches, wrong)
}

// Runs the rounds.
fn run_rounds(
    alloc: Global,
    number: u64,
    launcher: &mut MemoryLauncher,
) -> Result<Tally, AllocError>
    requires { launcher.old.launches ≡ [] }
    ensures { IfOk result (λ tally. DrillsTo number tally launcher.new.launches) }
{
    let mut flash = new_flash(alloc)?;
    let mut draw = Draw::new(number);
    let mut tally = Tally::new();
    for done in 0..ROUNDS {
        let (left, end) = run_round(alloc, &mut draw, done + 1, flash, launcher)?;
        flash = left;
        tally.count(end);
    }
    Ok(tally)
}

/// The reply to `drill NUMBER`: 200 rounds, each an update whose envelope is drawn from the number, and a boot.
pub(crate) fn drill(alloc: Global, number: u64) -> Result<Reply, Stop>
    ensures { Tells (drills number) result }
{
    let mut launcher = MemoryLauncher::new(alloc, &[])?;
    let tally = run_rounds(alloc, number, &mut launcher)?;
    let launches = launcher.launches();
    let wrong = wrong_launches(launches.as_slice());
    let line = drill_line(alloc, number, &tally, launches.len() as u64, wrong as u64)?;
    Ok(Reply {
        outcome: Outcome::Done,
        text: Text::from_string(line),
    })
}
