//! Pulling started files piece by piece.

ghost use Rattle.std.specs.Prelude.{◌≡◌, ◌<◌, ◌≤◌, IfOk, IsTrue, length};
ghost use Rattle.step_machine.specs.Fetching.{GivesPiece, PieceCounts, PullsPiece};

use path_model::Cause;
use suit_edge::{Host, Pulled};

// Pulls the next piece of the file into the front of the room. Returns its length, which is 0 at the end of the file.
// Asks for at most one byte more than the `left` bytes that are wanted, and a file that has it is too large.
pub(crate) fn next_piece<H: Host>(host: &mut H, left: u64, room: &mut [u8]) -> Result<usize, Cause>
    requires room { 0 < length room.old }
    ensures few { IfOk result (λ n. n ≤ left) }
    ensures fits { IfOk result (λ n. n ≤ length room.old) }
    ensures counts { PieceCounts result (H.faults host.old) (H.faults host.new) }
    ensures files { IsTrue H.told → H.file host.new ≡ H.file host.old }
    ensures asked { IsTrue H.told → H.asked host.new ≡ H.asked host.old }
    ensures pulled { IsTrue H.told
        → PullsPiece result left (H.pulled host.old) (H.pulled host.new) }
    ensures piece { IsTrue H.told
        → GivesPiece result left (H.rest host.old) (H.rest host.new) room.new }
{
    let wanted = left.saturating_add(1).min(room.len() as u64) as usize;
    match host.pull(&mut room[..wanted]) {
        Pulled::Failed => Err(Cause::HostFault),
        Pulled::Got(count) => {
            if left < count as u64 {
                return Err(Cause::TooLarge);
            }
            Ok(count)
        }
    }
}
