//! Reading a whole file.

ghost use Rattle.std.specs.Prelude.{◌≡◌, ◌≤◌, ◌<◌, ◌+◌, [], ◌++◌, length, IsTrue, OnOk, IfOk, IfErr};
ghost use Rattle.suit_edge.specs.Take.{TakesAll, KeepsLimit, TakeAsks, TakeCounts, TakesRest};

use crate::{Host, Pulled, Started};
use det_cbor::Bytes;
use std::alloc::{AllocError, Global};

/// The outcome of reading a whole file.
#[derive(Debug, Drop)]
pub enum Taken {
    /// The bytes of the file.
    Got(Bytes),
    /// No file has this name.
    Absent,
    /// The file is longer than this limit, in bytes.
    TooLong(u64),
    /// A call of the host failed, and its count of faults rose.
    HostFault,
    /// Memory ran out.
    NoMemory,
}

/// How many bytes the first pulls ask for. A room is zeroed before it is used, and most files fit
/// in this one.
const FRONT: usize = 512;

/// How many bytes each pull of a longer file asks for.
const PIECE: usize = 4096;

/// The capacity that is reserved for a file longer than a piece, in bytes. A list of this size
/// grows in place.
const ROOM: usize = 262_144;

/// Reads the whole file with this name, if it has at most `limit` bytes. Asks for at most one byte
/// beyond the limit.
pub fn take_all<H: Host>(alloc: Global, host: &mut H, name: &str, limit: u64) -> Taken
    ensures files { IsTrue H.told → H.file host.new ≡ H.file host.old }
    ensures takes { IsTrue H.told → TakesAll result (H.file host.old name.now) limit }
    ensures asked { IsTrue H.told → TakeAsks result name.now (H.asked host.old) (H.asked host.new) }
    ensures limits { KeepsLimit result limit }
    ensures pulled { IsTrue H.told → H.pulled host.new ≤ H.pulled host.old + (limit + 1) }
    ensures counts { TakeCounts result (H.faults host.old) (H.faults host.new) }
{
    match host.start(name) {
        Started::Done => take_rest(alloc, host, limit),
        Started::Absent => Taken::Absent,
        Started::Failed => Taken::HostFault,
    }
}

// Reads the rest of the file that was started.
fn take_rest<H: Host>(alloc: Global, host: &mut H, limit: u64) -> Taken
    ensures files { IsTrue H.told → H.file host.new ≡ H.file host.old }
    ensures takes { IsTrue H.told → TakesRest result (H.rest host.old) limit }
    ensures asked { IsTrue H.told → H.asked host.new ≡ H.asked host.old }
    ensures limits { KeepsLimit result limit }
    ensures pulled { IsTrue H.told → H.pulled host.new ≤ H.pulled host.old + (limit + 1) }
    ensures counts { TakeCounts result (H.faults host.old) (H.faults host.new) }
{
    let mut taken = Bytes::new(alloc);
    let mut front = [0; FRONT];
    while taken.len() < FRONT {
        match take_piece(host, limit, &mut taken, &mut front) {
            Ok(0) => return Taken::Got(taken),
            Ok(_) => {}
            Err(outcome) => return outcome,
        }
    }
    let mut piece = [0; PIECE];
    loop {
        match take_piece(host, limit, &mut taken, &mut piece) {
            Ok(0) => return Taken::Got(taken),
            Ok(_) => {}
            Err(outcome) => return outcome,
        }
    }
}

// Appends the next piece and returns its length, which is 0 at the end of the file.
fn take_piece<H: Host>(
    host: &mut H,
    limit: u64,
    taken: &mut Bytes,
    piece: &mut [u8],
) -> Result<usize, Taken>
    requires within { length taken.old ≤ limit }
    requires room { 0 < length piece.old }
    ensures room { length piece.new ≡ length piece.old }
    ensures files { IsTrue H.told → H.file host.new ≡ H.file host.old }
    ensures asked { IsTrue H.told → H.asked host.new ≡ H.asked host.old }
    ensures longer { IfOk result (λ count. length taken.new ≡ length taken.old + count) }
    ensures within { OnOk result (length taken.new ≤ limit) }
    ensures parts { OnOk result (IsTrue H.told
        → taken.old ++ H.rest host.old ≡ taken.new ++ H.rest host.new) }
    ensures end { IfOk result (λ count. count ≡ 0 → IsTrue H.told → H.rest host.new ≡ []) }
    ensures pulled { IfOk result (λ count. IsTrue H.told
        → H.pulled host.new ≡ H.pulled host.old + count) }
    ensures counts { OnOk result (H.faults host.new ≡ H.faults host.old) }
    ensures ends { IfErr result (λ outcome. IsTrue H.told
        → TakesRest outcome (taken.old ++ H.rest host.old) limit) }
    ensures limits { IfErr result (λ outcome. KeepsLimit outcome limit) }
    ensures last { IfErr result (λ outcome. IsTrue H.told
        → length taken.old + H.pulled host.new ≤ H.pulled host.old + (limit + 1)) }
    ensures faults { IfErr result (λ outcome.
        TakeCounts outcome (H.faults host.old) (H.faults host.new)) }
{
    let left = limit - taken.len() as u64;
    let wanted = left.saturating_add(1).min(piece.len() as u64) as usize;
    match host.pull(&mut piece[..wanted]) {
        Pulled::Failed => Err(Taken::HostFault),
        Pulled::Got(count) => {
            if left < count as u64 {
                return Err(Taken::TooLong(limit));
            }
            match add(taken, &piece[..count]) {
                Ok(()) => Ok(count),
                Err(_) => Err(Taken::NoMemory),
            }
        }
    }
}

// Appends a piece. The first whole one reserves room for many.
fn add(taken: &mut Bytes, piece: &[u8]) -> Result<(), AllocError>
    ensures { OnOk result (taken.new ≡ taken.old ++ piece.now) }
{
    if taken.len() < PIECE && piece.len() == PIECE {
        taken.reserve(ROOM)?;
    }
    taken.extend(piece)
}
