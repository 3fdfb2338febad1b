//! Compares `lane_bytes` with plain loops, for each length up to 130.

ghost use Rattle.std.specs.Prelude.{◌≡◌, ◌<◌, ◌≤◌, length};

use lane_bytes::{first_other, only_clears, same};

/// Returns the index of the first other byte, found byte by byte.
fn plain_first_other(a: &[u8], byte: u8) -> Option<usize> {
    for i in 0..a.len() {
        if a[i] != byte {
            return Some(i);
        }
    }
    None
}

/// Whether bits are only cleared, judged byte by byte.
fn plain_only_clears(old: &[u8], new: &[u8]) -> bool {
    for i in 0..old.len().min(new.len()) {
        if new[i] & !old[i] != 0 {
            return false;
        }
    }
    true
}

/// Whether all three functions agree with the plain loops, for bytes that differ in one place at most.
fn agree(old: &[u8], new: &[u8], differ: bool) -> bool {
    old.len() == new.len()
        && same(old, new) != differ
        && first_other(new, 0x7e) == plain_first_other(new, 0x7e)
        && only_clears(old, new) == plain_only_clears(old, new)
}

/// Whether all agree once a byte is changed. The byte is then restored.
fn agree_with(old: &[u8], new: &mut [u8], place: usize, byte: u8) -> bool
    requires { place < length new.old }
    ensures { length new.new ≡ length new.old }
{
    let was = new[place];
    new[place] = byte;
    let agrees = agree(old, new, true);
    new[place] = was;
    agrees
}

/// Whether all agree with no byte changed, and with each one changed in turn.
fn agree_each(old: &[u8], new: &mut [u8]) -> bool {
    if !agree(old, new, false) {
        return false;
    }
    for place in 0..new.len() {
        if !agree_with(old, new, place, 0x3e) || !agree_with(old, new, place, 0x7f) {
            return false;
        }
    }
    true
}

/// Whether all agree for this length.
fn agree_at(n: usize) -> bool
    requires { n ≤ 130 }
{
    let old = [0x7e_u8; 130];
    let mut new = [0x7e_u8; 130];
    agree_each(&old[..n], &mut new[..n])
}

#[test]
fn all_lengths_agree_with_plain_loops(rt: HostRuntime) {
    for n in 0..131 {
        assert!(rt; agree_at(n));
    }
    assert!(rt; !same(b"ab", b"a"));
}
