//! How many runs end with which status.

/// The changes of a byte, by exclusive or.
pub(crate) const CHANGES: [u8; 3] = [0x01, 0x80, 0xff];

// How often a status occurs.
fn count(statuses: &[u8], status: u32) -> u64 {
    let mut count = 0u64;
    for found in statuses {
        if *found as u32 == status {
            count = count.saturating_add(1);
        }
    }
    count
}

// How often the status of a line occurs, if that is the number in the line.
fn counted(statuses: &[u8], line: &str) -> Option<u64> {
    let (status, times) = line.split_once(' ')?;
    match (status.parse::<u32>(), times.parse::<u32>()) {
        (Ok(status), Ok(times)) if count(statuses, status) == times as u64 => Some(times as u64),
        _ => None,
    }
}

/// Whether each status of these lines occurs as often as the line says, and no other status occurs.
pub(crate) fn are_counted(statuses: &[u8], lines: &str) -> bool {
    let mut all = 0u64;
    for line in lines.split('\n') {
        match counted(statuses, line) {
            Some(times) => all = all.saturating_add(times),
            None => return false,
        }
    }
    all == statuses.len() as u64
}
