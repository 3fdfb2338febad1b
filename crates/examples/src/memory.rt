//! How much memory the program has held.

use std::str::from_utf8;

/// The most that a judgement may hold, in units of 1,024 bytes: 2,000,000,000 bytes.
const MOST: u64 = 1_953_125;

fn number_in(text: &str) -> Option<u64> {
    let digits = text.split_whitespace().next()?;
    match digits.parse::<u64>() {
        Ok(number) => Some(number),
        Err(_) => None,
    }
}

// The most that was held at once, by the lines in which the system tells of a process.
fn peak_in(status: &str) -> Option<u64> {
    for line in status.lines() {
        if let Some(rest) = line.strip_prefix("VmHWM:") {
            return number_in(rest);
        }
    }
    None
}

/// The line on the memory that was held at once, by what the system tells of the process.
pub(crate) fn told(status: &[u8]) -> &'static str {
    let Ok(status) = from_utf8(status) else {
        return "not told\n";
    };
    match peak_in(status) {
        Some(peak) if peak <= MOST => "at most 2000000000 bytes\n",
        Some(_) => "above 2000000000 bytes\n",
        None => "not told\n",
    }
}
