//! Draws, and the rounds that are drawn, by numbers that another program found.

use conformance::{Draw, Drawn, Shape, draw_round};
use std::alloc::{AllocError, Global};

// Whether a number draws these first.
fn draws(number: u64, wanted: &[u64]) -> bool {
    let mut draw = Draw::new(number);
    for next in wanted {
        if draw.next() != *next {
            return false;
        }
    }
    true
}

#[test]
fn draws_are_those_of_another_program(rt: HostRuntime) {
    assert!(rt; draws(7, &[1_059_165_278, 2_052_263_231, 1_946_856_753]));
    assert!(rt; draws(0, &[167_951_807]));
    assert!(rt; draws(u64::MAX, &[1_574_552_488]));
}

// Whether this is the first round of 7.
fn is_first_of_seven(drawn: &Drawn) -> bool {
    drawn.shape == Shape::Loaded
        && drawn.payload.len() == 49_028
        && !drawn.wrong_payload
        && !drawn.wants_cut
        && drawn.passes == 103
        && drawn.choice == 2_977_844_157_744_241_824
}

/// What a round wants.
#[derive(Clone, Copy)]
enum Kind {
    /// Neither a cut nor a wrong payload.
    Plain,
    /// No cut, and a wrong payload, which is fetched in any case.
    Stopped,
    Other,
}

fn kind_of(drawn: &Drawn) -> Kind {
    if drawn.wants_cut {
        Kind::Other
    } else if !drawn.wrong_payload {
        Kind::Plain
    } else if drawn.shape != Shape::FetchedIfOther {
        Kind::Stopped
    } else {
        Kind::Other
    }
}

fn next_kind(alloc: Global, draw: &mut Draw) -> Result<Kind, AllocError> {
    let drawn = draw_round(alloc, draw)?;
    Ok(kind_of(&drawn))
}

// Whether so many of 200 rounds are plain, and so many stopped.
fn are_counted(alloc: Global, number: u64, plain: u64, stopped: u64) -> Result<bool, AllocError> {
    let mut draw = Draw::new(number);
    let mut found_plain = 0u64;
    let mut found_stopped = 0u64;
    for _ in 0..200u64 {
        match next_kind(alloc, &mut draw)? {
            Kind::Plain => found_plain = found_plain.saturating_add(1),
            Kind::Stopped => found_stopped = found_stopped.saturating_add(1),
            Kind::Other => {}
        }
    }
    Ok(found_plain == plain && found_stopped == stopped)
}

fn starts_with_first_of_seven(alloc: Global) -> Result<bool, AllocError> {
    let drawn = draw_round(alloc, &mut Draw::new(7))?;
    Ok(is_first_of_seven(&drawn))
}

#[test]
fn rounds_are_those_of_another_program(rt: HostRuntime) -> Result<(), AllocError> {
    assert!(rt; starts_with_first_of_seven(rt.alloc())?);
    assert!(rt; are_counted(rt.alloc(), 7, 65, 25)?);
    assert!(rt; are_counted(rt.alloc(), 0, 73, 14)?);
    assert!(rt; are_counted(rt.alloc(), u64::MAX, 60, 16)?);
    Ok(())
}
