// Certificates of the soft decoder, as they are written and checked.
use crate::runs::{Given, run_over};
use std::alloc::{AllocError, Global};
use std::test::Fail;
use std::thread::Threads;

// A call with room for certificates.
fn given<'a>(line: &'a str, input: &'a [u8]) -> Given<'a> {
    let mut given = Given::new(line, input, 4096);
    given.out_room = 50_000;
    given
}

// The octet of a draw, often one at which symbols tie.
fn octet_of(draw: u64) -> u8 {
    match (draw >> 40) % 4 {
        0 => 0,
        1 => 255,
        2 => 128,
        _ => (draw >> 56) as u8,
    }
}

// `count` drawn octets.
fn drawn(alloc: Global, count: usize) -> Result<Vec<u8>, AllocError> {
    let mut octets = Vec::new(alloc);
    let mut now = 1u64;
    for _ in 0..count {
        now = now
            .wrapping_mul(6364136223846793005)
            .wrapping_add(1442695040888963407);
        octets.push(octet_of(now))?;
    }
    Ok(octets)
}

// A number that tells lists of octets apart.
fn mixed(sum: u64, octets: &[u8]) -> u64 {
    let mut sum = sum;
    for octet in octets {
        sum = (sum ^ u64::from(*octet)).wrapping_mul(0x100000001B3);
    }
    sum
}

// Complements the lowest bit of an octet.
fn complement_bit(octets: &mut [u8], place: usize) {
    if let Some(octet) = octets.get_mut(place) {
        *octet ^= 1;
    }
}

// A certificate of three windows, with the lowest bit of an octet changed in turn: of each one before the columns of a
// window, and each 97th of the columns. What is wanted is what `tests/certificates.py` says, which reads certificates
// by their rules alone.
#[test]
fn changes_are_reported(rt: HostRuntime) -> Result<(), Fail> {
    let alloc = rt.alloc();
    let soft = drawn(alloc, 301)?;
    let certified = run_over(
        &rt,
        alloc,
        &given("tmchan certify --keep 64 --ahead 3", &soft),
    )?;
    let mut octets = certified.out.octets().to_vec(alloc)?;
    assert!(rt; certified.status == 0 && octets.len() == 41_223);
    let mut seen = Seen {
        changes: 0,
        passed: 0,
        mix: 0,
    };
    for (first, columns, end) in [
        (0usize, 218usize, 17_626usize),
        (17_626, 17_844, 35_252),
        (35_252, 35_335, 41_223),
    ] {
        for place in first..end {
            if place < columns || (place - columns) % 97 == 0 {
                complement_bit(&mut octets, place);
                check(&rt, alloc, &octets, &mut seen)?;
                complement_bit(&mut octets, place);
            }
        }
    }
    assert!(rt; (seen.changes, seen.passed, seen.mix) == (940, 28, 0xE992_5038_B446_CD8Bu64));
    Ok(())
}

// How many changes were made, how many of them passed, and a number that tells the notes of all apart.
#[derive(Drop)]
struct Seen {
    changes: u64,
    passed: u64,
    mix: u64,
}

fn check(
    rt: &(impl Threads + Sync),
    alloc: Global,
    octets: &[u8],
    seen: &mut Seen,
) -> Result<(), Fail> {
    let outcome = run_over(
        rt,
        alloc,
        &given("tmchan check --keep 64 --ahead 3", octets),
    )?;
    seen.changes = seen.changes.wrapping_add(1);
    seen.passed = seen.passed.wrapping_add(u64::from(outcome.status == 0));
    seen.mix = mixed(seen.mix, outcome.notes.octets());
    Ok(())
}
