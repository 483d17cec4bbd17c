// A source that fails at each read, and notes that fail at each octet.
use crate::runs::{CUTS, Given, check_outcome, run_over};
use std::alloc::Global;
use std::process::Abort;
use std::test::Fail;
use std::thread::Threads;

// The marker, and the codeword of the one data symbol 01, as it is sent in the dual basis.
static UNIT: [u8; 37] = [
    0x1A, 0xCF, 0xFC, 0x1D, 0x7B, 0x47, 0x32, 0x5F, 0x86, 0x4A, 0x18, 0xA0, 0x78, 0x83, 0xFA, 0xB9,
    0x5C, 0x5F, 0x4F, 0xEC, 0xFE, 0xEC, 0x4F, 0x5F, 0x5C, 0xB9, 0xFA, 0x83, 0x78, 0xA0, 0x18, 0x4A,
    0x86, 0x5F, 0x32, 0x47, 0x7B,
];

const DECODE: &str = "tmchan decode --length 1 --inner none --randomize off";

// The report of one codeword without wrong symbols.
const REPORT: &str = "frame 0 at 0 marker 0 words 0\nframes 1 bad 0 fixed 0 bits 296\n";

// A unit is decoded.
fn decode(cut: usize) -> Given<'static> {
    Given::new(DECODE, &UNIT, cut)
}

// The read of number k fails.
fn check_read(
    rt: &(impl Abort + Threads + Sync),
    alloc: Global,
    k: usize,
    status: u8,
    reads: u64,
    out: &[u8],
    notes: &str,
) -> Result<(), Fail> {
    let mut given = decode(1);
    given.failing_read = Some(k);
    let outcome = run_over(rt, alloc, &given)?;
    assert!(rt; outcome.source.calls() == reads);
    check_outcome(rt, &given, &outcome, status, out, notes.as_bytes());
    Ok(())
}

// Nothing is due of one frame until the end of the input is given, by the read after its last octet. No read is after
// that one.
#[test]
fn each_read_of_a_codeword_fails(rt: HostRuntime) -> Result<(), Fail> {
    for k in 0..38 {
        check_read(&rt, rt.alloc(), k, 3, k as u64 + 1, &[], "")?;
    }
    check_read(&rt, rt.alloc(), 38, 0, 38, &[0x7B], REPORT)
}

// The notes have room for `room` octets.
fn check_room(
    rt: &(impl Abort + Threads + Sync),
    alloc: Global,
    cut: usize,
    room: usize,
    notes: &[u8],
) -> Result<(), Fail> {
    let mut given = decode(cut);
    given.notes_room = room;
    let outcome = run_over(rt, alloc, &given)?;
    check_outcome(rt, &given, &outcome, 4, &[0x7B], notes);
    Ok(())
}

#[test]
fn the_notes_fail_at_each_octet(rt: HostRuntime) -> Result<(), Fail> {
    let report = REPORT.as_bytes();
    for room in 0..report.len() {
        for cut in CUTS {
            check_room(&rt, rt.alloc(), cut, room, &report[..room])?;
        }
    }
    Ok(())
}
