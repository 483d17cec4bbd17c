// Worked values: the blocks of a few steps and of two windows, least costs, and columns of sums.
ghost use Rattle.std.specs.Prelude.{◌↔◌, ◌<◌, ◌^◌, All, IsTrue};

use crate::takers::{Collector, Kept, STEP};
use std::alloc::Global;
use std::process::Abort;
use std::test::Fail;
use tm_conv::Rate;
use tm_viterbi::{Start, Sums, lane_column, least_cost, plain_column};
use tm_windows::{AllError, Decoder, FeedError, decode_all};

// Where a path may start, the octets of one step at rate 1/2, inverted, and their block.
static ONE_STEP: [(Start, [u8; 2], Kept); 3] = [
    (
        Start::Zero,
        [0x80, 0x00],
        Kept {
            metric: 127,
            first: 1,
            end_state: 32,
            ..STEP
        },
    ),
    (
        Start::Zero,
        [0x00, 0x00],
        Kept {
            metric: 255,
            ..STEP
        },
    ),
    (
        Start::Any,
        [0x00, 0x00],
        Kept {
            start: 2,
            end_state: 1,
            ..STEP
        },
    ),
];

#[test]
fn one_step(rt: HostRuntime) -> Result<(), Fail> {
    for &(start, octets, wanted) in &ONE_STEP {
        check_one_by_one(&rt, rt.alloc(), start, &octets, &[wanted])?;
        check_at_once(&rt, rt.alloc(), start, &octets, wanted)?;
    }
    Ok(())
}

// The octets one by one, at windows that keep 8,192 steps of 8,448.
fn check_one_by_one(
    rt: &impl Abort,
    alloc: Global,
    start: Start,
    octets: &[u8],
    wanted: &[Kept],
) -> Result<(), Fail> {
    let mut decoder = Decoder::open(alloc, Rate::R12, true, start, 8192, 256)?;
    check_pieces(rt, &mut decoder, octets, &mut Collector::new(alloc), wanted)
}

// A finished decoder is stopped.
fn check_pieces(
    rt: &impl Abort,
    decoder: &mut Decoder,
    octets: &[u8],
    blocks: &mut Collector,
    wanted: &[Kept],
) -> Result<(), Fail> {
    for piece in octets.chunks(1) {
        feed(decoder, piece, blocks)?;
    }
    assert!(rt; finish(decoder, blocks) == Ok(0));
    assert!(rt; blocks.kept() == wanted);
    assert!(rt; feed(decoder, &[0], blocks) == Err(FeedError::Stopped));
    Ok(())
}

// The decoder's calls, of which the tests know nothing.
fn feed(decoder: &mut Decoder, octets: &[u8], blocks: &mut Collector) -> Result<(), FeedError> {
    decoder.feed(octets, blocks)
}

fn finish(decoder: &mut Decoder, blocks: &mut Collector) -> Result<u8, FeedError> {
    decoder.finish(blocks)
}

fn check_at_once(
    rt: &impl Abort,
    alloc: Global,
    start: Start,
    octets: &[u8],
    wanted: Kept,
) -> Result<(), Fail> {
    let mut blocks = Collector::new(alloc);
    let left = decode(alloc, start, octets, &mut blocks)?;
    assert!(rt; left == 0 && blocks.kept() == [wanted].as_slice());
    Ok(())
}

fn decode(
    alloc: Global,
    start: Start,
    octets: &[u8],
    blocks: &mut Collector,
) -> Result<u8, AllError> {
    decode_all(alloc, Rate::R12, true, start, 8192, 256, octets, blocks)
}

// One step more than a window has.
static WINDOWS: [Kept; 2] = [
    Kept {
        steps: 8448,
        kept: 8192,
        ..STEP
    },
    Kept {
        steps: 257,
        kept: 257,
        ..STEP
    },
];

#[test]
fn two_windows(rt: HostRuntime) -> Result<(), Fail> {
    let mut octets = [0x00; 16_898];
    for i in 0..8_449usize {
        octets[2 * i + 1] = 0xFF;
    }
    check_one_by_one(&rt, rt.alloc(), Start::Zero, &octets, &WINDOWS)
}

// Whether each of the numbers is below 2^31.
fn are_small(numbers: &[u32]) -> bool
    ensures { IsTrue result ↔ All (λ n. n < 2 ^ 31) numbers.now }
{
    numbers.iter().all(|&n| n < 1 << 31)
}

// Both forms of a column: the sums and the survivors.
fn columns(sums: &[u32; 64], metrics: &[u32; 4]) -> [([u32; 64], u64); 2]
    requires sums { All (λ n. n < 2 ^ 31) sums.now }
    requires metrics { All (λ n. n < 2 ^ 31) metrics.now }
{
    let mut plain = [1; 64];
    let plain_survivors = plain_column(sums, metrics, &mut plain);
    let mut lanes = [2; 64];
    let lane_survivors = lane_column(sums, metrics, &mut lanes);
    [(plain, plain_survivors), (lanes, lane_survivors)]
}

#[test]
fn columns_of_zeros(rt: HostRuntime) {
    let (sums, metrics) = ([0; 64], [0; 4]);
    assert!(rt; are_small(&sums) && are_small(&metrics));
    assert!(rt; columns(&sums, &metrics) == [([0; 64], 0); 2]);
}

// The least cost of the one step that a pair of octets is at rate 1/2.
fn cost_of_pair(invert: bool, start: Start, pair: [u8; 2]) -> u64 {
    least_cost(Rate::R12, invert, start, &pair)
}

#[test]
fn least_costs(rt: HostRuntime) {
    let costs = [
        cost_of_pair(true, Start::Zero, [0x80, 0x00]),
        cost_of_pair(false, Start::Zero, [0x00, 0x00]),
        cost_of_pair(true, Start::Any, [0x00, 0x00]),
    ];
    assert!(rt; costs == [127, 0, 0]);
}

// The sums before the first step of rate 1/2, from register 0, and after it.
fn sums_of_pair(pair: [u8; 2]) -> ([u32; 64], [u32; 64]) {
    let mut sums = Sums::new(Rate::R12, true, 0, Some(0));
    let before = *sums.column();
    sums.step(&pair);
    (before, *sums.column())
}

#[test]
fn sums_of_a_step(rt: HostRuntime) {
    let (before, after) = sums_of_pair([0x80, 0x00]);
    assert!(rt; [before[0], before[1], before[63]] == [0, 1 << 30, 1 << 30]);
    assert!(rt; [after[0], after[32]] == [0x17F, 0x7F]);
}
