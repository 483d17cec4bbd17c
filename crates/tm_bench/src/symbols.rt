// Symbols of the convolutional code, decoded again and again. They are made once, so that the difference of two runs is
// the decoder's work alone.
use crate::job::Stream;
use std::alloc::{AllocError, Global};
use tm_base::Failed;
use tm_conv::{Encoder, Rate, Symbols};
use tm_viterbi::{Block, BlockTaker, Start};
use tm_windows::{Decoder, FeedError};

// The steps whose symbols are fed each time: whole puncture patterns at each rate. The last six bits are 0, so that the
// register is 0 again after them.
const STEPS: u64 = 8190;

/// What was handed over: the blocks, their kept bits, what their paths cost, and the sum of their last registers; and how
/// many octets made no step.
#[derive(Drop)]
pub struct Sum {
    pub blocks: u64,
    pub bits: u64,
    pub metric: u64,
    pub registers: u64,
    pub left: u8,
}

impl BlockTaker for Sum {
    ghost faults = { λ sum. 0 };

    ghost is_last = { λ sum. ⊥ };

    ghost took = { λ before block now. Unit {0} };

    ghost broke = { λ before block now. ⊥ };

    ghost took_phase = { λ before skip cost now. Unit {0} };

    ghost broke_phase = { λ before skip cost now. ⊥ };

    fn block(&mut self, b: &Block<'_>) -> Result<(), Failed> {
        self.blocks = self.blocks.wrapping_add(1);
        self.bits = self.bits.wrapping_add(u64::from(b.kept));
        self.metric = self.metric.wrapping_add(b.metric);
        self.registers = self.registers.wrapping_add(u64::from(b.end_state));
        Ok(())
    }

    fn phase(&mut self, _skip: u8, _cost: u64) -> Result<(), Failed> {
        Ok(())
    }
}

fn drawn(x: u32) -> u32 {
    x.wrapping_mul(1664525).wrapping_add(1013904223)
}

// The soft octet of a symbol: the surest one, or one that is less sure and one time in 32 wrong.
fn soft(symbol: bool, is_noisy: bool, x: u32) -> u8 {
    let is_one = symbol != (is_noisy && x >> 27 == 0);
    let off = if is_noisy { (x >> 16 & 127) as u8 } else { 0 };
    if is_one { 255 - off } else { off }
}

// The soft octets of drawn bits.
fn soft_symbols(alloc: Global, rate: Rate, is_noisy: bool) -> Result<Vec<u8>, AllocError> {
    let mut octets = Vec::new(alloc);
    let mut encoder = Encoder::new(rate, true);
    let mut x = 1;
    for step in 0..STEPS {
        x = drawn(x);
        let bit = x >> 31 == 1 && step + 6 < STEPS;
        let symbols = encoder.step(bit);
        x = drawn(x);
        match symbols {
            Symbols::One(only) => octets.push(soft(only, is_noisy, x))?,
            Symbols::Two(first, second) => {
                octets.push(soft(first, is_noisy, x))?;
                x = drawn(x);
                octets.push(soft(second, is_noisy, x))?;
            }
        }
    }
    Ok(octets)
}

// Feeds the octets again and again.
fn feed_often(
    decoder: &mut Decoder,
    octets: &[u8],
    rounds: u32,
    sum: &mut Sum,
) -> Result<(), FeedError> {
    for _ in 0..rounds {
        for piece in octets.chunks(4096) {
            decoder.feed(piece, sum)?;
        }
    }
    Ok(())
}

/// Decodes a stream, in pieces of 4,096 octets. None where there is no memory.
pub fn decode_stream(alloc: Global, stream: &Stream) -> Option<Sum> {
    let octets = soft_symbols(alloc, stream.rate, stream.is_noisy).ok()?;
    let mut sum = Sum {
        blocks: 0,
        bits: 0,
        metric: 0,
        registers: 0,
        left: 0,
    };
    let mut decoder = Decoder::open(alloc, stream.rate, true, Start::Zero, 8192, 256).ok()?;
    feed_often(&mut decoder, &octets, stream.rounds, &mut sum).ok()?;
    sum.left = decoder.finish(&mut sum).ok()?;
    Some(sum)
}
