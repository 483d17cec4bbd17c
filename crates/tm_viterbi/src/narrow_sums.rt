// Path metrics in sixteen bits: less the least of them.
ghost use Rattle.std.specs.Prelude.{◌≡◌, ◌++◌, IsTrue, ℕ, ◌+◌, ◌^◌, ◌<◌, ◌≤◌, length, slice_index};
ghost use Rattle.tm_conv.specs.Path.{registers};
ghost use Rattle.tm_viterbi.specs.Totals.{most_spread};

use std::simd::prelude::*;

// By how much path metrics differ at most that go in sixteen bits.
const MOST_SPREAD: u32 = 4096;

// The least path metric.
pub(crate) fn least_sum(sums: &[u32; 64]) -> u32
    ensures { (s : ℕ) → s < registers → result ≤ slice_index sums.now s }
{
    let mut least = sums[0];
    for s in 0..64usize {
        least = least.min(sums[s]);
    }
    least
}

// The greatest path metric.
pub(crate) fn greatest_sum(sums: &[u32; 64]) -> u32
    ensures { (s : ℕ) → s < registers → slice_index sums.now s ≤ result }
{
    let mut greatest = sums[0];
    for s in 0..64usize {
        greatest = greatest.max(sums[s]);
    }
    greatest
}

// Whether no path metric is more than 4,096 above the least. Less the least of them, they then stay in sixteen bits
// for 120 steps, by each of which they grow by at most 510.
pub(crate) fn are_close(sums: &[u32; 64], least: u32) -> bool
    requires { (s : ℕ) → s < registers → least ≤ slice_index sums.now s }
    ensures { IsTrue result → (s : ℕ) → s < registers → slice_index sums.now s ≤ least + most_spread }
{
    greatest_sum(sums) - least <= MOST_SPREAD
}

// The path metrics less the least of them.
pub(crate) fn less_least(sums: &[u32; 64], least: u32) -> [u16; 64]
    requires least { (s : ℕ) → s < registers → least ≤ slice_index sums.now s }
    requires close { (s : ℕ) → s < registers → slice_index sums.now s ≤ least + most_spread }
    ensures long { length result ≡ registers }
    ensures each { (s : ℕ) → s < registers → least + slice_index result s ≡ slice_index sums.now s }
{
    let mut out = [0u16; 64];
    for s in 0..64usize {
        out[s] = (sums[s] - least) as u16;
    }
    out
}

// The path metrics again.
pub(crate) fn with_least(low: Simd<u16, 32>, high: Simd<u16, 32>, least: u32) -> [u32; 64]
    requires { least + 2 ^ 16 < 2 ^ 32 }
    ensures long { length result ≡ registers }
    ensures each { (s : ℕ) → s < registers → slice_index result s ≡ least + slice_index (low ++ high) s }
{
    let first = low.to_array();
    let second = high.to_array();
    let mut out = [0u32; 64];
    for s in 0..32usize {
        out[s] = least + u32::from(first[s]);
        out[32 + s] = least + u32::from(second[s]);
    }
    out
}

// Those of registers 0 to 31, and those of 32 to 63.
pub(crate) fn halves_of(narrow: &[u16; 64]) -> (Simd<u16, 32>, Simd<u16, 32>)
    ensures { result.0 ++ result.1 ≡ narrow.now }
{
    let low = Simd::<u16, 32>::from_slice(&narrow[..32]);
    let high = Simd::<u16, 32>::from_slice(&narrow[32..]);
    (low, high)
}
