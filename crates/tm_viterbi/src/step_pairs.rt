// The branch metrics of two steps at once, by one shuffle of their octets: which octet each lane takes depends on where
// the steps stand in the puncture pattern.
ghost use Rattle.std.specs.Prelude.{◌≡◌, Bool, ℕ, ◌+◌, ◌*◌, ◌<◌, ◌≤◌, take, drop, length, slice_index, if◌then◌else◌};
ghost use Rattle.tm_conv.specs.Path.{step_size, farthest_step};
ghost use Rattle.tm_conv.specs.Cost.{greatest_octet, most_branch_metric};
ghost use Rattle.tm_viterbi.specs.Totals.{AreBranchMetrics};
ghost use Rattle.tm_viterbi.specs.StepPairs.{two_step_masks, IsStepPair, AreStepPairs};

use std::simd::prelude::*;
use tm_conv::{Rate, kept};

// Two steps: for each lane how many symbols are sent before its own, what its octet is xored with, and all bits where
// its sum is sent; and how many symbols the steps send.
#[derive(Drop)]
pub(crate) struct StepPair {
    places: Simd<u8, 16>,
    masks: Simd<u8, 16>,
    sent: Simd<u8, 16>,
    pub(crate) size: usize,
}

// An octet is its own distance from a 0, and complemented its distance from a 1; c2 may be sent inverted.
pub(crate) fn two_step_masks(invert: bool) -> Simd<u8, 16>
    ensures { result ≡ two_step_masks invert }
{
    if invert {
        u8x16::from_array([
            0, 0, 255, 255, 0, 0, 255, 255, 255, 0, 255, 0, 255, 0, 255, 0,
        ])
    } else {
        u8x16::from_array([
            0, 0, 255, 255, 0, 0, 255, 255, 0, 255, 0, 255, 0, 255, 0, 255,
        ])
    }
}

// Of four sums in the order in which they are sent: c1 of both steps, and then c2, each once for each of its step's
// four pairs.
pub(crate) const FOUR_TIMES: [usize; 16] = [0, 0, 0, 0, 2, 2, 2, 2, 1, 1, 1, 1, 3, 3, 3, 3];

// All bits, or none.
fn all_bits(is_sent: bool) -> u8
    ensures { result ≡ (if is_sent then greatest_octet else 0) }
{
    if is_sent { 255 } else { 0 }
}

// Step t and the one after it.
#[inline(always)]
fn step_pair(rate: Rate, invert: bool, t: u64) -> StepPair
    requires { t < farthest_step }
    ensures { IsStepPair rate invert t result }
{
    let (first_c1, first_c2) = kept(rate, t);
    let (second_c1, second_c2) = kept(rate, t + 1);
    let before_c2 = u8::from(first_c1);
    let first = before_c2 + u8::from(first_c2);
    let before_last = first + u8::from(second_c1);
    let places = u8x4::from_array([0, before_c2, first, before_last]);
    let sent = u8x4::from_array([
        all_bits(first_c1),
        all_bits(first_c2),
        all_bits(second_c1),
        all_bits(second_c2),
    ]);
    StepPair {
        places: places.swizzle(FOUR_TIMES),
        masks: two_step_masks(invert),
        sent: sent.swizzle(FOUR_TIMES),
        size: usize::from(before_last + u8::from(second_c2)),
    }
}

// Those that begin at each step of a pattern, and two more, so that the pair after one is there too.
#[inline(always)]
pub(crate) fn step_pairs(rate: Rate, invert: bool) -> [StepPair; 9]
    ensures { AreStepPairs rate invert result }
{
    [
        step_pair(rate, invert, 0),
        step_pair(rate, invert, 1),
        step_pair(rate, invert, 2),
        step_pair(rate, invert, 3),
        step_pair(rate, invert, 4),
        step_pair(rate, invert, 5),
        step_pair(rate, invert, 6),
        step_pair(rate, invert, 7),
        step_pair(rate, invert, 8),
    ]
}

// Four octets, and zeros.
const WIDE: [usize; 16] = [0, 1, 2, 3, 4, 4, 4, 4, 4, 4, 4, 4, 4, 4, 4, 4];

// The branch metrics of step t and of the one after it, from as many octets as they send at most.
#[inline(always)]
pub(crate) fn pair_metrics(
    rate: Rate,
    invert: bool,
    t: u64,
    pair: &StepPair,
    octets: &[u8],
) -> (Simd<u16, 4>, Simd<u16, 4>)
    requires pair { IsStepPair rate invert t pair.now }
    requires size { length octets.now ≡ 4 }
    ensures first { AreBranchMetrics rate invert t (take (step_size rate t) octets.now) result.0 }
    ensures second { AreBranchMetrics rate invert (t + 1)
        (take (step_size rate (t + 1)) (drop (step_size rate t) octets.now)) result.1 }
    ensures first_small { (k : ℕ) → k < 4 → slice_index result.0 k ≤ most_branch_metric }
    ensures second_small { (k : ℕ) → k < 4 → slice_index result.1 k ≤ most_branch_metric }
{
    let wide = u8x4::from_slice(octets).shuffle(u8x4::splat(0), WIDE);
    let each = (wide.swizzle_dyn(pair.places) ^ pair.masks) & pair.sent;
    let firsts = each.extract::<0, 8>().cast::<u16>();
    let seconds = each.extract::<8, 8>().cast::<u16>();
    let metrics = firsts.strict_add(seconds);
    (metrics.extract::<0, 4>(), metrics.extract::<4, 4>())
}
