// The branch metrics of a step: what each of its four pairs of c1 and c2 costs.
ghost use Rattle.std.specs.Prelude.{◌≡◌, IsTrue, Bool, ℕ, ◌+◌, ◌-◌, ◌*◌, ◌/◌, ◌^◌, ◌<◌, ◌≤◌, take, drop, length, slice_index, if◌then◌else◌};
ghost use Rattle.tm_conv.specs.Path.{sent_c2, step_size};
ghost use Rattle.tm_conv.specs.Cost.{distance, greatest_octet, most_branch_metric};
ghost use Rattle.tm_viterbi.specs.Totals.{AreBranchMetrics};
ghost use Rattle.tm_viterbi.specs.StepPairs.{two_step_masks};

use crate::step_pairs::FOUR_TIMES;
use std::simd::prelude::*;
use tm_conv::{Rate, kept};

// The distances of the first octet from a 0 and from a 1, or 0 where c1 is not sent.
fn c1_metrics(is_sent: bool, octets: &[u8]) -> (u16, u16)
    requires { IsTrue is_sent → 0 < length octets.now }
    ensures zero { result.0 ≡ (if is_sent then distance 0 (slice_index octets.now 0) else 0) }
    ensures one { result.1 ≡ (if is_sent then distance 1 (slice_index octets.now 0) else 0) }
    ensures small { (result.0 ≤ greatest_octet) × (result.1 ≤ greatest_octet) }
{
    if is_sent {
        (u16::from(octets[0]), u16::from(255 - octets[0]))
    } else {
        (0, 0)
    }
}

// The distances of the last octet from what is sent for a 0 and for a 1 of c2, or 0 where c2 is not sent.
fn c2_metrics(is_sent: bool, invert: bool, octets: &[u8]) -> (u16, u16)
    requires { IsTrue is_sent → 0 < length octets.now }
    ensures zero { result.0 ≡ (if is_sent then distance (sent_c2 invert 0)
        (slice_index octets.now (length octets.now - 1)) else 0) }
    ensures one { result.1 ≡ (if is_sent then distance (sent_c2 invert 1)
        (slice_index octets.now (length octets.now - 1)) else 0) }
    ensures small { (result.0 ≤ greatest_octet) × (result.1 ≤ greatest_octet) }
{
    if is_sent {
        let octet = octets[octets.len() - 1];
        let near = u16::from(octet);
        let far = u16::from(255 - octet);
        if invert { (far, near) } else { (near, far) }
    } else {
        (0, 0)
    }
}

// The branch metrics of step t, at index 2 * c1 + c2. They are summed by lanes, so that the lanes of all branches are
// shuffled from them and not set one at a time.
pub(crate) fn step_metrics(rate: Rate, invert: bool, t: u64, octets: &[u8]) -> Simd<u16, 4>
    requires { length octets.now ≡ step_size rate t }
    ensures metrics { AreBranchMetrics rate invert t octets.now result }
    ensures small { (k : ℕ) → k < 4 → slice_index result k ≤ most_branch_metric }
{
    let (sends_first, sends_second) = kept(rate, t);
    let first = c1_metrics(sends_first, octets);
    let second = c2_metrics(sends_second, invert, octets);
    let firsts = u16x4::from_array([first.0, first.0, first.1, first.1]);
    let seconds = u16x4::from_array([second.0, second.1, second.0, second.1]);
    firsts.strict_add(seconds)
}

// The branch metrics of a step, in thirty-two bits.
pub(crate) fn wide_metrics(metrics: Simd<u16, 4>) -> [u32; 4]
    ensures { result ≡ metrics }
{
    let each = metrics.to_array();
    [
        u32::from(each[0]),
        u32::from(each[1]),
        u32::from(each[2]),
        u32::from(each[3]),
    ]
}

// The branch metrics of two steps at rate 1/2, where each sends both sums.
pub(crate) fn two_step_metrics(masks: Simd<u8, 16>, octets: &[u8]) -> (Simd<u16, 4>, Simd<u16, 4>)
    requires { length octets.now ≡ 4 }
    ensures first { (invert : Bool) (t : ℕ) → masks ≡ two_step_masks invert
        → AreBranchMetrics Rate.R12 invert t (take 2 octets.now) result.0 }
    ensures second { (invert : Bool) (t : ℕ) → masks ≡ two_step_masks invert
        → AreBranchMetrics Rate.R12 invert t (drop 2 octets.now) result.1 }
    ensures first_small { (k : ℕ) → k < 4 → slice_index result.0 k ≤ most_branch_metric }
    ensures second_small { (k : ℕ) → k < 4 → slice_index result.1 k ≤ most_branch_metric }
{
    let each = u8x4::from_slice(octets).swizzle(FOUR_TIMES) ^ masks;
    let firsts = each.extract::<0, 8>().cast::<u16>();
    let seconds = each.extract::<8, 8>().cast::<u16>();
    let metrics = firsts.strict_add(seconds);
    (metrics.extract::<0, 4>(), metrics.extract::<4, 4>())
}
