// Steps of the forward pass in sixteen bits.
ghost use Rattle.std.specs.Prelude.{◌≡◌, ◌++◌, Bool, ℕ, ◌+◌, ◌-◌, ◌*◌, ◌%◌, ◌^◌, ◌<◌, ◌≤◌, [], ◌∷◌, take, length};
ghost use Rattle.tm_conv.specs.Path.{most_period, period, step_size, steps_size};
ghost use Rattle.tm_conv.specs.Cost.{most_branch_metric};
ghost use Rattle.tm_viterbi.specs.AddCompareSelect.{AreSortedPlaces};
ghost use Rattle.tm_viterbi.specs.Totals.{StepsTo, AreAtMost, most_spread, most_narrow, narrow_bound};
ghost use Rattle.tm_viterbi.specs.Carries.{Carries, lifted};
ghost use Rattle.tm_viterbi.specs.StepPairs.{IsStepPair, AreStepPairs, two_step_masks};

use crate::branch_metrics::{step_metrics, two_step_metrics};
use crate::narrow_metrics::{narrow_metrics, sorted_places};
use crate::step_pairs::{StepPair, pair_metrics, step_pairs, two_step_masks};
use std::simd::prelude::*;
use tm_conv::{Rate, period, step_len};

// One step: the next path metrics, by halves, and the survivors.
#[inline(always)]
fn narrow_step(
    rate: Rate,
    invert: bool,
    t: u64,
    octets: &[u8],
    low: Simd<u16, 32>,
    high: Simd<u16, 32>,
    places: Simd<u16, 32>,
) -> (Simd<u16, 32>, Simd<u16, 32>, u64)
    requires places { AreSortedPlaces places }
    requires size { length octets.now ≡ step_size rate t }
    requires room { AreAtMost (2 ^ 16 - 1 - most_branch_metric) (low ++ high) }
    ensures steps { StepsTo rate invert t octets.now (low ++ high) (result.0 ++ result.1) result.2 }
    ensures bounded { (m : ℕ) → AreAtMost m (low ++ high) → AreAtMost (m + most_branch_metric) (result.0 ++ result.1) }
    ensures long { (length result.0 ≡ 32) × (length result.1 ≡ 32) }
{
    narrow_metrics(low, high, step_metrics(rate, invert, t, octets), places)
}

// As many steps as there are survivors: the path metrics after them, by halves, and how many octets they took.
#[inline(always)]
fn narrow_run(
    rate: Rate,
    invert: bool,
    t: u64,
    soft: &[u8],
    first_low: Simd<u16, 32>,
    first_high: Simd<u16, 32>,
    survivors: &mut [u64],
) -> (Simd<u16, 32>, Simd<u16, 32>, usize)
    requires size { steps_size rate t (length survivors.old) ≤ length soft.now }
    requires few { length survivors.old ≤ most_narrow }
    requires first { t + length survivors.old < narrow_bound }
    requires room { AreAtMost (2 ^ 16 - 1 - most_branch_metric * length survivors.old) (first_low ++ first_high) }
    ensures taken { result.2 ≡ steps_size rate t (length survivors.new) }
    ensures carries { (base : ℕ) → Carries rate invert t (take result.2 soft.now)
        (lifted base (first_low ++ first_high)) (lifted base (result.0 ++ result.1)) survivors.new }
    ensures bounded { (m : ℕ) → AreAtMost m (first_low ++ first_high)
        → AreAtMost (m + most_branch_metric * length survivors.new) (result.0 ++ result.1) }
    ensures long { (length result.0 ≡ 32) × (length result.1 ≡ 32) }
{
    let mut low = first_low;
    let mut high = first_high;
    let mut at = 0usize;
    let places = sorted_places((t >> 63) as u16);
    for i in 0..survivors.len() {
        let now = t + i as u64;
        let end = at + step_len(rate, now);
        let (next_low, next_high, survivor) = narrow_step(
            rate,
            invert,
            now,
            &soft[at..end],
            low,
            high,
            places,
        );
        survivors[i] = survivor;
        low = next_low;
        high = next_high;
        at = end;
    }
    (low, high, at)
}

// Two steps: the path metrics after them, and the survivors of each.
#[inline(always)]
fn two_steps(
    rate: Rate,
    invert: bool,
    t: u64,
    pair: &StepPair,
    octets: &[u8],
    low: Simd<u16, 32>,
    high: Simd<u16, 32>,
    places: Simd<u16, 32>,
) -> (Simd<u16, 32>, Simd<u16, 32>, u64, u64)
    requires pair { IsStepPair rate invert t pair.now }
    requires size { length octets.now ≡ 4 }
    requires places { AreSortedPlaces places }
    requires room { AreAtMost (2 ^ 16 - 1 - 2 * most_branch_metric) (low ++ high) }
    ensures carries { (base : ℕ) → Carries rate invert t (take pair.now.size octets.now)
        (lifted base (low ++ high)) (lifted base (result.0 ++ result.1)) (result.2 ∷ result.3 ∷ []) }
    ensures bounded { (m : ℕ) → AreAtMost m (low ++ high)
        → AreAtMost (m + 2 * most_branch_metric) (result.0 ++ result.1) }
    ensures long { (length result.0 ≡ 32) × (length result.1 ≡ 32) }
{
    let (first_metrics, second_metrics) = pair_metrics(rate, invert, t, pair, octets);
    let (low_between, high_between, first) = narrow_metrics(low, high, first_metrics, places);
    let (next_low, next_high, second) = narrow_metrics(
        low_between,
        high_between,
        second_metrics,
        places,
    );
    (next_low, next_high, first, second)
}

// Four steps, from as many octets as they send at most: the path metrics after them, and how many octets they took.
#[inline(always)]
fn four_steps(
    rate: Rate,
    invert: bool,
    t: u64,
    pairs: &[StepPair; 9],
    position: usize,
    octets: &[u8],
    low: Simd<u16, 32>,
    high: Simd<u16, 32>,
    places: Simd<u16, 32>,
    survivors: &mut [u64],
) -> (Simd<u16, 32>, Simd<u16, 32>, usize)
    requires pairs { AreStepPairs rate invert pairs.now }
    requires position { position ≡ t % period rate }
    requires small { position < most_period }
    requires size { length octets.now ≡ 8 }
    requires survivors { length survivors.old ≡ 4 }
    requires first { t + 4 < narrow_bound }
    requires places { AreSortedPlaces places }
    requires room { AreAtMost (2 ^ 16 - 1 - 4 * most_branch_metric) (low ++ high) }
    ensures taken { result.2 ≡ steps_size rate t 4 }
    ensures carries { (base : ℕ) → Carries rate invert t (take result.2 octets.now)
        (lifted base (low ++ high)) (lifted base (result.0 ++ result.1)) survivors.new }
    ensures bounded { (m : ℕ) → AreAtMost m (low ++ high)
        → AreAtMost (m + 4 * most_branch_metric) (result.0 ++ result.1) }
    ensures long { (length result.0 ≡ 32) × (length result.1 ≡ 32) }
{
    let before = &pairs[position];
    let after = &pairs[position + 2];
    let (low_between, high_between, first, second) = two_steps(
        rate,
        invert,
        t,
        before,
        &octets[..4],
        low,
        high,
        places,
    );
    let (next_low, next_high, third, fourth) = two_steps(
        rate,
        invert,
        t + 2,
        after,
        &octets[before.size..before.size + 4],
        low_between,
        high_between,
        places,
    );
    survivors[0] = first;
    survivors[1] = second;
    survivors[2] = third;
    survivors[3] = fourth;
    (next_low, next_high, before.size + after.size)
}

// The position in the puncture pattern four steps later.
#[inline(always)]
fn next_position(rate: Rate, position: usize) -> usize
    requires { position < period rate }
    ensures next { result ≡ (position + 4) % period rate }
    ensures small { result < most_period }
{
    let steps = usize::from(period(rate));
    let next = position + 4 % steps;
    if next < steps { next } else { next - steps }
}

// `narrow_run` four steps at a time, as long as there are octets for the most that these send: so the path metrics need
// not be moved between registers after each step.
#[inline(always)]
fn narrow_fours(
    rate: Rate,
    invert: bool,
    t: u64,
    soft: &[u8],
    first_low: Simd<u16, 32>,
    first_high: Simd<u16, 32>,
    survivors: &mut [u64],
) -> (Simd<u16, 32>, Simd<u16, 32>, usize)
    requires size { steps_size rate t (length survivors.old) ≤ length soft.now }
    requires few { length survivors.old ≤ most_narrow }
    requires first { t + length survivors.old < narrow_bound }
    requires room { AreAtMost (2 ^ 16 - 1 - most_branch_metric * length survivors.old) (first_low ++ first_high) }
    ensures taken { result.2 ≡ steps_size rate t (length survivors.new) }
    ensures carries { (base : ℕ) → Carries rate invert t (take result.2 soft.now)
        (lifted base (first_low ++ first_high)) (lifted base (result.0 ++ result.1)) survivors.new }
    ensures bounded { (m : ℕ) → AreAtMost m (first_low ++ first_high)
        → AreAtMost (m + most_branch_metric * length survivors.new) (result.0 ++ result.1) }
    ensures long { (length result.0 ≡ 32) × (length result.1 ≡ 32) }
{
    let pairs = step_pairs(rate, invert);
    let places = sorted_places((t >> 63) as u16);
    let mut position = (t % u64::from(period(rate))) as usize;
    let mut low = first_low;
    let mut high = first_high;
    let mut i = 0usize;
    let mut at = 0usize;
    while i + 4 <= survivors.len() && at + 8 <= soft.len() {
        let (next_low, next_high, taken) = four_steps(
            rate,
            invert,
            t + i as u64,
            &pairs,
            position,
            &soft[at..at + 8],
            low,
            high,
            places,
            &mut survivors[i..i + 4],
        );
        low = next_low;
        high = next_high;
        position = next_position(rate, position);
        at += taken;
        i += 4;
    }
    let now = t + i as u64;
    let (last_low, last_high, taken) = narrow_run(
        rate,
        invert,
        now,
        &soft[at..],
        low,
        high,
        &mut survivors[i..],
    );
    (last_low, last_high, at + taken)
}

// Two steps at rate 1/2: the path metrics after them, and the survivors of each.
fn half_rate_two(
    masks: Simd<u8, 16>,
    octets: &[u8],
    low: Simd<u16, 32>,
    high: Simd<u16, 32>,
    places: Simd<u16, 32>,
) -> (Simd<u16, 32>, Simd<u16, 32>, u64, u64)
    requires size { length octets.now ≡ 4 }
    requires places { AreSortedPlaces places }
    requires room { AreAtMost (2 ^ 16 - 1 - 2 * most_branch_metric) (low ++ high) }
    ensures carries { (invert : Bool) (t base : ℕ) → masks ≡ two_step_masks invert
        → Carries Rate.R12 invert t octets.now (lifted base (low ++ high)) (lifted base (result.0 ++ result.1))
        (result.2 ∷ result.3 ∷ []) }
    ensures bounded { (m : ℕ) → AreAtMost m (low ++ high)
        → AreAtMost (m + 2 * most_branch_metric) (result.0 ++ result.1) }
    ensures long { (length result.0 ≡ 32) × (length result.1 ≡ 32) }
{
    let (first_metrics, second_metrics) = two_step_metrics(masks, octets);
    let (low_between, high_between, first) = narrow_metrics(low, high, first_metrics, places);
    let (next_low, next_high, second) = narrow_metrics(
        low_between,
        high_between,
        second_metrics,
        places,
    );
    (next_low, next_high, first, second)
}

// Four steps at rate 1/2.
fn half_rate_four(
    masks: Simd<u8, 16>,
    octets: &[u8],
    low: Simd<u16, 32>,
    high: Simd<u16, 32>,
    places: Simd<u16, 32>,
    survivors: &mut [u64],
) -> (Simd<u16, 32>, Simd<u16, 32>)
    requires size { length octets.now ≡ 8 }
    requires survivors { length survivors.old ≡ 4 }
    requires places { AreSortedPlaces places }
    requires room { AreAtMost (2 ^ 16 - 1 - 4 * most_branch_metric) (low ++ high) }
    ensures carries { (invert : Bool) (t base : ℕ) → masks ≡ two_step_masks invert
        → Carries Rate.R12 invert t octets.now (lifted base (low ++ high)) (lifted base (result.0 ++ result.1))
        survivors.new }
    ensures bounded { (m : ℕ) → AreAtMost m (low ++ high)
        → AreAtMost (m + 4 * most_branch_metric) (result.0 ++ result.1) }
    ensures long { (length result.0 ≡ 32) × (length result.1 ≡ 32) }
{
    let (low_between, high_between, first, second) = half_rate_two(
        masks,
        &octets[..4],
        low,
        high,
        places,
    );
    let (next_low, next_high, third, fourth) = half_rate_two(
        masks,
        &octets[4..],
        low_between,
        high_between,
        places,
    );
    survivors[0] = first;
    survivors[1] = second;
    survivors[2] = third;
    survivors[3] = fourth;
    (next_low, next_high)
}

// `narrow_run` at rate 1/2, four steps at a time: so the path metrics need not be moved between registers after each
// step.
fn narrow_half_rate(
    invert: bool,
    t: u64,
    soft: &[u8],
    first_low: Simd<u16, 32>,
    first_high: Simd<u16, 32>,
    survivors: &mut [u64],
) -> (Simd<u16, 32>, Simd<u16, 32>, usize)
    requires size { steps_size Rate.R12 t (length survivors.old) ≤ length soft.now }
    requires few { length survivors.old ≤ most_narrow }
    requires first { t + length survivors.old < narrow_bound }
    requires room { AreAtMost (2 ^ 16 - 1 - most_branch_metric * length survivors.old) (first_low ++ first_high) }
    ensures taken { result.2 ≡ steps_size Rate.R12 t (length survivors.new) }
    ensures carries { (base : ℕ) → Carries Rate.R12 invert t (take result.2 soft.now)
        (lifted base (first_low ++ first_high)) (lifted base (result.0 ++ result.1)) survivors.new }
    ensures bounded { (m : ℕ) → AreAtMost m (first_low ++ first_high)
        → AreAtMost (m + most_branch_metric * length survivors.new) (result.0 ++ result.1) }
    ensures long { (length result.0 ≡ 32) × (length result.1 ≡ 32) }
{
    let masks = two_step_masks(invert);
    let places = sorted_places((t >> 63) as u16);
    let mut low = first_low;
    let mut high = first_high;
    let mut i = 0usize;
    while i + 4 <= survivors.len() {
        let octets = &soft[2 * i..2 * i + 8];
        let (next_low, next_high) = half_rate_four(
            masks,
            octets,
            low,
            high,
            places,
            &mut survivors[i..i + 4],
        );
        low = next_low;
        high = next_high;
        i += 4;
    }
    let now = t + i as u64;
    let (last_low, last_high, taken) = narrow_run(
        Rate::R12,
        invert,
        now,
        &soft[2 * i..],
        low,
        high,
        &mut survivors[i..],
    );
    (last_low, last_high, 2 * i + taken)
}

// `narrow_run` for one rate at a time, so that what a step sends is known to the compiler.
pub(crate) fn narrow_at(
    rate: Rate,
    invert: bool,
    t: u64,
    soft: &[u8],
    low: Simd<u16, 32>,
    high: Simd<u16, 32>,
    survivors: &mut [u64],
) -> (Simd<u16, 32>, Simd<u16, 32>, usize)
    requires size { steps_size rate t (length survivors.old) ≤ length soft.now }
    requires few { length survivors.old ≤ most_narrow }
    requires first { t + length survivors.old < narrow_bound }
    requires bounded { AreAtMost most_spread (low ++ high) }
    ensures taken { result.2 ≡ steps_size rate t (length survivors.new) }
    ensures carries { (base : ℕ) → Carries rate invert t (take result.2 soft.now)
        (lifted base (low ++ high)) (lifted base (result.0 ++ result.1)) survivors.new }
    ensures bounded { (m : ℕ) → AreAtMost m (low ++ high)
        → AreAtMost (m + most_branch_metric * length survivors.new) (result.0 ++ result.1) }
    ensures long { (length result.0 ≡ 32) × (length result.1 ≡ 32) }
{
    match rate {
        Rate::R12 => narrow_half_rate(invert, t, soft, low, high, survivors),
        Rate::R23 => narrow_fours(Rate::R23, invert, t, soft, low, high, survivors),
        Rate::R34 => narrow_fours(Rate::R34, invert, t, soft, low, high, survivors),
        Rate::R56 => narrow_fours(Rate::R56, invert, t, soft, low, high, survivors),
        Rate::R78 => narrow_fours(Rate::R78, invert, t, soft, low, high, survivors),
    }
}
