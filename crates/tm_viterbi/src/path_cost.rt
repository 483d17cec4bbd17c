// What the best path over soft octets costs.
ghost use Rattle.std.specs.Prelude.{◌≡◌, ℕ, ◌+◌, ◌*◌, ◌^◌, ◌<◌, ◌≤◌, List, length, min};
ghost use Rattle.tm_conv.specs.Path.{path, step_size, steps_size, farthest_step};
ghost use Rattle.tm_conv.specs.Cost.{cost};
ghost use Rattle.tm_conv.specs.Best.{IsBest};
ghost use Rattle.tm_viterbi.specs.NextSteps.{AreNextSteps};
ghost use Rattle.tm_viterbi.specs.Starts.{starts_from, first_start};
ghost use Rattle.tm_viterbi.specs.WindowSizes.{most_window, stream_bound};
ghost use Rattle.tm_viterbi.specs.Distances.{least_distances};
ghost use Rattle.tm_viterbi.specs.Totals.{most_narrow};

use crate::block::{Start, first_start};
use crate::forward_pass::{MOST_NARROW, run};
use crate::narrow_sums::least_sum;
use crate::path_ends::{first_sums, least_register};
use tm_conv::{Rate, best_path_law, period, step_len};

// After how many steps it is looked again whether a cost is settled.
const STEPS_A_LOOK: usize = 40;

// How many octets are summed in sixteen bits.
const PIECE: usize = 256;

// How many whole steps the next octets have from step t on, at most `limit`, and how many octets these steps take.
#[inline(always)]
fn count_steps(rate: Rate, t: u64, limit: usize, len: usize) -> (usize, usize)
    requires step { step_size rate t ≤ len }
    requires limit { 0 < limit }
    requires few { t + limit < farthest_step }
    ensures { AreNextSteps rate t limit len result.0 result.1 }
{
    // A period sends one symbol more than it has steps, wherever it begins.
    let period = usize::from(period(rate));
    let mut count = 1usize;
    let mut size = step_len(rate, t);
    while limit - count >= period && len - size > period {
        count += period;
        size += period + 1;
    }
    while count < limit {
        let more = step_len(rate, t + count as u64);
        if len - size < more {
            break;
        }
        size += more;
        count += 1;
    }
    (count, size)
}

// Counts as `count_steps` does, for one rate at a time, so that what a step sends is known to the compiler.
fn whole_steps(rate: Rate, t: u64, limit: usize, len: usize) -> (usize, usize)
    requires step { step_size rate t ≤ len }
    requires limit { 0 < limit }
    requires few { t + limit < farthest_step }
    ensures { AreNextSteps rate t limit len result.0 result.1 }
{
    match rate {
        Rate::R12 => count_steps(Rate::R12, t, limit, len),
        Rate::R23 => count_steps(Rate::R23, t, limit, len),
        Rate::R34 => count_steps(Rate::R34, t, limit, len),
        Rate::R56 => count_steps(Rate::R56, t, limit, len),
        Rate::R78 => count_steps(Rate::R78, t, limit, len),
    }
}

/// What the best path over soft octets from step 0 on costs. They are the symbols of at most 69,632 steps. It takes no
/// memory.
pub fn least_cost(rate: Rate, invert: bool, start: Start, soft: &[u8]) -> u64
    requires { (steps : ℕ) × (steps ≤ most_window) × (length soft.now ≡ steps_size rate 0 steps) }
    ensures { (initial : ℕ) × (bits : List ℕ) × IsBest
        (starts_from (first_start start)) rate invert 0 soft.now initial bits
        × (result ≡ cost (path rate invert 0 initial bits) soft.now) }
{
    least_cost_from(rate, invert, start, 0, soft)
}

/// What the best path over soft octets from step `t` on costs, `t` below 2^60. All else is as for `least_cost`.
pub fn least_cost_from(rate: Rate, invert: bool, start: Start, t: u64, soft: &[u8]) -> u64
    requires steps { (steps : ℕ) × (steps ≤ most_window) × (length soft.now ≡ steps_size rate t steps) }
    requires few { t < stream_bound }
    ensures cost { (initial : ℕ) × (bits : List ℕ) × IsBest
        (starts_from (first_start start)) rate invert t soft.now initial bits
        × (result ≡ cost (path rate invert t initial bits) soft.now) }
    ensures small { result < 2 ^ 32 }
{
    cost_below(rate, invert, start, t, soft, 0, u64::MAX, MOST_NARROW)
}

/// The cost as for `least_cost_from` where it is below `limit`, and else `limit`. It stops where that is settled: path
/// metrics never fall, and each octet that is left costs its lesser distance at least.
pub fn least_cost_below(
    rate: Rate,
    invert: bool,
    start: Start,
    t: u64,
    soft: &[u8],
    limit: u64,
) -> u64
    requires steps { (steps : ℕ) × (steps ≤ most_window) × (length soft.now ≡ steps_size rate t steps) }
    requires few { t < stream_bound }
    ensures cost { (initial : ℕ) × (bits : List ℕ) × IsBest
        (starts_from (first_start start)) rate invert t soft.now initial bits
        × (result ≡ min (cost (path rate invert t initial bits) soft.now) limit) }
{
    let least = least_distances(soft);
    cost_below(rate, invert, start, t, soft, least, limit, STEPS_A_LOOK)
}

// The cost as for `least_cost_below`, of octets that are known to cost at least `least` whatever the path. After each
// `look` steps it is looked again whether it is settled.
fn cost_below(
    rate: Rate,
    invert: bool,
    start: Start,
    t: u64,
    soft: &[u8],
    least: u64,
    limit: u64,
    look: usize,
) -> u64
    requires steps { (steps : ℕ) × (steps ≤ most_window) × (length soft.now ≡ steps_size rate t steps) }
    requires few { t < stream_bound }
    requires least { (least ≤ least_distances soft.now) × (least < 2 ^ 32) }
    requires look { (0 < look) × (look ≤ most_narrow) }
    ensures cost { (initial : ℕ) × (bits : List ℕ) × IsBest
        (starts_from (first_start start)) rate invert t soft.now initial bits
        × (cost (path rate invert t initial bits) soft.now < 2 ^ 32)
        × (result ≡ min (cost (path rate invert t initial bits) soft.now) limit) }
{
    best_path_law();
    let mut sums = first_sums(first_start(start));
    let mut survivors = [0u64; MOST_NARROW];
    let mut left = least;
    let mut done = 0usize;
    let mut at = 0usize;
    while at < soft.len() {
        if u64::from(least_sum(&sums)) + left >= limit {
            return limit;
        }
        let now = t + done as u64;
        let (count, size) = whole_steps(rate, now, look, soft.len() - at);
        let octets = &soft[at..at + size];
        run(
            rate,
            invert,
            now,
            octets,
            &mut sums,
            &mut survivors[..count],
            (1 << 30) + 510 * done as u32,
        );
        if left > 0 {
            left = left.saturating_sub(least_distances(octets));
        }
        done += count;
        at += size;
    }
    u64::from(sums[least_register(&sums)]).min(limit)
}

/// What soft octets cost whatever the path: of each the lesser distance.
pub fn least_distances(soft: &[u8]) -> u64
    requires { length soft.now ≤ 2 * most_window }
    ensures value { result ≡ least_distances soft.now }
    ensures small { result < 2 ^ 32 }
{
    let mut sum = 0u64;
    let mut at = 0usize;
    while at < soft.len() {
        let size = (soft.len() - at).min(PIECE);
        sum += u64::from(few_distances(&soft[at..at + size]));
        at += size;
    }
    sum
}

// Sums the lesser distances of octets for which sixteen bits are enough, so that the compiler has eight lanes add at
// once.
fn few_distances(octets: &[u8]) -> u16
    requires { length octets.now ≤ 256 }
    ensures value { result ≡ least_distances octets.now }
    ensures small { result ≤ 127 * length octets.now }
{
    let mut sum = 0u16;
    for octet in octets {
        sum += u16::from((*octet).min(255 - *octet));
    }
    sum
}
