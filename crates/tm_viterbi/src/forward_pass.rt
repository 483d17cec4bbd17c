// The steps of the forward pass.
ghost use Rattle.std.specs.Prelude.{◌≡◌, min, ℕ, ◌+◌, ◌-◌, ◌*◌, ◌/◌, ◌^◌, ◌<◌, ◌≤◌, take, length, slice_index, if◌then◌else◌};
ghost use Rattle.tm_conv.specs.Path.{step_size, steps_size, farthest_step, registers};
ghost use Rattle.tm_conv.specs.Cost.{most_branch_metric};
ghost use Rattle.tm_viterbi.specs.Totals.{StepsTo, AreAtMost, most_spread, most_narrow, narrow_bound};
ghost use Rattle.tm_viterbi.specs.Carries.{Carries};

use crate::branch_metrics::{step_metrics, wide_metrics};
use crate::lanes::lane_column;
use crate::narrow_steps::narrow_at;
use crate::narrow_sums::{are_close, halves_of, least_sum, less_least, with_least};
use tm_conv::{Rate, step_len};

// For how many steps path metrics go in sixteen bits at most.
pub(crate) const MOST_NARROW: usize = 120;

// One step in thirty-two bits. No path metric is above `most` before it: what only the proof needs.
pub(crate) fn step(
    rate: Rate,
    invert: bool,
    t: u64,
    octets: &[u8],
    sums: &mut [u32; 64],
    most: u32,
) -> u64
    requires size { length octets.now ≡ step_size rate t }
    requires most { most + most_branch_metric < 2 ^ 32 }
    requires bounded { AreAtMost most sums.old }
    ensures steps { StepsTo rate invert t octets.now sums.old sums.new result }
    ensures bounded { AreAtMost (most + most_branch_metric) sums.new }
{
    let metrics = wide_metrics(step_metrics(rate, invert, t, octets));
    let mut next = [0u32; 64];
    let survivor = lane_column(sums, &metrics, &mut next);
    *sums = next;
    survivor
}

// At most 120 steps in sixteen bits: metrics that are at most 4,096 above the least, and grow by at most 510 a step,
// are then at most 65,296. Returns how many octets the steps took.
fn narrow_block(
    rate: Rate,
    invert: bool,
    t: u64,
    soft: &[u8],
    sums: &mut [u32; 64],
    least: u32,
    survivors: &mut [u64],
) -> usize
    requires size { steps_size rate t (length survivors.old) ≤ length soft.now }
    requires few { length survivors.old ≤ most_narrow }
    requires first { t + length survivors.old < narrow_bound }
    requires room { least + 2 ^ 16 < 2 ^ 32 }
    requires least { (s : ℕ) → s < registers → least ≤ slice_index sums.old s }
    requires close { (s : ℕ) → s < registers → slice_index sums.old s ≤ least + most_spread }
    ensures taken { result ≡ steps_size rate t (length survivors.new) }
    ensures carries { Carries rate invert t (take result soft.now) sums.old sums.new survivors.new }
    ensures bounded { (m : ℕ) → AreAtMost m sums.old
        → AreAtMost (m + most_branch_metric * length survivors.new) sums.new }
{
    let narrow = less_least(sums, least);
    let (first_low, first_high) = halves_of(&narrow);
    let (low, high, taken) = narrow_at(rate, invert, t, soft, first_low, first_high, survivors);
    *sums = with_least(low, high, least);
    taken
}

// One step in thirty-two bits. Returns how many octets it took.
fn wide_step(
    rate: Rate,
    invert: bool,
    t: u64,
    soft: &[u8],
    sums: &mut [u32; 64],
    survivors: &mut [u64],
    most: u32,
) -> usize
    requires one { length survivors.old ≡ 1 }
    requires size { steps_size rate t 1 ≤ length soft.now }
    requires most { most + most_branch_metric < 2 ^ 32 }
    requires bounded { AreAtMost most sums.old }
    ensures taken { result ≡ steps_size rate t (length survivors.new) }
    ensures carries { Carries rate invert t (take result soft.now) sums.old sums.new survivors.new }
    ensures bounded { AreAtMost (most + most_branch_metric) sums.new }
{
    let end = step_len(rate, t);
    survivors[0] = step(rate, invert, t, &soft[..end], sums, most);
    end
}

// Some steps of the forward pass: those from path metrics that lie close together go in sixteen bits, 120 at a time.
// No path metric is above `most` before them: what only the proof needs.
pub(crate) fn run(
    rate: Rate,
    invert: bool,
    t: u64,
    soft: &[u8],
    sums: &mut [u32; 64],
    survivors: &mut [u64],
    most: u32,
)
    requires size { length soft.now ≡ steps_size rate t (length survivors.old) }
    requires first { t < farthest_step }
    requires room { most + most_branch_metric * length survivors.old + 2 ^ 16 < 2 ^ 32 }
    requires bounded { AreAtMost most sums.old }
    ensures bounded { AreAtMost (most + most_branch_metric * length survivors.new) sums.new }
    ensures carries { Carries rate invert t soft.now sums.old sums.new survivors.new }
{
    let mut done = 0usize;
    let mut at = 0usize;
    while done < survivors.len() {
        let now = t + done as u64;
        let least = least_sum(sums);
        if are_close(sums, least) {
            let end = (survivors.len() - done).min(MOST_NARROW) + done;
            at += narrow_block(
                rate,
                invert,
                now,
                &soft[at..],
                sums,
                least,
                &mut survivors[done..end],
            );
            done = end;
        } else {
            let now_most = most + 510 * done as u32;
            at += wide_step(
                rate,
                invert,
                now,
                &soft[at..],
                sums,
                &mut survivors[done..done + 1],
                now_most,
            );
            done += 1;
        }
    }
}
