// The choice of the symbol phase.
ghost use Rattle.std.specs.Prelude.{◌≡◌, ℕ, ◌+◌, ◌-◌, ◌*◌, ◌^◌, ◌<◌, ◌≤◌, length, min};
ghost use Rattle.tm_conv.specs.Path.{most_period, steps_size};
ghost use Rattle.tm_viterbi.specs.WindowSizes.{most_window, stream_bound};
ghost use Rattle.tm_windows.specs.Phase.{period_size, most_period_size, octets_needed, AreCompared, IsCostAt, IsFirstLeast, IsPhase, IsCostAfter};

use tm_conv::{Rate, symbols_of};
use tm_viterbi::{Start, least_cost_below, least_cost_from};

/// A symbol phase.
#[derive(Clone, Copy, Debug, PartialEq, Eq)]
pub struct Chosen {
    /// How many octets stand before the first step's symbols: fewer than a period of the puncture pattern sends, so at
    /// most 7.
    pub skip: u8,
    /// What the best path after them costs over the steps that were compared.
    pub cost: u64,
}

/// The phase of soft octets: of as many candidates as a period sends symbols, the first whose best path costs least. A
/// path starts from any register at step 0. Compared are the first steps after each candidate: `window` of them, 1 to
/// 69,632, or as many as are whole at every candidate. It takes no memory (CCSDS 131.0-B, Convolutional Coding).
pub fn choose(rate: Rate, invert: bool, window: u32, soft: &[u8]) -> Chosen
    requires { (1 ≤ window) × (window ≤ most_window) }
    ensures { IsPhase rate invert window soft.now result }
{
    let size = compared(rate, window, soft);
    let first = cost_at(rate, invert, 0, size, soft, 0);
    // Where no step is compared, all cost as little.
    if size == 0 {
        return Chosen {
            skip: 0,
            cost: first,
        };
    }
    first_least(rate, invert, 0, size, soft, first)
}

/// With how many soft octets, or more, all `window` steps are compared; at most twice as many, and the steps of the
/// longest period.
pub fn octets_needed(rate: Rate, window: u32) -> usize
    ensures value { result ≡ octets_needed rate window }
    ensures at_most { result ≤ 2 * window + most_period }
{
    symbols_of(rate, u64::from(window)) as usize + usize::from(period_size(rate)) - 1
}

// How many octets of each candidate are compared.
fn compared(rate: Rate, window: u32, soft: &[u8]) -> usize
    requires { window ≤ most_window }
    ensures { (steps : ℕ) × AreCompared rate window soft.now steps × (result ≡ steps_size rate 0 steps) }
{
    let size = usize::from(period_size(rate));
    let room = soft.len().saturating_sub(size - 1);
    // The first step of a period sends two symbols, and each other one.
    let whole = if room % size == 1 { room - 1 } else { room };
    whole.min(symbols_of(rate, u64::from(window)) as usize)
}

// Of the candidates after the first, as many as a period sends symbols with it, the first whose best path costs least
// over `size` octets, those of whole steps from step `t` on, where that is below `limit`; and else 0 and the limit.
pub(crate) fn first_least(
    rate: Rate,
    invert: bool,
    t: u64,
    size: usize,
    soft: &[u8],
    limit: u64,
) -> Chosen
    requires inside { size + (period_size rate - 1) ≤ length soft.now }
    requires whole { (steps : ℕ) × (steps ≤ most_window) × (size ≡ steps_size rate t steps) }
    requires few { t < stream_bound }
    ensures least { (steps : ℕ) → size ≡ steps_size rate t steps
        → IsFirstLeast (IsCostAfter limit (IsCostAt rate invert t steps soft.now)) (period_size rate)
        result.skip result.cost }
{
    let mut chosen = Chosen {
        skip: 0,
        cost: limit,
    };
    for skip in 1..period_size(rate) {
        let cost = cost_below(rate, invert, t, size, soft, skip, chosen.cost);
        if cost < chosen.cost {
            chosen = Chosen { skip, cost };
        }
    }
    chosen
}

// What the best path costs over `size` octets from octet `skip` on.
pub(crate) fn cost_at(rate: Rate, invert: bool, t: u64, size: usize, soft: &[u8], skip: u8) -> u64
    requires inside { skip + size ≤ length soft.now }
    requires whole { (steps : ℕ) × (steps ≤ most_window) × (size ≡ steps_size rate t steps) }
    requires few { t < stream_bound }
    ensures cost { (steps : ℕ) → size ≡ steps_size rate t steps → IsCostAt rate invert t steps soft.now skip result }
    ensures small { result < 2 ^ 32 }
{
    let from = usize::from(skip);
    least_cost_from(rate, invert, Start::Any, t, &soft[from..from + size])
}

// What the best path costs over `size` octets from octet `skip` on, where that is below `limit`, and else `limit`.
fn cost_below(
    rate: Rate,
    invert: bool,
    t: u64,
    size: usize,
    soft: &[u8],
    skip: u8,
    limit: u64,
) -> u64
    requires inside { skip + size ≤ length soft.now }
    requires whole { (steps : ℕ) × (steps ≤ most_window) × (size ≡ steps_size rate t steps) }
    requires few { t < stream_bound }
    ensures cost { (steps : ℕ) → size ≡ steps_size rate t steps
        → (amount : ℕ) × IsCostAt rate invert t steps soft.now skip amount × (result ≡ min amount limit) }
{
    let from = usize::from(skip);
    least_cost_below(rate, invert, Start::Any, t, &soft[from..from + size], limit)
}

// How many symbols a period sends.
#[tactic(auto, unfolding(tm_conv::specs::Path::steps_size))]
pub(crate) fn period_size(rate: Rate) -> u8
    ensures value { result ≡ period_size rate }
    ensures small { (2 ≤ result) × (result ≤ most_period_size) }
{
    match rate {
        Rate::R12 => 2,
        Rate::R23 => 3,
        Rate::R34 => 4,
        Rate::R56 => 6,
        Rate::R78 => 8,
    }
}
