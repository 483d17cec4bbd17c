// Symbols that were lost or doubled before a window.
ghost use Rattle.std.specs.Prelude.{◌≡◌, ℕ, ◌+◌, ◌*◌, ◌/◌, ◌^◌, ◌<◌, ◌≤◌, length};
ghost use Rattle.tm_conv.specs.declared.rates.Rate.{Rate};
ghost use Rattle.tm_conv.specs.Path.{most_period, steps_size};
ghost use Rattle.tm_viterbi.specs.WindowSizes.{most_window, stream_bound};
ghost use Rattle.tm_viterbi.specs.Distances.{least_distances};
ghost use Rattle.tm_windows.specs.Phase.{period_size, octets_at};
ghost use Rattle.tm_windows.specs.Slip.{steps_seen, octets_seen, excess, decided, IsSlip, most_seen};

use crate::choosing::{cost_at, first_least, period_size};
use tm_conv::{Rate, best_path_law, steps_len};
use tm_viterbi::least_distances;

// The most steps over which a slip is looked for.
const MOST_SEEN: usize = 1024;

/// How many octets are to be dropped before a window from step `t` on, below 2^60, that would begin with these octets:
/// of as many candidates as a period sends symbols, the first whose best path costs least, where four times its excess
/// is below three times that of 0, and else none. A path starts from any register, and goes over `steps` steps, at most
/// 1,024. Its excess is what it costs beyond the sum of the lesser distance of each octet, so that data with a period,
/// and noise alone, seldom pass for a slip. It takes no memory.
pub fn slip(rate: Rate, invert: bool, t: u64, steps: usize, soft: &[u8]) -> u8
    requires steps { steps ≤ most_seen }
    requires few { t < stream_bound }
    requires octets { octets_seen rate t steps ≤ length soft.now }
    ensures slip { IsSlip rate invert t steps soft.now result }
    ensures small { result < period_size rate }
{
    best_path_law();
    let size = steps_len(rate, t, steps);
    let unmoved = cost_at(rate, invert, t, size, soft, 0);
    let still = excess_at(size, soft, 0, unmoved);
    if still == 0 {
        return 0;
    }
    let limit = unmoved.min(cost_bound(&soft[..octets_seen(rate, t, steps)], still));
    let least = first_least(rate, invert, t, size, soft, limit);
    let moved = excess_at(size, soft, least.skip, least.cost);
    taken(least.skip, moved, still)
}

/// How many octets from step `t` on, below 2^60, are looked at for a slip over `steps` steps, at most 1,024.
pub fn octets_seen(rate: Rate, t: u64, steps: usize) -> usize
    requires steps { steps ≤ most_seen }
    requires few { t < stream_bound }
    ensures value { result ≡ octets_seen rate t steps }
    ensures at_most { result ≤ 2 * steps + most_period }
{
    steps_len(rate, t, steps) + usize::from(period_size(rate)) - 1
}

/// Over how many steps a slip is looked for where windows keep `keep` steps and `ahead` follow them: at most 1,024, and
/// at least 8 fewer than those.
pub fn steps_seen(keep: usize, ahead: usize) -> usize
    requires { keep + ahead ≤ most_window }
    ensures { result ≡ steps_seen keep ahead }
{
    (keep + ahead).saturating_sub(8).min(MOST_SEEN)
}

// What a path over the octets of a candidate costs beyond what they cost whatever the path.
fn excess_at(size: usize, soft: &[u8], skip: u8, cost: u64) -> u64
    requires inside { skip + size ≤ length soft.now }
    requires few { size ≤ 2 * most_seen }
    ensures value { (rate : Rate) (t steps : ℕ) → size ≡ steps_size rate t steps
        → result ≡ excess cost (octets_at rate t steps soft.now skip) }
    ensures less { result ≤ cost }
{
    let from = usize::from(skip);
    cost.saturating_sub(least_distances(&soft[from..from + size]))
}

// A candidate that is taken costs less than this, where all of them lie within these octets: three quarters of the
// excess of 0, rounded up, beyond what the octets cost whatever the path.
fn cost_bound(soft: &[u8], unmoved: u64) -> u64
    requires few { length soft.now ≤ 2 * most_window }
    requires small { unmoved < 2 ^ 32 }
    ensures value { result ≡ least_distances soft.now + (3 * unmoved + 3) / 4 }
{
    least_distances(soft) + (3 * unmoved).div_ceil(4)
}

// A candidate, where its excess is below three quarters of that of 0.
fn taken(number: u8, moved: u64, unmoved: u64) -> u8
    requires { (moved < 2 ^ 32) × (unmoved < 2 ^ 32) }
    ensures { result ≡ decided number moved unmoved }
{
    if 4 * moved < 3 * unmoved { number } else { 0 }
}
