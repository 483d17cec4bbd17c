// The tests of one column.
ghost use Rattle.std.specs.Prelude.{◌≡◌, ◌↔◌, ℕ, ◌+◌, ◌*◌, ◌^◌, ◌≤◌, ◌<◌, IsTrue, slice_index};
ghost use Rattle.tm_conv.specs.Path.{c1, c2, step_symbols, registers};
ghost use Rattle.tm_conv.specs.Cost.{cost};
ghost use Rattle.tm_path_cert.specs.Claim as claim;
ghost use Rattle.tm_path_cert.specs.Tests.{IsFirstFailing, IsLowEnough, StartsAt};

use crate::steps::Step;
use crate::verdicts::Starts;

/// Whether a path may start from a register.
pub fn is_start(starts: Starts, register: u8) -> bool
    ensures { result ≡ claim.is_start starts register }
{
    match starts {
        Starts::Any => true,
        Starts::One(start) => register == start,
    }
}

// The least start that has another sum than 0.
pub(crate) fn first_start_wrong(starts: Starts, sums: &[u32; 64]) -> Option<u8>
    ensures { IsFirstFailing (λ register. StartsAt (claim.is_start starts) sums.now register) result }
{
    for register in 0..64u8 {
        if is_start(starts, register) && sums[register as usize] != 0 {
            return Some(register);
        }
    }
    None
}

// Whether no edge of a step undercuts the sum of a register.
fn is_low_enough(step: &Step<'_>, before: &[u32; 64], sums: &[u32; 64], register: u8) -> bool
    requires { register < registers }
    ensures { IsTrue result
        ↔ IsLowEnough (λ from bit. cost (step_symbols step.now.rate step.now.invert step.now.t from bit)
        step.now.octets.now) before.now sums.now register }
{
    let even = register % 32 * 2;
    let odd = even + 1;
    let bit = register / 32;
    let sum = u64::from(sums[register as usize]);
    let by_even = u64::from(before[even as usize]) + u64::from(step.cost(even, bit));
    let by_odd = u64::from(before[odd as usize]) + u64::from(step.cost(odd, bit));
    sum <= by_even && sum <= by_odd
}

// The two sums of a step from register 2 * j by bit 0, as 2 * first + second: at 2 * (j / 4) + j % 2. They are the same
// from register 2 * j + 1 by bit 1, and both are complemented on the other two edges from these registers.
static PAIRS: [usize; 16] = [0, 1, 3, 2, 3, 2, 0, 1, 2, 3, 1, 0, 1, 0, 2, 3];

// How far the four edges from registers 2 * j and 2 * j + 1 are above the sums that they lead to, all in the bits of
// one number: an edge that undercuts its sum sets the top bit.
fn margins(near: u32, far: u32, before: &[u32; 64], sums: &[u32; 64], j: usize) -> u64
    requires { j < 32 }
    ensures low { result < 2 ^ 63 → (slice_index sums.now j ≤ slice_index before.now (2 * j) + near)
        × (slice_index sums.now j ≤ slice_index before.now (2 * j + 1) + far) }
    ensures high { result < 2 ^ 63 → (slice_index sums.now (j + 32) ≤ slice_index before.now (2 * j) + far)
        × (slice_index sums.now (j + 32) ≤ slice_index before.now (2 * j + 1) + near) }
{
    let near = u64::from(near);
    let far = u64::from(far);
    let even = u64::from(before[2 * j]);
    let odd = u64::from(before[2 * j + 1]);
    let low = u64::from(sums[j]);
    let high = u64::from(sums[j + 32]);
    (even + near).wrapping_sub(low)
        | (odd + far).wrapping_sub(low)
        | (even + far).wrapping_sub(high)
        | (odd + near).wrapping_sub(high)
}

// True only where no edge undercuts any sum. `costs` are the step's branch metrics, each at the two sums of its edge.
fn are_low_enough(costs: &[u32; 4], before: &[u32; 64], sums: &[u32; 64]) -> bool
    ensures { IsTrue result → (register : ℕ) → register < registers
        → IsLowEnough (λ from bit. slice_index costs.now (2 * c1 from bit + c2 from bit)) before.now sums.now register }
{
    let mut all = 0;
    for k in 0..8usize {
        // The compiler takes these four side by side.
        for i in 0..4usize {
            let pair = PAIRS[2 * k + i % 2];
            all |= margins(costs[pair], costs[3 - pair], before, sums, 4 * k + i);
        }
    }
    all < 1 << 63
}

// The least register whose sum an edge of a step undercuts.
pub(crate) fn first_undercut(step: &Step<'_>, before: &[u32; 64], sums: &[u32; 64]) -> Option<u8>
    ensures { IsFirstFailing (λ register. IsLowEnough (λ from bit. cost
        (step_symbols step.now.rate step.now.invert step.now.t from bit) step.now.octets.now) before.now sums.now
        register) result }
{
    // Mostly no edge does, and that is seen at less cost than where.
    if are_low_enough(&step.costs(), before, sums) {
        return None;
    }
    for register in 0..64u8 {
        if !is_low_enough(step, before, sums, register) {
            return Some(register);
        }
    }
    None
}

// The least register whose sum is less than the metric.
pub(crate) fn first_less(sums: &[u32; 64], metric: u64) -> Option<u8>
    ensures { IsFirstFailing (λ register. metric ≤ slice_index sums.now register) result }
{
    for register in 0..64u8 {
        if u64::from(sums[register as usize]) < metric {
            return Some(register);
        }
    }
    None
}
