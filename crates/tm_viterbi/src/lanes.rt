// The path metrics after a step from those before it, by lanes of thirty-two bits.
ghost use Rattle.std.specs.Prelude.{◌≡◌, ◌++◌, min, ℕ, ◌+◌, ◌-◌, ◌*◌, ◌/◌, ◌%◌, ◌^◌, ◌<◌, length, slice_index, nat_lt, if◌then◌else◌};
ghost use Rattle.tm_conv.specs.Path.{c1, c2, registers};
ghost use Rattle.tm_viterbi.specs.AddCompareSelect.{IsEach, IsNextSums, AreSurvivors};

use std::simd::prelude::*;

// The index 2 * c1 + c2 of the branch metric from register 2 * i by bit 0 (near), and from register 2 * i + 1 (far). By
// bit 1 the two change places.
const NEAR: [usize; 32] = [
    0, 1, 0, 1, 3, 2, 3, 2, 3, 2, 3, 2, 0, 1, 0, 1, 2, 3, 2, 3, 1, 0, 1, 0, 1, 0, 1, 0, 2, 3, 2, 3,
];

const FAR: [usize; 32] = [
    3, 2, 3, 2, 0, 1, 0, 1, 0, 1, 0, 1, 3, 2, 3, 2, 1, 0, 1, 0, 2, 3, 2, 3, 2, 3, 2, 3, 1, 0, 1, 0,
];

// The path metrics of the even registers and those of the odd ones.
fn halves(sums: &[u32; 64]) -> (Simd<u32, 32>, Simd<u32, 32>)
    ensures even { IsEach result.0 (λ i. slice_index sums.now (2 * i)) }
    ensures odd { IsEach result.1 (λ i. slice_index sums.now (2 * i + 1)) }
{
    let low = Simd::<u32, 32>::from_slice(&sums[..32]);
    let high = Simd::<u32, 32>::from_slice(&sums[32..]);
    low.deinterleave(high)
}

// The branch metrics by bit 0 from registers 2 * i.
fn near_metrics(metrics: &[u32; 4]) -> Simd<u32, 32>
    ensures { IsEach result (λ i. slice_index metrics.now (2 * c1 (2 * i) 0 + c2 (2 * i) 0)) }
{
    u32x4::from_array(*metrics).swizzle(NEAR)
}

// The branch metrics by bit 0 from registers 2 * i + 1.
fn far_metrics(metrics: &[u32; 4]) -> Simd<u32, 32>
    ensures { IsEach result (λ i. slice_index metrics.now (2 * c1 (2 * i + 1) 0 + c2 (2 * i + 1) 0)) }
{
    u32x4::from_array(*metrics).swizzle(FAR)
}

// The lesser of two path metrics, and where the second is strictly less.
fn lesser(
    first: Simd<u32, 32>,
    near: Simd<u32, 32>,
    second: Simd<u32, 32>,
    far: Simd<u32, 32>,
) -> (Simd<u32, 32>, u64)
    requires lanes { (length first ≡ 32) × (length near ≡ 32) × (length second ≡ 32) × (length far ≡ 32) }
    requires first_fits { (i : ℕ) → i < 32 → slice_index first i + slice_index near i < 2 ^ 32 }
    requires second_fits { (i : ℕ) → i < 32 → slice_index second i + slice_index far i < 2 ^ 32 }
    ensures sums { IsEach result.0 (λ i. min (slice_index first i + slice_index near i)
        (slice_index second i + slice_index far i)) }
    ensures bits { (i : ℕ) → i < 32 → result.1 / 2 ^ i % 2
        ≡ (if nat_lt (slice_index second i + slice_index far i) (slice_index first i + slice_index near i) then 1
        else 0) }
    ensures small { result.1 < 2 ^ 32 }
{
    let one = first.strict_add(near);
    let other = second.strict_add(far);
    let less = other.simd_lt(one);
    (less.select(other, one), less.to_bitmask())
}

// Stores the path metrics of registers 0 to 31, and those of 32 to 63.
fn store_halves(low: Simd<u32, 32>, high: Simd<u32, 32>, next: &mut [u32; 64])
    requires { (length low ≡ 32) × (length high ≡ 32) }
    ensures { next.new ≡ low ++ high }
{
    low.copy_to_slice(&mut next[..32]);
    high.copy_to_slice(&mut next[32..]);
}

/// The path metrics and survivors as for `plain_column`, by lanes of 32 registers.
pub fn lane_column(sums: &[u32; 64], metrics: &[u32; 4], next: &mut [u32; 64]) -> u64
    requires { (s k : ℕ) → s < registers → k < 4 → slice_index sums.now s + slice_index metrics.now k < 2 ^ 32 }
    ensures sums { IsNextSums sums.now metrics.now next.new }
    ensures survivors { AreSurvivors sums.now metrics.now result }
{
    let (even, odd) = halves(sums);
    let near = near_metrics(metrics);
    let far = far_metrics(metrics);
    let (low, low_bits) = lesser(even, near, odd, far);
    let (high, high_bits) = lesser(even, far, odd, near);
    store_halves(low, high, next);
    low_bits + (high_bits << 32)
}
