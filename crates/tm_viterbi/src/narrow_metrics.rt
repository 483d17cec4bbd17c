// Add-compare-select by lanes of sixteen bits, sixteen of the code's registers at a time: as many as the processor's
// own registers hold.
ghost use Rattle.std.specs.Prelude.{◌≡◌, ◌++◌, min, ℕ, ◌+◌, ◌-◌, ◌*◌, ◌/◌, ◌%◌, ◌^◌, ◌<◌, length, slice_index, nat_lt, if◌then◌else◌};
ghost use Rattle.tm_conv.specs.Path.{c1, c2, registers};
ghost use Rattle.tm_viterbi.specs.AddCompareSelect.{IsHalf, AreSortedPlaces, IsNextSums, AreSurvivors};

use std::simd::prelude::*;

// Which branch metric, at 2 * c1 + c2, is that of the branch by bit 0 from register 2 * i (near) and from the one after
// it (far), i below 16 (first) and from 16 on (second). By bit 1 the two change places.
const NEAR_FIRST: [usize; 16] = [0, 1, 0, 1, 3, 2, 3, 2, 3, 2, 3, 2, 0, 1, 0, 1];

const FAR_FIRST: [usize; 16] = [3, 2, 3, 2, 0, 1, 0, 1, 0, 1, 0, 1, 3, 2, 3, 2];

const NEAR_SECOND: [usize; 16] = [2, 3, 2, 3, 1, 0, 1, 0, 1, 0, 1, 0, 2, 3, 2, 3];

const FAR_SECOND: [usize; 16] = [1, 0, 1, 0, 2, 3, 2, 3, 2, 3, 2, 3, 1, 0, 1, 0];

// In each eight lanes, those at even places first.
const SORTED: [u16; 32] = [
    0, 2, 4, 6, 1, 3, 5, 7, 0, 2, 4, 6, 1, 3, 5, 7, 0, 2, 4, 6, 1, 3, 5, 7, 0, 2, 4, 6, 1, 3, 5, 7,
];

// Where the lanes from even and from odd places then are.
const EVENS: [usize; 16] = [0, 1, 2, 3, 8, 9, 10, 11, 16, 17, 18, 19, 24, 25, 26, 27];

const ODDS: [usize; 16] = [4, 5, 6, 7, 12, 13, 14, 15, 20, 21, 22, 23, 28, 29, 30, 31];

// All lanes of one vector, and then all of another.
const WHOLE: [usize; 32] = [
    0, 1, 2, 3, 4, 5, 6, 7, 8, 9, 10, 11, 12, 13, 14, 15, 16, 17, 18, 19, 20, 21, 22, 23, 24, 25,
    26, 27, 28, 29, 30, 31,
];

// The branch metrics by bit 0 from registers 2 * i and from registers 2 * i + 1, i below 16.
fn first_half_metrics(metrics: Simd<u16, 4>) -> (Simd<u16, 16>, Simd<u16, 16>)
    ensures near { IsHalf result.0 (λ i. slice_index metrics (2 * c1 (2 * i) 0 + c2 (2 * i) 0)) }
    ensures far { IsHalf result.1 (λ i. slice_index metrics (2 * c1 (2 * i + 1) 0 + c2 (2 * i + 1) 0)) }
{
    (metrics.swizzle(NEAR_FIRST), metrics.swizzle(FAR_FIRST))
}

// The branch metrics by bit 0 from registers 2 * (16 + i) and from registers 2 * (16 + i) + 1, i below 16.
fn second_half_metrics(metrics: Simd<u16, 4>) -> (Simd<u16, 16>, Simd<u16, 16>)
    ensures near { IsHalf result.0 (λ i. slice_index metrics (2 * c1 (2 * (16 + i)) 0 + c2 (2 * (16 + i)) 0)) }
    ensures far { IsHalf result.1 (λ i. slice_index metrics (2 * c1 (2 * (16 + i) + 1) 0 + c2 (2 * (16 + i) + 1) 0)) }
{
    (metrics.swizzle(NEAR_SECOND), metrics.swizzle(FAR_SECOND))
}

// `SORTED`, to which a 0 is added that the compiler can't know. So it looks lanes up there, by one instruction for
// eight of them; for a shuffle that it knows it writes two and more.
pub(crate) fn sorted_places(zero: u16) -> Simd<u16, 32>
    requires { zero ≡ 0 }
    ensures { AreSortedPlaces result }
{
    Simd::<u16, 32>::from_array(SORTED).strict_add(Simd::splat(zero))
}

// The lanes at even places, and those at odd ones. `places` are `sorted_places(0)`.
fn evens_and_odds(half: Simd<u16, 32>, places: Simd<u16, 32>) -> (Simd<u16, 16>, Simd<u16, 16>)
    requires { AreSortedPlaces places }
    ensures even { IsHalf result.0 (λ i. slice_index half (2 * i)) }
    ensures odd { IsHalf result.1 (λ i. slice_index half (2 * i + 1)) }
{
    let sorted = half.swizzle_dyn_within::<8>(places);
    (sorted.swizzle(EVENS), sorted.swizzle(ODDS))
}

// Add, compare, select: the lesser of the two path metrics into each of sixteen registers, and a bit for each that is 1
// where the first is kept. Complemented they are survivors.
fn lesser(
    first: Simd<u16, 16>,
    first_metrics: Simd<u16, 16>,
    second: Simd<u16, 16>,
    second_metrics: Simd<u16, 16>,
) -> (Simd<u16, 16>, u64)
    requires first_fits { (i : ℕ) → i < 16 → slice_index first i + slice_index first_metrics i < 2 ^ 16 }
    requires second_fits { (i : ℕ) → i < 16 → slice_index second i + slice_index second_metrics i < 2 ^ 16 }
    ensures sums { IsHalf result.0 (λ i. min (slice_index first i + slice_index first_metrics i)
        (slice_index second i + slice_index second_metrics i)) }
    ensures bits { (i : ℕ) → i < 16 → (65535 - result.1) / 2 ^ i % 2
        ≡ (if nat_lt (slice_index second i + slice_index second_metrics i)
        (slice_index first i + slice_index first_metrics i) then 1 else 0) }
    ensures small { result.1 < 2 ^ 16 }
{
    let one = first.strict_add(first_metrics);
    let other = second.strict_add(second_metrics);
    let least = one.simd_min(other);
    (least, least.simd_eq(one).to_bitmask())
}

// Sixteen lanes, and sixteen more.
fn joined(first: Simd<u16, 16>, second: Simd<u16, 16>) -> Simd<u16, 32>
    requires { (length first ≡ 16) × (length second ≡ 16) }
    ensures { result ≡ first ++ second }
{
    first.shuffle(second, WHOLE)
}

// The next path metrics, those of registers below 32 and those of the others, and the survivors. The order
// of its lines counts: in another the compiler puts more vectors aside.
#[inline(always)]
pub(crate) fn narrow_metrics(
    low: Simd<u16, 32>,
    high: Simd<u16, 32>,
    metrics: Simd<u16, 4>,
    places: Simd<u16, 32>,
) -> (Simd<u16, 32>, Simd<u16, 32>, u64)
    requires fits { (s k : ℕ) → s < registers → k < 4 → slice_index (low ++ high) s + slice_index metrics k < 2 ^ 16 }
    requires places { AreSortedPlaces places }
    ensures sums { IsNextSums (low ++ high) metrics (result.0 ++ result.1) }
    ensures survivors { AreSurvivors (low ++ high) metrics result.2 }
    ensures long { (length result.0 ≡ 32) × (length result.1 ≡ 32) }
{
    let (even_first, odd_first) = evens_and_odds(low, places);
    let (even_second, odd_second) = evens_and_odds(high, places);
    let (near_first, far_first) = first_half_metrics(metrics);
    let (low_first, low_first_bits) = lesser(even_first, near_first, odd_first, far_first);
    let (high_first, high_first_bits) = lesser(even_first, far_first, odd_first, near_first);
    let (near_second, far_second) = second_half_metrics(metrics);
    let (low_second, low_second_bits) = lesser(even_second, near_second, odd_second, far_second);
    let (high_second, high_second_bits) = lesser(even_second, far_second, odd_second, near_second);
    let next_low = joined(low_first, low_second);
    let next_high = joined(high_first, high_second);
    let bits = low_first_bits
        + (low_second_bits << 16)
        + (high_first_bits << 32)
        + (high_second_bits << 48);
    (next_low, next_high, !bits)
}
