// Values of a polynomial at the elements of sixteen places at once, and of two such groups at a time.
ghost use Rattle.std.specs.Prelude.{◌≡◌, ◌<◌, ◌≤◌, ◌+◌, ◌*◌, ℕ, length, slice_index_or};
ghost use Rattle.tm_gf256.specs.Field.{times};
ghost use Rattle.tm_gf256.specs.Poly.{numbers, value_at};
ghost use Rattle.tm_rs_code.specs.Code.{place_of, most_coefficients};
ghost use Rattle.tm_rs_code.specs.Powers.{ArePowers};
ghost use Rattle.tm_rs_code.specs.Register.{multiple};

mod powers;
mod products;

use powers::{HIGH_HALVES, LOW_HALVES};
use products::{HIGH, LOW};
use std::simd::prelude::*;
use tm_gf256::Gf;

// What the halves of an octet stand for.
const LOW_PLACES: [u8; 16] = [0, 1, 2, 3, 4, 5, 6, 7, 8, 9, 10, 11, 12, 13, 14, 15];

const HIGH_PLACES: [u8; 16] = [
    0, 16, 32, 48, 64, 80, 96, 112, 128, 144, 160, 176, 192, 208, 224, 240,
];

// The products of a factor with what the low half of an octet may stand for.
fn low_products(factor: u8) -> u8x16
    ensures { result ≡ multiple factor LOW_PLACES }
{
    u8x16::from_array(LOW[usize::from(factor)])
}

// The products of a factor with what the high half of an octet may stand for.
fn high_products(factor: u8) -> u8x16
    ensures { result ≡ multiple factor HIGH_PLACES }
{
    u8x16::from_array(HIGH[usize::from(factor)])
}

// The products of sixteen elements, given by their halves, with the one that has these products of halves.
#[inline(always)]
fn product(low: u8x16, high: u8x16, lows: u8x16, highs: u8x16) -> u8x16
    requires lows { (m : ℕ) → m < 16 → slice_index_or lows m 0 < 16 }
    requires highs { (m : ℕ) → m < 16 → slice_index_or highs m 0 < 16 }
    ensures long { length result ≡ 16 }
    ensures value { (factor : ℕ) → low ≡ multiple factor LOW_PLACES → high ≡ multiple factor HIGH_PLACES → (m : ℕ)
        → m < 16
        → slice_index_or result m 0 ≡ times factor (slice_index_or lows m 0 + 16 * slice_index_or highs m 0) }
{
    low.swizzle_dyn(lows) ^ high.swizzle_dyn(highs)
}

// The powers of the elements of places 16 * group to 16 * group + 15, by their halves.
#[inline(always)]
fn powers_of(group: usize) -> (&'static [[u8; 16]; 33], &'static [[u8; 16]; 33])
    requires { group < 16 }
    ensures { ArePowers (λ m. place_of (16 * group + m)) result.0.now result.1.now }
{
    (&LOW_HALVES[group], &HIGH_HALVES[group])
}

// The values at places 16 * group to 16 * group + 31, of which half stand in each vector.
fn place_values(poly: &[Gf], group: usize) -> (u8x16, u8x16)
    requires few { length poly.now ≤ most_coefficients }
    requires group { group + 2 ≤ 16 }
    ensures long { length result.0 ≡ 16 }
    ensures values { (m : ℕ) → m < 16
        → slice_index_or result.0 m 0 ≡ value_at (numbers poly.now) (place_of (16 * group + m)) }
    ensures next_long { length result.1 ≡ 16 }
    ensures next_values { (m : ℕ) → m < 16
        → slice_index_or result.1 m 0 ≡ value_at (numbers poly.now) (place_of (16 * (group + 1) + m)) }
{
    let n = poly.len();
    let (lows, highs) = powers_of(group);
    let (next_lows, next_highs) = powers_of(group + 1);
    let mut sum = u8x16::splat(0);
    let mut next = u8x16::splat(0);
    for i in 0..n {
        let k = n - 1 - i;
        let factor = poly[i].number();
        let low = low_products(factor);
        let high = high_products(factor);
        sum = sum
            ^ product(
                low,
                high,
                u8x16::from_array(lows[k]),
                u8x16::from_array(highs[k]),
            );
        next = next
            ^ product(
                low,
                high,
                u8x16::from_array(next_lows[k]),
                u8x16::from_array(next_highs[k]),
            );
    }
    (sum, next)
}

// Writes the values at the places from 16 * first on, thirty-two of them a pair of groups.
pub fn store_values(poly: &[Gf], first: usize, pairs: usize, out: &mut [u8])
    requires few { length poly.now ≤ most_coefficients }
    requires known { first + 2 * pairs ≤ 16 }
    requires room { 32 * pairs ≤ length out.old }
    ensures size { length out.new ≡ length out.old }
    ensures values { (i : ℕ) → i < 32 * pairs
        → slice_index_or out.new i 0 ≡ value_at (numbers poly.now) (place_of (16 * first + i)) }
{
    for pair in 0..pairs {
        let (values, next) = place_values(poly, first + 2 * pair);
        values.copy_to_slice(&mut out[32 * pair..]);
        next.copy_to_slice(&mut out[32 * pair + 16..]);
    }
}
