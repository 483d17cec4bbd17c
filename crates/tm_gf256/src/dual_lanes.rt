// Words converted by lanes, sixteen octets at once: both ways are linear over bits, so the two halves of an octet are
// converted each by a table of its own.
ghost use Rattle.std.specs.Prelude.{◌≡◌, ◌≤◌, ◌+◌, ℕ, length, map, take};
ghost use Rattle.tm_gf256.specs.Poly.{numbers};
ghost use Rattle.tm_gf256.specs.Dual.{dual_element, dual_octet};
ghost use Rattle.tm_gf256.specs.Halves.{AreHalves};

use crate::dual_plain::{all_from_numbers, all_to_numbers, few_from_dual, few_to_dual};
use crate::element::Gf;
use std::simd::prelude::*;

// The octets of the elements 0 to 15, and those of their multiples of 16 as numbers.
const LOW_OCTETS: [u8; 16] = [
    0x00, 0x7B, 0xAF, 0xD4, 0x99, 0xE2, 0x36, 0x4D, 0xFA, 0x81, 0x55, 0x2E, 0x63, 0x18, 0xCC, 0xB7,
];

const HIGH_OCTETS: [u8; 16] = [
    0x00, 0x86, 0xEC, 0x6A, 0xEF, 0x69, 0x03, 0x85, 0x8D, 0x0B, 0x61, 0xE7, 0x62, 0xE4, 0x8E, 0x08,
];

// The elements of the octets 0 to 15, and those of the octets 0, 16, 32 and so on.
const LOW_ELEMENTS: [u8; 16] = [
    0x00, 0xCC, 0xAC, 0x60, 0x79, 0xB5, 0xD5, 0x19, 0xF0, 0x3C, 0x5C, 0x90, 0x89, 0x45, 0x25, 0xE9,
];

const HIGH_ELEMENTS: [u8; 16] = [
    0x00, 0xFD, 0x2E, 0xD3, 0x42, 0xBF, 0x6C, 0x91, 0xC5, 0x38, 0xEB, 0x16, 0x87, 0x7A, 0xA9, 0x54,
];

// Sixteen octets converted by the tables of their halves.
#[inline(always)]
fn mapped(low: [u8; 16], high: [u8; 16], octets: u8x16) -> u8x16
    ensures { (f : ℕ → ℕ) → AreHalves f low high → result ≡ map f octets }
{
    let by_low = u8x16::from_array(low).swizzle_dyn(octets & u8x16::splat(15));
    let by_high = u8x16::from_array(high).swizzle_dyn(octets >> u8x16::splat(4));
    by_low ^ by_high
}

// Converts the sixteen elements from place `at` on.
fn put_octets(elements: &[Gf], at: usize, octets: &mut [u8])
    requires same { length octets.old ≡ length elements.now }
    requires room { at + 16 ≤ length elements.now }
    ensures { take at octets.old ≡ map dual_octet (numbers (take at elements.now))
        → take (at + 16) octets.new ≡ map dual_octet (numbers (take (at + 16) elements.now)) }
{
    let mut sixteen = [0; 16];
    all_to_numbers(&elements[at..at + 16], &mut sixteen);
    mapped(LOW_OCTETS, HIGH_OCTETS, u8x16::from_array(sixteen)).copy_to_slice(&mut octets[at..]);
}

// Converts the sixteen octets from place `at` on.
fn put_elements(octets: &[u8], at: usize, elements: &mut [Gf])
    requires same { length elements.old ≡ length octets.now }
    requires room { at + 16 ≤ length octets.now }
    ensures { numbers (take at elements.old) ≡ map dual_element (take at octets.now)
        → numbers (take (at + 16) elements.new) ≡ map dual_element (take (at + 16) octets.now) }
{
    let found = mapped(
        LOW_ELEMENTS,
        HIGH_ELEMENTS,
        u8x16::from_slice(&octets[at..]),
    );
    all_from_numbers(&found.to_array(), &mut elements[at..at + 16]);
}

// Writes the octets of elements.
pub fn all_to_dual(elements: &[Gf], octets: &mut [u8])
    requires { length octets.old ≡ length elements.now }
    ensures { octets.new ≡ map dual_octet (numbers elements.now) }
{
    let n = elements.len();
    if n < 16 {
        few_to_dual(elements, octets);
        return;
    }
    for group in 0..n / 16 {
        put_octets(elements, 16 * group, octets);
    }
    // The last sixteen: some of them again, unless n is a multiple of 16.
    put_octets(elements, n - 16, octets);
}

// Writes the elements of octets.
pub fn all_from_dual(octets: &[u8], elements: &mut [Gf])
    requires { length elements.old ≡ length octets.now }
    ensures { numbers elements.new ≡ map dual_element octets.now }
{
    let n = octets.len();
    if n < 16 {
        few_from_dual(octets, elements);
        return;
    }
    for group in 0..n / 16 {
        put_elements(octets, 16 * group, elements);
    }
    // The last sixteen: some of them again, unless n is a multiple of 16.
    put_elements(octets, n - 16, elements);
}
