// The symbols of whole octets, by tables.
ghost use Rattle.std.specs.Prelude.{◌≡◌, ◌+◌, ◌*◌, ◌%◌, ◌<◌, ◌≤◌, ℕ, [], length, take};
ghost use Rattle.std.proofs.Common.{get_or};
ghost use Rattle.tm_base.specs.Bits.{bits_of, bits_of_octet};
ghost use Rattle.tm_conv.specs.declared.rates.Rate.TheVariants.{R12};
ghost use Rattle.tm_conv.specs.Path.{path, period, register_after, registers};
ghost use Rattle.tm_conv.specs.Encoding.{bit_numbers, levels};
ghost use Rattle.tm_conv.specs.Octets.{AreKept, most_octet_symbols};

mod tables;

use crate::rates::Rate;
use std::simd::prelude::*;
use tables::{FROM_OCTET, FROM_REGISTER, REGISTER_AFTER};

// Which of the sixteen symbols of an octet at rate 1/2 are sent, in their order and then any others: a row for each
// rate and each position of the puncture pattern at which the octet begins.
static KEPT: [[u8; 16]; 18] = [
    [0, 1, 2, 3, 4, 5, 6, 7, 8, 9, 10, 11, 12, 13, 14, 15],
    [0, 1, 3, 4, 5, 7, 8, 9, 11, 12, 13, 15, 0, 0, 0, 0],
    [1, 2, 3, 5, 6, 7, 9, 10, 11, 13, 14, 15, 0, 0, 0, 0],
    [0, 1, 3, 4, 6, 7, 9, 10, 12, 13, 15, 0, 0, 0, 0, 0],
    [1, 2, 4, 5, 7, 8, 10, 11, 13, 14, 0, 0, 0, 0, 0, 0],
    [0, 2, 3, 5, 6, 8, 9, 11, 12, 14, 15, 0, 0, 0, 0, 0],
    [0, 1, 3, 4, 7, 8, 10, 11, 13, 14, 0, 0, 0, 0, 0, 0],
    [1, 2, 5, 6, 8, 9, 11, 12, 15, 0, 0, 0, 0, 0, 0, 0],
    [0, 3, 4, 6, 7, 9, 10, 13, 14, 0, 0, 0, 0, 0, 0, 0],
    [1, 2, 4, 5, 7, 8, 11, 12, 14, 15, 0, 0, 0, 0, 0, 0],
    [0, 2, 3, 5, 6, 9, 10, 12, 13, 15, 0, 0, 0, 0, 0, 0],
    [0, 1, 3, 5, 7, 8, 11, 12, 14, 15, 0, 0, 0, 0, 0, 0],
    [1, 3, 5, 6, 9, 10, 12, 13, 15, 0, 0, 0, 0, 0, 0, 0],
    [1, 3, 4, 7, 8, 10, 11, 13, 15, 0, 0, 0, 0, 0, 0, 0],
    [1, 2, 5, 6, 8, 9, 11, 13, 15, 0, 0, 0, 0, 0, 0, 0],
    [0, 3, 4, 6, 7, 9, 11, 13, 14, 0, 0, 0, 0, 0, 0, 0],
    [1, 2, 4, 5, 7, 9, 11, 12, 15, 0, 0, 0, 0, 0, 0, 0],
    [0, 2, 3, 5, 7, 9, 10, 13, 14, 0, 0, 0, 0, 0, 0, 0],
];

// How many of them are sent.
static COUNTS: [u8; 18] = [
    16, 12, 12, 11, 10, 11, 10, 9, 9, 10, 10, 10, 9, 9, 9, 9, 9, 9,
];

// The position of the puncture pattern after the octet.
static NEXT: [u8; 18] = [0, 0, 1, 2, 0, 1, 3, 4, 0, 1, 2, 1, 2, 3, 4, 5, 6, 0];

// The first row of a rate.
#[inline(always)]
fn first_row(rate: Rate) -> usize
    ensures fits { result + period rate ≤ 18 }
    ensures next { (position : ℕ) → position < period rate
        → get_or NEXT (result + position) 0 ≡ (position + 8) % period rate }
    ensures rows { (position : ℕ) → position < period rate → AreKept rate position (get_or KEPT (result + position) [])
        (get_or COUNTS (result + position) 0) }
{
    match rate {
        Rate::R12 => 0,
        Rate::R23 => 1,
        Rate::R34 => 3,
        Rate::R56 => 6,
        Rate::R78 => 11,
    }
}

// The symbols of an octet at rate 1/2, a 0 as the octet `low` and a 1 as its complement.
#[inline(always)]
fn symbols_at_half(invert: bool, low: u8, register: u8, octet: u8) -> u8x16
    requires { register < registers }
    ensures { result ≡ levels low (path R12 invert 0 register (bit_numbers (bits_of_octet octet))) }
{
    let second = if invert { !low } else { low };
    let flips = u8x16::from_array([
        low, second, low, second, low, second, low, second, low, second, low, second, low, second,
        low, second,
    ]);
    let before = u8x16::from_array(FROM_REGISTER[usize::from(register)]);
    let own = u8x16::from_array(FROM_OCTET[usize::from(octet)]);
    before ^ own ^ flips
}

// The symbols of an octet that begins at a position of the puncture pattern: the first of sixteen octets, and how many
// they are. A 0 is the octet `low`, and a 1 its complement.
#[inline(always)]
fn octet_symbols(
    rate: Rate,
    invert: bool,
    low: u8,
    position: u8,
    register: u8,
    octet: u8,
) -> (u8x16, u8)
    requires position { position < period rate }
    requires register { register < registers }
    ensures long { length result.0 ≡ 16 }
    ensures at_most { result.1 ≤ most_octet_symbols }
    ensures kept { take result.1 result.0 ≡ levels low
        (path rate invert position register (bit_numbers (bits_of_octet octet))) }
{
    let row = first_row(rate) + usize::from(position);
    let symbols = symbols_at_half(invert, low, register, octet);
    (
        symbols.swizzle_dyn(u8x16::from_array(KEPT[row])),
        COUNTS[row],
    )
}

// The register after an octet, whatever it was before.
#[inline(always)]
fn register_of(octet: u8) -> u8
    ensures after { (register : ℕ) → register < registers → result
        ≡ register_after register (bit_numbers (bits_of_octet octet)) }
    ensures small { result < registers }
{
    REGISTER_AFTER[usize::from(octet)]
}

// The position in the puncture pattern after an octet.
#[inline(always)]
fn position_after(rate: Rate, position: u8) -> u8
    requires { position < period rate }
    ensures { result ≡ (position + 8) % period rate }
{
    NEXT[first_row(rate) + usize::from(position)]
}

// The symbols of octets from a position of the puncture pattern and a register on, at the start of `out`: how many they
// are, and the register and the position after them. A 0 is the octet `low`, and a 1 its complement.
#[inline(always)]
fn encode_from(
    rate: Rate,
    invert: bool,
    low: u8,
    first_position: u8,
    first_register: u8,
    octets: &[u8],
    out: &mut [u8],
) -> (usize, u8, u8)
    requires position { first_position < period rate }
    requires register { first_register < registers }
    requires room { most_octet_symbols * length octets.now ≤ length out.old }
    ensures sent { take result.0 out.new
        ≡ levels low (path rate invert first_position first_register (bit_numbers (bits_of octets.now))) }
    ensures at_most { result.0 ≤ most_octet_symbols * length octets.now }
    ensures register { (result.1 ≡ register_after first_register (bit_numbers (bits_of octets.now)))
        × (result.1 < registers) }
    ensures position { (result.2 ≡ (first_position + 8 * length octets.now) % period rate) × (result.2 < period rate) }
    ensures length { length out.new ≡ length out.old }
{
    let mut register = first_register;
    let mut position = first_position;
    let mut count = 0;
    for octet in octets {
        let (symbols, kept) = octet_symbols(rate, invert, low, position, register, *octet);
        symbols.copy_to_slice(&mut out[count..count + 16]);
        count += usize::from(kept);
        register = register_of(*octet);
        position = position_after(rate, position);
    }
    (count, register, position)
}

// `encode_from` with rate 1/2 apart, where each position is the first and all symbols are sent: so the compiler knows
// it.
pub fn encode_octets(
    rate: Rate,
    invert: bool,
    low: u8,
    position: u8,
    register: u8,
    octets: &[u8],
    out: &mut [u8],
) -> (usize, u8, u8)
    requires position { position < period rate }
    requires register { register < registers }
    requires room { most_octet_symbols * length octets.now ≤ length out.old }
    ensures sent { take result.0 out.new
        ≡ levels low (path rate invert position register (bit_numbers (bits_of octets.now))) }
    ensures at_most { result.0 ≤ most_octet_symbols * length octets.now }
    ensures register { (result.1 ≡ register_after register (bit_numbers (bits_of octets.now)))
        × (result.1 < registers) }
    ensures position { (result.2 ≡ (position + 8 * length octets.now) % period rate) × (result.2 < period rate) }
    ensures length { length out.new ≡ length out.old }
{
    match rate {
        Rate::R12 => encode_from(Rate::R12, invert, low, 0, register, octets, out),
        _ => encode_from(rate, invert, low, position, register, octets, out),
    }
}
