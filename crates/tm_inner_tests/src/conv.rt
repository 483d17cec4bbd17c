// Worked values: the symbols of the marker, the punctured rates, the patterns.
ghost use Rattle.std.specs.Prelude.{◌≤◌};

use std::process::Abort;
use tm_base::MARKER;
use tm_conv::{Encoder, Rate, Symbols, kept, plain_encode, symbols_of};

// The symbols of the marker at rate 1/2, the second of each pair inverted.
const MARKER_SYMBOLS: u64 = 0x56081C971AA73D3E;

// The symbols that are sent for the `count` lowest bits of `bits`, as the digits after a first 1.
fn symbols(rate: Rate, invert: bool, bits: u64, count: u32) -> u64
    requires { count ≤ 32 }
{
    let mut encoder = Encoder::new(rate, invert);
    let mut digits = 1;
    for i in 0..count {
        let bit = bits >> (count - 1 - i) & 1 == 1;
        digits = match encoder.step(bit) {
            Symbols::One(symbol) => digits << 1 | u64::from(symbol),
            Symbols::Two(first, second) => digits << 2 | u64::from(first) << 1 | u64::from(second),
        };
    }
    digits
}

#[test]
fn bits_at_each_rate(rt: HostRuntime) {
    let found = [
        symbols(Rate::R12, true, u64::from(u32::from_be_bytes(MARKER)), 32),
        symbols(Rate::R23, false, 0x1A, 8),
        symbols(Rate::R34, false, 0x35, 9),
        symbols(Rate::R56, false, 0x03, 5),
        symbols(Rate::R78, false, 0x0D, 7),
    ];
    let wanted = [
        MARKER_SYMBOLS,
        0b1_000001011111,
        0b1_000011101110,
        0b1_000010,
        0b1_00001011,
    ];
    assert!(rt; found == wanted);
}

// Octets at once, and bit by bit.
#[test]
fn octets_at_once(rt: HostRuntime) {
    let (mut encoder, mut plain) = (Encoder::new(Rate::R12, true), Encoder::new(Rate::R12, true));
    let (mut out, mut plain_out) = ([0; 64], [0; 64]);
    let counts = [
        encoder.encode(&MARKER, 0x80, &mut out),
        plain_encode(&mut plain, &MARKER, 0x80, &mut plain_out),
    ];
    assert!(rt; counts == [64; 2]);
    for i in 0..64usize {
        let wanted = if MARKER_SYMBOLS >> (63 - i) & 1 == 1 {
            0x7F
        } else {
            0x80
        };
        assert!(rt; [out[i], plain_out[i]] == [wanted; 2]);
    }
}

// Each rate, the steps of a period, which of them send each sum, and how many symbols they send.
static PATTERNS: [(Rate, u64, u32, u32, u64); 5] = [
    (Rate::R12, 1, 0b1, 0b1, 2),
    (Rate::R23, 2, 0b10, 0b11, 3),
    (Rate::R34, 3, 0b101, 0b110, 4),
    (Rate::R56, 5, 0b10101, 0b11010, 6),
    (Rate::R78, 7, 0b1000101, 0b1111010, 8),
];

#[test]
fn patterns(rt: HostRuntime) {
    for &(rate, period, first, second, size) in &PATTERNS {
        check_pattern(&rt, rate, period, first, second);
        check_size(&rt, rate, period, size);
    }
}

fn check_pattern(rt: &impl Abort, rate: Rate, period: u64, first: u32, second: u32) {
    assert!(rt; period <= 7);
    for t in 0..period {
        let place = period - 1 - t;
        let keeps = (first >> place & 1 == 1, second >> place & 1 == 1);
        assert!(rt; kept(rate, 1_000_000_000 * period + t) == keeps);
    }
}

// A thousand periods.
fn check_size(rt: &impl Abort, rate: Rate, period: u64, size: u64) {
    assert!(rt; period <= 7 && size <= 8);
    assert!(rt; symbols_of(rate, 1000 * period) == 1000 * size);
}
