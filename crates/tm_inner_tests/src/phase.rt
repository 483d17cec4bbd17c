// Values from a program outside that walks each candidate's trellis with numbers of its own.

use std::process::Abort;
use tm_conv::Rate;
use tm_windows::{Chosen, choose, octets_needed, octets_seen, slip, steps_seen};

// The octets that cases are prefixes of: the high octet of each next number of a sequence.
fn drawn(seed: u64) -> [u8; 320] {
    let mut now = seed;
    let mut octets = [0; 320];
    for octet in octets.iter_mut() {
        now = now
            .wrapping_mul(6364136223846793005)
            .wrapping_add(1442695040888963407);
        *octet = (now >> 56) as u8;
    }
    octets
}

// The rate, whether it is inverted, the steps of a window, how many octets are drawn from which number on, and the
// skip and the cost of their phase.
static DRAWN: [(Rate, bool, u32, usize, u64, u8, u64); 19] = [
    (Rate::R12, true, 8448, 48, 2, 0, 3108),
    (Rate::R12, false, 8448, 48, 1, 1, 3470),
    (Rate::R12, false, 1, 3, 7, 1, 34),
    (Rate::R12, true, 69632, 2, 3, 0, 0),
    (Rate::R23, false, 9, 30, 4, 1, 588),
    (Rate::R23, true, 8448, 48, 1, 2, 3247),
    (Rate::R23, false, 8448, 3, 9, 0, 0),
    (Rate::R23, false, 4, 8, 11, 2, 236),
    (Rate::R34, false, 69632, 31, 2, 1, 1539),
    (Rate::R34, true, 9, 30, 4, 2, 460),
    (Rate::R34, false, 8448, 48, 1, 3, 3119),
    (Rate::R56, false, 8448, 48, 5, 1, 2142),
    (Rate::R56, false, 9, 30, 1, 4, 781),
    (Rate::R56, true, 35, 48, 3, 5, 3045),
    (Rate::R78, false, 20, 48, 6, 2, 1393),
    (Rate::R78, true, 20, 48, 2, 6, 1162),
    (Rate::R78, false, 8448, 48, 1, 7, 2667),
    (Rate::R78, false, 1, 8, 5, 0, 0),
    (Rate::R78, false, 1, 9, 5, 1, 80),
];

#[test]
fn drawn_octets(rt: HostRuntime) {
    for &(rate, invert, window, count, seed, skip, cost) in &DRAWN {
        let octets = drawn(seed);
        assert!(rt; count <= octets.len());
        assert!(rt; 1 <= window && window <= 69_632);
        let chosen = choose(rate, invert, window, &octets[..count]);
        assert!(rt; chosen == Chosen { skip, cost });
    }
}

// Noise over so few steps that some of it passes for a slip: costs that tie, and an excess that is three quarters of
// that of octet 0, or a little more or less. The last rows are of as many octets as there are, nearly: an excess a
// little less than three quarters, and then a little more, with others that are settled before the last step.
static SLIPS: [(Rate, bool, u64, usize, u64, u8); 25] = [
    (Rate::R12, true, 3, 20, 147, 0),
    (Rate::R12, true, 3, 20, 368, 0),
    (Rate::R12, true, 3, 20, 1422, 1),
    (Rate::R12, true, 3, 20, 2552, 0),
    (Rate::R12, false, 1_000_000_007, 16, 172, 0),
    (Rate::R12, false, 1_000_000_007, 16, 445, 1),
    (Rate::R23, true, 3, 20, 8, 2),
    (Rate::R23, true, 3, 20, 271, 2),
    (Rate::R23, true, 3, 20, 485, 0),
    (Rate::R34, true, 3, 20, 1, 0),
    (Rate::R34, true, 3, 20, 13, 2),
    (Rate::R34, true, 3, 20, 21, 3),
    (Rate::R34, true, 3, 20, 22, 1),
    (Rate::R56, true, 3, 20, 3, 0),
    (Rate::R78, false, 0, 12, 1, 0),
    (Rate::R12, true, 3, 150, 13_429, 1),
    (Rate::R12, true, 3, 150, 118_906, 0),
    (Rate::R23, false, 4, 150, 3, 1),
    (Rate::R23, false, 4, 150, 645, 0),
    (Rate::R34, true, 5, 150, 2, 2),
    (Rate::R34, true, 5, 150, 17, 0),
    (Rate::R56, true, 6, 220, 3, 5),
    (Rate::R56, true, 6, 220, 35, 0),
    (Rate::R78, true, 1_000_000_007, 260, 7, 1),
    (Rate::R78, true, 1_000_000_007, 260, 1, 0),
];

#[test]
fn slips_in_drawn_octets(rt: HostRuntime) {
    for &(rate, invert, t, steps, seed, dropped) in &SLIPS {
        let found = slip_in(&rt, rate, invert, t, steps, &drawn(seed));
        assert!(rt; found == dropped);
    }
}

// How many octets are dropped, where the octets are enough to tell.
fn slip_in(rt: &impl Abort, rate: Rate, invert: bool, t: u64, steps: usize, octets: &[u8]) -> u8 {
    assert!(rt; steps <= 1024 && t < 1 << 60);
    assert!(rt; octets_seen(rate, t, steps) <= octets.len());
    slip(rate, invert, t, steps, octets)
}

// How many octets the choice of a phase and the look for a slip read, and at how many steps.
#[test]
fn octets_and_steps(rt: HostRuntime) {
    let octets = [
        octets_needed(Rate::R34, 8_448),
        octets_seen(Rate::R34, 5, 1024),
    ];
    assert!(rt; octets == [11_267, 1_368]);
    assert!(rt; steps_seen(1000, 31) == 1023);
}
