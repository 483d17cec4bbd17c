// The field and polynomials over it.
use tm_gf256::{Gf, derivative_into, eval, mul_into};

// Powers of alpha, as CCSDS 131.0-B has the field.
static SOME_POWERS: [(u32, u8); 14] = [
    (0, 0x01),
    (1, 0x02),
    (7, 0x80),
    (8, 0x87),
    (16, 0x6F),
    (32, 0x1D),
    (64, 0xD6),
    (100, 0x06),
    (127, 0x1A),
    (128, 0x34),
    (200, 0x14),
    (208, 0x48),
    (249, 0x5B),
    (254, 0xC3),
];

#[test]
fn powers_of_alpha(rt: HostRuntime) {
    for (i, number) in SOME_POWERS {
        let element = Gf(number);
        assert!(rt; [Gf::exp(i), Gf(2).pow(i)] == [element; 2]);
        assert!(rt; number != 0 && element.log() == i);
    }
}

// alpha^8 alpha^248 = alpha^256 = alpha, and alpha^254 is the inverse of alpha.
#[test]
fn operations(rt: HostRuntime) {
    let found = [Gf(0x87).add(Gf(0x89)), Gf(0x87).mul(Gf(0xEE)), Gf(2).inv()];
    assert!(rt; found == [Gf(0x0E), Gf(0x02), Gf(0xC3)]);
    assert!(rt; found[2].number() == 0xC3);
}

// (x + 1) (x + alpha) = x^2 + 03 x + 02, whose derivative is 03.
#[test]
fn polynomials(rt: HostRuntime) {
    let (mut product, mut derivative) = ([Gf(0); 3], [Gf(9); 2]);
    mul_into(&[Gf(1), Gf(1)], &[Gf(1), Gf(2)], &mut product);
    derivative_into(&product, &mut derivative);
    assert!(rt; product == [Gf(1), Gf(3), Gf(2)] && derivative == [Gf(0), Gf(3)]);
    assert!(rt; [eval(&product, Gf(2)), eval(&product, Gf(0))] == [Gf(0), Gf(2)]);
}
