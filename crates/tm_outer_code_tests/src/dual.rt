// The dual basis.
use tm_gf256::{Basis, Gf, from_dual, to_dual};

// Rows of the two matrices of CCSDS 131.0-B: the octet of each bit of an element, and the element of
// each bit of an octet, the most significant first; then coefficients of the generator of the
// (255,223) code with their octets.
static ROWS: [(u8, u8); 33] = [
    (0x80, 0x8D),
    (0x40, 0xEF),
    (0x20, 0xEC),
    (0x10, 0x86),
    (0x08, 0xFA),
    (0x04, 0x99),
    (0x02, 0xAF),
    (0x01, 0x7B),
    (0xC5, 0x80),
    (0x42, 0x40),
    (0x2E, 0x20),
    (0xFD, 0x10),
    (0xF0, 0x08),
    (0x79, 0x04),
    (0xAC, 0x02),
    (0xCC, 0x01),
    (0x00, 0x00),
    (0x5B, 0x47),
    (0x7F, 0x32),
    (0x56, 0x5F),
    (0x10, 0x86),
    (0x1E, 0x4A),
    (0x0D, 0x18),
    (0xEB, 0xA0),
    (0x61, 0x78),
    (0xA5, 0x83),
    (0x08, 0xFA),
    (0x2A, 0xB9),
    (0x36, 0x5C),
    (0x56, 0x5F),
    (0xAB, 0x4F),
    (0x20, 0xEC),
    (0x71, 0xFE),
];

#[test]
fn rows_of_the_matrices(rt: HostRuntime) {
    for (number, octet) in ROWS {
        let element = Gf(number);
        let (dual, poly) = (Basis::Dual, Basis::Poly);
        let octets = [
            to_dual(element),
            dual.to_octet(element),
            poly.to_octet(element),
        ];
        assert!(rt; octets == [octet, octet, number]);
        let elements = [
            from_dual(octet),
            dual.from_octet(octet),
            poly.from_octet(number),
        ];
        assert!(rt; elements == [element; 3]);
    }
}

#[test]
fn whole_words(rt: HostRuntime) {
    let elements = [Gf(0x01), Gf(0x5B), Gf(0x7F)];
    let (mut octets, mut back) = ([0; 3], [Gf(0); 3]);
    Basis::Dual.elements_to_octets(&elements, &mut octets);
    Basis::Dual.octets_to_elements(&octets, &mut back);
    assert!(rt; octets == [0x7B, 0x47, 0x32] && back == elements);
}
