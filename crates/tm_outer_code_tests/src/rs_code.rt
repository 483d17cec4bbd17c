// The code against its tabled values, and the values by lanes against the plain form.
use crate::generators::OF_16;
use tm_gf256::{Basis, Gf};
use tm_rs_code::{
    Params, count_erased, distance, is_codeword, plain_values_at_places, short_syndromes,
    syndromes, values_at_places,
};

// The codeword whose one information symbol is 1.
fn codeword() -> [Gf; 33] {
    let mut word = [Gf(0); 33];
    Basis::Poly.octets_to_elements(&OF_16, &mut word);
    word
}

#[test]
fn generator_is_a_codeword(rt: HostRuntime) {
    let params = Params::new(16, 33).unwrap();
    let word = codeword();
    let mut wrong = word;
    wrong[0] = Gf(0);
    wrong[16] = Gf(0x70);
    wrong[32] = Gf(0);
    assert!(rt; is_codeword(&params, &word) && !is_codeword(&params, &wrong));
    assert!(rt; distance(&word, &wrong) == 3);
    assert!(rt; count_erased(&[true, false, true, true]) == 3);
}

// A word of one symbol 1 has its place's power of each root as its syndromes.
#[test]
fn syndromes_of_one_symbol(rt: HostRuntime) {
    let params = Params::new(16, 33).unwrap();
    let mut word = [Gf(0); 33];
    word[31] = Gf(1);
    let found = syndromes(&params, &word);
    assert!(rt; [found[0], found[1]] == [Gf(0x15), Gf(0x64)]);
    assert!(rt; short_syndromes(&params, &word) == found);
}

#[test]
fn values(rt: HostRuntime) {
    let poly = codeword();
    assert!(rt; values_at_places(&poly, 256) == plain_values_at_places(&poly, 256));
}
