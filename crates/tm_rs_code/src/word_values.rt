// The values of a word at the roots, and the distance of two words.
ghost use Rattle.std.specs.Prelude.{◌≡◌, ◌<◌, ◌≤◌, ◌*◌, ◌↔◌, ℕ, length, IsTrue};
ghost use Rattle.tm_gf256.specs.Poly.{entry, numbers, value_at};
ghost use Rattle.tm_rs_code.specs.Code.{IsCodeword, distance as distance_of, root, longest_word, most_checks, most_coefficients, most_correctable};
ghost use Rattle.tm_rs_code.specs.Erasures.{count_erased as count_of_erased};

use crate::Params;
use crate::lanes::store_values;
use tm_gf256::{Gf, eval};

// Root number k of the generator polynomial.
fn root_of(e: u64, k: usize) -> Gf
    requires code { e ≤ most_correctable }
    requires count { k < most_checks }
    ensures { result.0 ≡ root e k }
{
    Gf::exp(11 * (128 - e as u32 + k as u32))
}

/// The syndromes of a word: entry k below 2e is the value of the word's polynomial at root number k of
/// the generator polynomial, and the other entries are 0 (CCSDS 131.0-B, Reed-Solomon Coding).
pub fn syndromes(params: &Params, word: &[Gf]) -> [Gf; 32]
    ensures size { length result ≡ most_checks }
    ensures values { (k : ℕ) → k < 2 * params.now.e
        → entry result k ≡ value_at (numbers word.now) (root params.now.e k) }
    ensures rest { (k : ℕ) → 2 * params.now.e ≤ k → entry result k ≡ 0 }
{
    let e = params.e();
    let mut values = [Gf(0); 32];
    for k in 0..2 * e as usize {
        values[k] = eval(word, root_of(e, k));
    }
    values
}

/// The syndromes of a word of at most 33 symbols, as what is left of a division by the generator
/// polynomial: those that `syndromes` gives, sixteen at a time.
pub fn short_syndromes(params: &Params, word: &[Gf]) -> [Gf; 32]
    requires { length word.now ≤ most_coefficients }
    ensures size { length result ≡ most_checks }
    ensures values { (k : ℕ) → k < 2 * params.now.e
        → entry result k ≡ value_at (numbers word.now) (root params.now.e k) }
    ensures rest { (k : ℕ) → 2 * params.now.e ≤ k → entry result k ≡ 0 }
{
    let e = params.e() as usize;
    // The values at places 112 to 143: the roots are the elements of places 128 - e to 127 + e.
    let mut around = [0; 32];
    store_values(word, 7, 1, &mut around);
    let mut found = [Gf(0); 32];
    for k in 0..2 * e {
        found[k] = Gf(around[16 - e + k]);
    }
    found
}

/// Whether a word of n symbols is a codeword.
pub fn is_codeword(params: &Params, word: &[Gf]) -> bool
    requires { length word.now ≡ params.now.n }
    ensures { IsTrue result ↔ IsCodeword params.now.e (numbers word.now) }
{
    let e = params.e();
    for k in 0..2 * e as usize {
        if eval(word, root_of(e, k)).number() != 0 {
            return false;
        }
    }
    true
}

/// The number of places where two words of one length differ.
pub fn distance(a: &[Gf], b: &[Gf]) -> u32
    requires same { length a.now ≡ length b.now }
    requires short { length a.now ≤ longest_word }
    ensures { result ≡ distance_of (numbers a.now) (numbers b.now) }
{
    let mut count = 0;
    for i in 0..a.len() {
        if a[i].number() != b[i].number() {
            count += 1;
        }
    }
    count
}

/// The number of erased places of a word of at most 255 symbols.
pub fn count_erased(erased: &[bool]) -> usize
    requires { length erased.now ≤ longest_word }
    ensures { result ≡ count_of_erased erased.now }
{
    let mut count = 0;
    for i in 0..erased.len() {
        if erased[i] {
            count += 1;
        }
    }
    count
}
