// A word divided by the generator polynomial.
ghost use Rattle.std.specs.Prelude.{◌≡◌, ◌<◌, ◌*◌, ◌↔◌, ℕ, length, IsTrue};
ghost use Rattle.tm_gf256.specs.Poly.{entry, numbers, value_at};
ghost use Rattle.tm_rs_code.specs.Code.{root};

use crate::check_symbols::checks;
use tm_gf256::Gf;
use tm_rs_code::Params;

// Writes what is left of a word of n symbols: its check symbols, less those that its information symbols
// have. These 2e symbols have the word's values at the roots.
pub fn remainder(params: &Params, word: &[Gf], left: &mut [Gf])
    requires size { length word.now ≡ params.now.n }
    requires room { length left.old ≡ 2 * params.now.e }
    ensures size { length left.new ≡ 2 * params.now.e }
    ensures values { (k : ℕ) → k < 2 * params.now.e
        → value_at (numbers left.new) (root params.now.e k) ≡ value_at (numbers word.now) (root params.now.e k) }
{
    // So that the proof has the range of n.
    let _n = params.n();
    let at = word.len() - left.len();
    checks(params, &word[..at], left);
    for i in 0..left.len() {
        left[i] = left[i].add(word[at + i]);
    }
}

// Whether each symbol is 0.
pub fn is_zero(left: &[Gf]) -> bool
    ensures { IsTrue result ↔ ((i : ℕ) → i < length left.now → entry left.now i ≡ 0) }
{
    for i in 0..left.len() {
        if left[i].number() != 0 {
            return false;
        }
    }
    true
}
