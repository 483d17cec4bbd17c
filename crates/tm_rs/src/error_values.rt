// The values of the wrong symbols.
ghost use Rattle.std.specs.Prelude.{◌≡◌, ◌<◌, ◌≤◌, ◌+◌, ◌-◌, ℕ, List, length};
ghost use Rattle.tm_gf256.specs.Poly.{entry, numbers, value_at};
ghost use Rattle.tm_rs_code.specs.Code.{place_of, longest_word, most_checks, most_coefficients, most_correctable};
ghost use Rattle.tm_rs_code.specs.ErrorValues.{IsLocated, quotient_at, symbol_at};
ghost use Rattle.tm_rs_code.specs.PlaceValues.{AreValues};
ghost use Rattle.tm_rs_code.specs.Recurrence.{discrepancy, listing};
ghost use Rattle.tm_rs_code.specs.Register.{sums};
ghost use Rattle.tm_rs.specs.Naming.{NamesSymbol};

use tm_gf256::{Gf, see_range};

#[derive(Drop)]
struct Parts {
    sum: Gf,
    slope: Gf,
}

// The locator divided by the factor of its root x: the quotient's sum with the syndromes, and its
// value at x.
fn divide(locator: &[Gf], degree: usize, syndromes: &[Gf; 32], x: Gf) -> Parts
    requires size { length locator.now ≡ degree + 1 }
    requires some { 1 ≤ degree }
    requires few { degree ≤ most_checks }
    ensures sum { result.sum.0
        ≡ discrepancy (quotient_at (entry locator.now) x.0) (entry syndromes.now) (degree - 1) degree }
    ensures slope { result.slope.0 ≡ value_at (listing (quotient_at (entry locator.now) x.0) 0 degree) x.0 }
{
    see_range(locator);
    let mut q = Gf(0);
    let mut sum = Gf(0);
    let mut slope = Gf(0);
    for i in 0..degree {
        q = locator[i].add(x.mul(q));
        sum = sum.add(q.mul(syndromes[degree - 1 - i]));
        slope = slope.mul(x).add(q);
    }
    Parts { sum, slope }
}

// The symbol at place p, a root of the locator, of the error pattern with these syndromes, whose places
// the locator names.
fn value_at_root(locator: &[Gf], syndromes: &[Gf; 32], e: usize, p: usize) -> Gf
    requires most { e ≤ most_correctable }
    requires some { 1 ≤ length locator.now }
    requires few { length locator.now ≤ most_coefficients }
    requires inside { p < longest_word }
    requires root { value_at (numbers locator.now) (place_of p) ≡ 0 }
    requires located { (u : List ℕ) × (w : List ℕ) × IsLocated e (entry syndromes.now) (numbers locator.now) u w }
    ensures { (u w : List ℕ) → IsLocated e (entry syndromes.now) (numbers locator.now) u w
        → result.0 ≡ symbol_at w p }
{
    let degree = locator.len() - 1;
    if degree == 0 {
        return Gf(0);
    }
    see_range(locator);
    let x = Gf::exp(11 * p as u32);
    let parts = divide(locator, degree, syndromes, x);
    let scale = parts.slope.mul(x.pow(128 - e as u32));
    parts.sum.mul(scale.inv())
}

// The symbol at place p of that error pattern, given the locator's value there.
#[inline(always)]
pub fn error_at(locator: &[Gf], value: u8, syndromes: &[Gf; 32], e: usize, p: usize) -> Gf
    requires { NamesSymbol e locator.now (entry syndromes.now) p value }
    ensures { (u w : List ℕ) → IsLocated e (entry syndromes.now) (numbers locator.now) u w
        → result.0 ≡ symbol_at w p }
{
    if value != 0 {
        return Gf(0);
    }
    value_at_root(locator, syndromes, e, p)
}

// Adds the error pattern to the word, given the locator's values at the word's places.
pub fn correct(word: &mut [Gf], locator: &[Gf], values: &[u8; 256], syndromes: &[Gf; 32], e: usize)
    requires most { e ≤ most_correctable }
    requires some { 1 ≤ length locator.now }
    requires few { length locator.now ≤ most_coefficients }
    requires short { length word.old ≤ longest_word }
    requires values { AreValues (numbers locator.now) (length word.old) values.now }
    requires located { (u : List ℕ) × (w : List ℕ) × IsLocated e (entry syndromes.now) (numbers locator.now) u w }
    ensures { (u w : List ℕ) → IsLocated e (entry syndromes.now) (numbers locator.now) u w
        → length w ≡ length word.old → numbers word.new ≡ sums (numbers word.old) w }
{
    let n = word.len();
    for j in 0..n {
        let p = n - 1 - j;
        let error = error_at(locator, values[p], syndromes, e, p);
        word[j] = word[j].add(error);
    }
}
