// The nearest codeword of a word with erased places.
ghost use Rattle.std.specs.Prelude.{◌≡◌, ◌<◌, ◌≤◌, ◌+◌, ◌*◌, ◌==◌, ◌&&◌, ℕ, suc, not, List, length, if◌then◌else◌};
ghost use Rattle.tm_gf256.specs.Poly.{entry, numbers, value_at};
ghost use Rattle.tm_rs_code.specs.Code.{root, weight, longest_word, most_checks, most_coefficients, most_correctable};
ghost use Rattle.tm_rs_code.specs.Erasures.{IsNearestErased, count_erased as count_of_erased, inside, marks, places_named};
ghost use Rattle.tm_rs_code.specs.ErrorValues.{IsLocated, symbol_at};
ghost use Rattle.tm_rs_code.specs.Pattern.{locator_of};
ghost use Rattle.tm_rs_code.specs.PlaceValues.{AreValues};
ghost use Rattle.tm_rs_code.specs.Recurrence.{listing};
ghost use Rattle.tm_rs.specs.Counts.{TakesAtLeast, most_products};
ghost use Rattle.tm_rs.specs.Answers.{found_erased};
ghost use Rattle.tm_rs.specs.Naming.{NamesSymbol};

use crate::answers::ErasedAnswer;
use crate::counter::Steps;
use crate::division::{is_zero, remainder};
use crate::errata::locate_erased;
use crate::error_values::{correct, error_at};
use crate::factors::times_factor;
use std::sync::ledger::Ledger;
use tm_gf256::{Gf, see_range};
use tm_rs_code::{Params, count_erased, short_syndromes, syndromes, values_at_places};

// Whether a place is not erased and a root of the polynomial that has this value there.
fn names_other(erased: bool, value: u8) -> bool
    ensures { result ≡ (not erased && (value == 0)) }
{
    !erased && value == 0
}

#[derive(Drop)]
struct Places {
    coefs: [Gf; 33],
    degree: usize,
}

// The locator of the places that are erased or roots of a polynomial, from that of the erased places, of which there
// are `count`. Each product is counted.
fn all_places<L: Ledger>(
    erasures: &[Gf; 33],
    count: usize,
    poly: &[Gf],
    erased: &[bool],
    steps: &mut Steps<L>,
) -> Places
    requires count { count ≡ count_of_erased erased.now }
    requires erasures { listing (entry erasures.now) 0 (suc count) ≡ locator_of (marks erased.now) }
    requires beyond { (i : ℕ) → suc count ≤ i → entry erasures.now i ≡ 0 }
    requires degree { length poly.now ≤ most_coefficients }
    requires short { length erased.now ≤ longest_word }
    requires few { weight (places_named (numbers poly.now) erased.now) ≤ most_checks }
    ensures room { length result.coefs ≡ most_coefficients }
    ensures degree { result.degree ≡ weight (places_named (numbers poly.now) erased.now) }
    ensures locator { listing (entry result.coefs) 0 (suc result.degree)
        ≡ locator_of (places_named (numbers poly.now) erased.now) }
    ensures cost { 2 * steps.new + count * (count + 1) ≡ 2 * steps.old + result.degree * (result.degree + 1) }
{
    let mut coefs = *erasures;
    let mut degree = count;
    let n = erased.len();
    let values = values_at_places(poly, n);
    for p in 0..n {
        if names_other(erased[n - 1 - p], values[p]) {
            times_factor(&mut coefs, degree, Gf::exp(11 * p as u32), steps);
            degree += 1;
        }
    }
    Places { coefs, degree }
}

// 1 where an erased place has an error, and else 0.
fn erased_error(
    erased: bool,
    locator: &[Gf],
    value: u8,
    syndromes: &[Gf; 32],
    e: usize,
    p: usize,
) -> usize
    requires { NamesSymbol e locator.now (entry syndromes.now) p value }
    ensures { (u w : List ℕ) → IsLocated e (entry syndromes.now) (numbers locator.now) u w
        → result ≡ (if (if erased then symbol_at w p else 0) == 0 then 0 else 1) }
{
    if !erased {
        return 0;
    }
    if error_at(locator, value, syndromes, e, p).number() == 0 {
        return 0;
    }
    1
}

// How many of the erased places have an error, given the locator's values at the word's places.
fn count_inside(
    erased: &[bool],
    locator: &[Gf],
    values: &[u8; 256],
    syndromes: &[Gf; 32],
    e: usize,
) -> usize
    requires most { e ≤ most_correctable }
    requires some { 1 ≤ length locator.now }
    requires few { length locator.now ≤ most_coefficients }
    requires short { length erased.now ≤ longest_word }
    requires values { AreValues (numbers locator.now) (length erased.now) values.now }
    requires located { (u : List ℕ) × (w : List ℕ) × IsLocated e (entry syndromes.now) (numbers locator.now) u w }
    ensures count { (u w : List ℕ) → IsLocated e (entry syndromes.now) (numbers locator.now) u w
        → length w ≡ length erased.now → result ≡ weight (inside erased.now w) }
    ensures small { result ≤ length erased.now }
{
    let n = erased.len();
    let mut count = 0;
    for j in 0..n {
        let p = n - 1 - j;
        count += erased_error(erased[j], locator, values[p], syndromes, e, p);
    }
    count
}

/// Makes a word of n symbols the nearest codeword, the symbols at erased places not being counted:
/// where a codeword differs from the word in `a` places that are not erased, at most `repair`, and
/// twice `a` and the number of erased places is at most 2e. The answer is then `Fixed` of `a` and of
/// the number of erased places that differ. Everywhere else it is `Beyond`, and the word is as it was.
/// It takes no memory. The first flag of `erased` is that of the first symbol. Each product for a locator is counted.
pub fn decode_erased<L: Ledger>(
    params: &Params,
    repair: u8,
    erased: &[bool],
    word: &mut [Gf],
    steps: &mut Steps<L>,
) -> ErasedAnswer
    requires bound { repair ≤ params.now.e }
    requires flags { length erased.now ≡ params.now.n }
    requires size { length word.old ≡ params.now.n }
    ensures nearest { IsNearestErased params.now.e repair erased.now (numbers word.old)
        (found_erased result (numbers word.new)) }
    ensures unchanged { result ≡ ErasedAnswer.Beyond → word.new ≡ word.old }
    ensures same_size { length word.new ≡ length word.old }
    ensures cost { steps.new ≤ steps.old + most_products params.now.e }
    ensures least { (result ≡ ErasedAnswer.Fixed 0 0 → ⊥)
        → TakesAtLeast params.now.e (count_of_erased erased.now) steps.old steps.new }
{
    see_range(word);
    let e = params.e() as usize;
    // So that the proof has the range of n.
    let _n = params.n();
    let mut room = [Gf(0); 32];
    let left = &mut room[..2 * e];
    remainder(params, word, left);
    if is_zero(left) && count_erased(erased) <= 2 * e {
        return ErasedAnswer::Fixed(0, 0);
    }
    let values = short_syndromes(params, left);
    repaired(params, repair, erased, word, &values, steps)
}

/// Decodes a word with erased places as `decode_erased` does, by the syndromes of the whole word.
pub fn plain_decode_erased<L: Ledger>(
    params: &Params,
    repair: u8,
    erased: &[bool],
    word: &mut [Gf],
    steps: &mut Steps<L>,
) -> ErasedAnswer
    requires bound { repair ≤ params.now.e }
    requires flags { length erased.now ≡ params.now.n }
    requires size { length word.old ≡ params.now.n }
    ensures nearest { IsNearestErased params.now.e repair erased.now (numbers word.old)
        (found_erased result (numbers word.new)) }
    ensures unchanged { result ≡ ErasedAnswer.Beyond → word.new ≡ word.old }
    ensures same_size { length word.new ≡ length word.old }
    ensures cost { steps.new ≤ steps.old + most_products params.now.e }
    ensures least { TakesAtLeast params.now.e (count_of_erased erased.now) steps.old steps.new }
{
    let values = syndromes(params, word);
    repaired(params, repair, erased, word, &values, steps)
}

// The answer for a word with these syndromes, which is repaired.
fn repaired<L: Ledger>(
    params: &Params,
    repair: u8,
    erased: &[bool],
    word: &mut [Gf],
    values: &[Gf; 32],
    steps: &mut Steps<L>,
) -> ErasedAnswer
    requires bound { repair ≤ params.now.e }
    requires flags { length erased.now ≡ params.now.n }
    requires size { length word.old ≡ params.now.n }
    requires syndromes { (k : ℕ) → k < 2 * params.now.e
        → entry values.now k ≡ value_at (numbers word.old) (root params.now.e k) }
    ensures nearest { IsNearestErased params.now.e repair erased.now (numbers word.old)
        (found_erased result (numbers word.new)) }
    ensures unchanged { result ≡ ErasedAnswer.Beyond → word.new ≡ word.old }
    ensures cost { steps.new ≤ steps.old + most_products params.now.e }
    ensures least { TakesAtLeast params.now.e (count_of_erased erased.now) steps.old steps.new }
{
    see_range(word);
    let e = params.e() as usize;
    // So that the proof has the range of n.
    let _n = params.n();
    let mut erasures = [Gf(0); 33];
    match locate_erased(params, values, erased, &mut erasures, steps) {
        Some(l) => {
            if l.degree > repair {
                return ErasedAnswer::Beyond;
            }
            let found = &l.coefs[..l.degree as usize + 1];
            let places = all_places(&erasures, count_erased(erased), found, erased, steps);
            let locator = &places.coefs[..places.degree + 1];
            let at_places = values_at_places(locator, word.len());
            let inside = count_inside(erased, locator, &at_places, values, e);
            correct(word, locator, &at_places, values, e);
            ErasedAnswer::Fixed(l.degree, inside as u8)
        }
        None => ErasedAnswer::Beyond,
    }
}
