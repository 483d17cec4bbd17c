// The locator of the wrong symbols of a word with erased places.
ghost use Rattle.std.specs.Prelude.{◌≡◌, ◌<◌, ◌≤◌, ◌+◌, ◌*◌, ◌↔◌, ℕ, suc, List, length, IfNone, IfSome, IsTrue};
ghost use Rattle.tm_gf256.specs.Poly.{entry};
ghost use Rattle.tm_rs_code.specs.Erasures.{count_erased as count_of_erased, marks};
ghost use Rattle.tm_rs_code.specs.Pattern.{locator_of};
ghost use Rattle.tm_rs_code.specs.PlaceValues.{AreValues};
ghost use Rattle.tm_rs_code.specs.Recurrence.{discrepancy, listing};
ghost use Rattle.tm_rs_code.specs.Code.{longest_word, most_checks, most_coefficients};
ghost use Rattle.tm_rs.specs.Counts.{TakesAtLeast, TakesAtMost, most_products};
ghost use Rattle.tm_rs.specs.Locator.{AvoidsErased, LocatesErased, NoErasedPattern};

use crate::counter::Steps;
use crate::factors::times_factor;
use crate::locator::Locator;
use crate::recurrence::{mismatch, shortest};
use crate::roots::count_roots;
use std::sync::ledger::Ledger;
use tm_gf256::{Gf, see_range};
use tm_rs_code::{Params, count_erased, values_at_places};

// The locator of the erased places, of which there are `count`.
fn erasure_locator<L: Ledger>(erased: &[bool], count: usize, steps: &mut Steps<L>) -> [Gf; 33]
    requires short { length erased.now ≤ longest_word }
    requires counted { count ≡ count_of_erased erased.now }
    requires few { count ≤ most_checks }
    ensures room { length result ≡ most_coefficients }
    ensures locator { listing (entry result) 0 (suc count) ≡ locator_of (marks erased.now) }
    ensures beyond { (i : ℕ) → suc count ≤ i → entry result i ≡ 0 }
    ensures cost { 2 * steps.new ≡ 2 * steps.old + count * (count + 1) }
{
    let mut coefs = [Gf(0); 33];
    coefs[0] = Gf(1);
    let mut degree = 0;
    let n = erased.len();
    for p in 0..n {
        if erased[n - 1 - p] {
            times_factor(&mut coefs, degree, Gf::exp(11 * p as u32), steps);
            degree += 1;
        }
    }
    coefs
}

// The first `known` of the syndromes that are left when the erased places are taken out.
fn modified<L: Ledger>(
    erasures: &[Gf; 33],
    count: usize,
    known: usize,
    syndromes: &[Gf; 32],
    steps: &mut Steps<L>,
) -> [Gf; 32]
    requires { count + known ≤ most_checks }
    ensures room { length result ≡ most_checks }
    ensures values { (m : ℕ) → m < known
        → entry result m ≡ discrepancy (entry erasures.now) (entry syndromes.now) (m + count) (suc count) }
    ensures cost { steps.new ≡ steps.old + known * (count + 1) }
{
    let mut values = [Gf(0); 32];
    for m in 0..known {
        values[m] = mismatch(erasures, syndromes, m + count, count, steps);
    }
    values
}

// Whether no erased place is a root of the polynomial that has these values.
fn avoids_erased(values: &[u8; 256], erased: &[bool]) -> bool
    requires { length erased.now ≤ longest_word }
    ensures { (poly : List ℕ) → AreValues poly (length erased.now) values.now
        → (IsTrue result ↔ AvoidsErased poly erased.now) }
{
    let n = erased.len();
    for i in 0..n {
        if erased[i] && values[n - 1 - i] == 0 {
            return false;
        }
    }
    true
}

/// The locator of the wrong symbols at places that are not erased, for a word of n symbols whose first
/// 2e syndromes are given: of the word that has these syndromes, any symbols at the erased places, and
/// so few others that are not 0 that twice their number and the number of erased places is at most 2e.
/// None where there is no such word. The first flag of `erased` is that of the first symbol.
/// At least the products of the locator of the erased places and of the modified syndromes are counted. That locator is
/// left in `places`, where there is such a word.
pub fn locate_erased<L: Ledger>(
    params: &Params,
    syndromes: &[Gf; 32],
    erased: &[bool],
    places: &mut [Gf; 33],
    steps: &mut Steps<L>,
) -> Option<Locator>
    requires { length erased.now ≡ params.now.n }
    ensures none { IfNone result (NoErasedPattern params.now.e erased.now (entry syndromes.now)) }
    ensures some { IfSome result (λ l. LocatesErased params.now.e erased.now (entry syndromes.now) l.coefs l.degree) }
    ensures room { length places.new ≡ most_coefficients }
    ensures places { IfSome result (λ l. listing (entry places.new) 0 (suc (count_of_erased erased.now))
        ≡ locator_of (marks erased.now)) }
    ensures beyond { IfSome result (λ l. (i : ℕ) → suc (count_of_erased erased.now) ≤ i → entry places.new i ≡ 0) }
    ensures cost { steps.new ≤ steps.old + most_products params.now.e }
    ensures most { TakesAtMost params.now.e (count_of_erased erased.now) steps.old steps.new }
    ensures least { TakesAtLeast params.now.e (count_of_erased erased.now) steps.old steps.new }
{
    let all = 2 * params.e() as usize;
    let n = params.n() as usize;
    let count = count_erased(erased);
    if count > all {
        return None;
    }
    let known = all - count;
    see_range(syndromes);
    let erasures = erasure_locator(erased, count, steps);
    let terms = modified(&erasures, count, known, syndromes, steps);
    see_range(&terms);
    let Some(found) = shortest(&terms, known, steps) else {
        return None;
    };
    let values = values_at_places(&found.current[..found.len + 1], n);
    if count_roots(&values, n) != found.len {
        return None;
    }
    if !avoids_erased(&values, erased) {
        return None;
    }
    *places = erasures;
    Some(Locator {
        coefs: found.current,
        degree: found.len as u8,
    })
}

/// The locator as for `locate_erased`, without that of the erased places.
pub fn solve_erased<L: Ledger>(
    params: &Params,
    syndromes: &[Gf; 32],
    erased: &[bool],
    steps: &mut Steps<L>,
) -> Option<Locator>
    requires { length erased.now ≡ params.now.n }
    ensures none { IfNone result (NoErasedPattern params.now.e erased.now (entry syndromes.now)) }
    ensures some { IfSome result (λ l. LocatesErased params.now.e erased.now (entry syndromes.now) l.coefs l.degree) }
    ensures cost { steps.new ≤ steps.old + most_products params.now.e }
    ensures most { TakesAtMost params.now.e (count_of_erased erased.now) steps.old steps.new }
    ensures least { TakesAtLeast params.now.e (count_of_erased erased.now) steps.old steps.new }
{
    let mut places = [Gf(0); 33];
    locate_erased(params, syndromes, erased, &mut places, steps)
}
