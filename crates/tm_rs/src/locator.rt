// The locator of the error pattern that has given syndromes.
ghost use Rattle.std.specs.Prelude.{◌≡◌, ◌≤◌, ◌+◌, length, take, IfNone, IfSome};
ghost use Rattle.tm_gf256.specs.Poly.{entry, numbers};
ghost use Rattle.tm_rs_code.specs.PlaceValues.{AreValues};
ghost use Rattle.tm_rs.specs.Counts.{most_locator_products};
ghost use Rattle.tm_rs.specs.Locator.{Locates, NoPattern};

use crate::counter::Steps;
use crate::recurrence::shortest;
use crate::roots::count_roots;
use std::sync::ledger::Ledger;
use tm_gf256::{Gf, see_range};
use tm_rs_code::{Params, values_at_places};

/// The product of 1 + X z over the elements X of the places of the wrong symbols, as many as the
/// degree: entry k is the coefficient of z^k, and 0 after the degree.
#[derive(Clone, Copy, Debug, PartialEq, Eq)]
pub struct Locator {
    pub coefs: [Gf; 17],
    pub degree: u8,
}

/// The locator of the error pattern of a word of n symbols whose first 2e syndromes are given: the
/// word of at most e symbols that are not 0, all of them at places below n, that has these
/// syndromes. None where there is no such word. The rest of `syndromes` is not looked at.
/// The values of its polynomial at the places below n are left in `values`, where there is such a word.
pub fn locate<L: Ledger>(
    params: &Params,
    syndromes: &[Gf; 32],
    values: &mut [u8; 256],
    steps: &mut Steps<L>,
) -> Option<Locator>
    ensures none { IfNone result (NoPattern params.now.e params.now.n (entry syndromes.now)) }
    ensures some { IfSome result (λ l. Locates params.now.e params.now.n (entry syndromes.now) l.coefs l.degree) }
    ensures room { length values.new ≡ 256 }
    ensures values { IfSome result (λ l.
        AreValues (numbers (take (l.degree + 1) l.coefs)) params.now.n values.new) }
    ensures cost { steps.new ≤ steps.old + most_locator_products params.now.e }
{
    see_range(syndromes);
    let count = 2 * params.e() as usize;
    let n = params.n() as usize;
    let Some(found) = shortest(syndromes, count, steps) else {
        return None;
    };
    let at_places = values_at_places(&found.current[..found.len + 1], n);
    if count_roots(&at_places, n) != found.len {
        return None;
    }
    *values = at_places;
    Some(Locator {
        coefs: found.current,
        degree: found.len as u8,
    })
}

/// The locator as for `locate`, without the values of its polynomial.
pub fn solve<L: Ledger>(
    params: &Params,
    syndromes: &[Gf; 32],
    steps: &mut Steps<L>,
) -> Option<Locator>
    ensures none { IfNone result (NoPattern params.now.e params.now.n (entry syndromes.now)) }
    ensures some { IfSome result (λ l. Locates params.now.e params.now.n (entry syndromes.now) l.coefs l.degree) }
    ensures cost { steps.new ≤ steps.old + most_locator_products params.now.e }
{
    let mut values = [0; 256];
    locate(params, syndromes, &mut values, steps)
}
