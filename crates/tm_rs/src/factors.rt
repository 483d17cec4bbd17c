// A polynomial, multiplied by a factor that names a place.
ghost use Rattle.std.specs.Prelude.{◌≡◌, ◌<◌, ◌≤◌, ◌+◌, ℕ, length};
ghost use Rattle.tm_gf256.specs.Poly.{entry};
ghost use Rattle.tm_rs_code.specs.Recurrence.{patched};
ghost use Rattle.tm_rs_code.specs.Code.{most_coefficients};

use crate::counter::Steps;
use std::sync::ledger::Ledger;
use tm_gf256::Gf;

/// Multiplies a polynomial of this degree by 1 + x z. Each of its coefficients is multiplied once, which is a step
/// each.
pub fn times_factor<L: Ledger>(coefs: &mut [Gf; 33], degree: usize, x: Gf, steps: &mut Steps<L>)
    requires { degree + 2 ≤ most_coefficients }
    ensures room { length coefs.new ≡ most_coefficients }
    ensures factor { (i : ℕ) → i < degree + 2
        → entry coefs.new i ≡ patched (entry coefs.old) x.0 1 (entry coefs.old) i }
    ensures rest { (i : ℕ) → degree + 2 ≤ i → entry coefs.new i ≡ entry coefs.old i }
    ensures cost { steps.new ≡ steps.old + (degree + 1) }
{
    let before = *coefs;
    for i in 1..degree + 2 {
        coefs[i] = before[i].add(steps.product(x, before[i - 1]));
    }
}
