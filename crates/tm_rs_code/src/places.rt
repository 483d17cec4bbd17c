// The values of a polynomial at the places of a word, by lanes and in plain form.
ghost use Rattle.std.specs.Prelude.{◌≤◌, length};
ghost use Rattle.tm_gf256.specs.Poly.{numbers};
ghost use Rattle.tm_rs_code.specs.PlaceValues.{ArePlaceValues};
ghost use Rattle.tm_rs_code.specs.Code.{most_coefficients};

use crate::lanes::store_values;
use tm_gf256::{Gf, eval};

/// The values of a polynomial of at most 33 coefficients, the highest power first, at the elements of
/// the places below n: entry p is that at the place whose symbol is the coefficient of the power p.
pub fn values_at_places(poly: &[Gf], n: usize) -> [u8; 256]
    requires few { length poly.now ≤ most_coefficients }
    requires places { n ≤ 256 }
    ensures { ArePlaceValues (numbers poly.now) n result }
{
    let mut values = [0; 256];
    store_values(poly, 0, n.div_ceil(32), &mut values);
    values
}

/// The values as for `values_at_places`, computed place by place and power by power.
pub fn plain_values_at_places(poly: &[Gf], n: usize) -> [u8; 256]
    requires few { length poly.now ≤ most_coefficients }
    requires places { n ≤ 256 }
    ensures { ArePlaceValues (numbers poly.now) n result }
{
    let mut values = [0; 256];
    for p in 0..n {
        values[p] = eval(poly, Gf::exp(11 * p as u32)).number();
    }
    values
}
