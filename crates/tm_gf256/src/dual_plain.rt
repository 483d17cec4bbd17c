// Words converted one octet at a time.
ghost use Rattle.std.specs.Prelude.{◌≡◌, length, map};
ghost use Rattle.tm_gf256.specs.Poly.{numbers};
ghost use Rattle.tm_gf256.specs.Dual.{dual_element, dual_octet};

use crate::dual::{from_dual, to_dual};
use crate::element::Gf;

// The octets of elements.
pub fn few_to_dual(elements: &[Gf], octets: &mut [u8])
    requires { length octets.old ≡ length elements.now }
    ensures { octets.new ≡ map dual_octet (numbers elements.now) }
{
    for i in 0..octets.len() {
        octets[i] = to_dual(elements[i]);
    }
}

// The numbers of elements.
pub fn all_to_numbers(elements: &[Gf], octets: &mut [u8])
    requires { length octets.old ≡ length elements.now }
    ensures { octets.new ≡ numbers elements.now }
{
    for i in 0..octets.len() {
        octets[i] = elements[i].0;
    }
}

// The elements of octets.
pub fn few_from_dual(octets: &[u8], elements: &mut [Gf])
    requires { length elements.old ≡ length octets.now }
    ensures { numbers elements.new ≡ map dual_element octets.now }
{
    for i in 0..elements.len() {
        elements[i] = from_dual(octets[i]);
    }
}

// The elements of numbers.
pub fn all_from_numbers(octets: &[u8], elements: &mut [Gf])
    requires { length elements.old ≡ length octets.now }
    ensures { numbers elements.new ≡ octets.now }
{
    for i in 0..elements.len() {
        elements[i] = Gf(octets[i]);
    }
}
