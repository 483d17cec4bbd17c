//! The choice between the dual basis and the powers of alpha.

ghost use Rattle.std.specs.Prelude.{◌≡◌, ◌<◌, ℕ, length, map};
ghost use Rattle.tm_gf256.specs.Poly.{numbers};
ghost use Rattle.tm_gf256.specs.Octet.{basis_of, element_of, sent_octet};

use crate::dual::{from_dual, to_dual};
use crate::dual_lanes::{all_from_dual, all_to_dual};
use crate::dual_plain::{all_from_numbers, all_to_numbers};
use crate::element::Gf;

/// The basis in which an element is sent as an octet.
#[derive(Clone, Copy, PartialEq, Eq, Debug)]
pub enum Basis {
    /// The dual basis of CCSDS 131.0-B.
    Dual,
    /// The powers of alpha: the octet is the element's number.
    Poly,
}

impl Basis {
    /// The basis that stands under a number in a configuration: the dual basis under 0, and the
    /// powers of alpha under any other.
    pub fn numbered(number: u64) -> Basis
        ensures { result ≡ basis_of number }
    {
        if number == 0 {
            Basis::Dual
        } else {
            Basis::Poly
        }
    }

    /// The octet that is sent for an element.
    pub fn to_octet(self, element: Gf) -> u8
        ensures { result ≡ sent_octet self element.0 }
    {
        match self {
            Basis::Dual => to_dual(element),
            Basis::Poly => element.number(),
        }
    }

    /// The element for which an octet is sent.
    pub fn from_octet(self, octet: u8) -> Gf
        ensures { result.0 ≡ element_of self octet }
    {
        match self {
            Basis::Dual => from_dual(octet),
            Basis::Poly => Gf(octet),
        }
    }

    /// Writes the octets that are sent for `elements` into `octets`, which is as long.
    pub fn elements_to_octets(self, elements: &[Gf], octets: &mut [u8])
        requires { length octets.old ≡ length elements.now }
        ensures { octets.new ≡ map (sent_octet self) (numbers elements.now) }
    {
        match self {
            Basis::Dual => all_to_dual(elements, octets),
            Basis::Poly => all_to_numbers(elements, octets),
        }
    }

    /// Writes the elements for which `octets` are sent into `elements`, which is as long.
    pub fn octets_to_elements(self, octets: &[u8], elements: &mut [Gf])
        requires { length elements.old ≡ length octets.now }
        ensures { numbers elements.new ≡ map (element_of self) octets.now }
    {
        match self {
            Basis::Dual => all_from_dual(octets, elements),
            Basis::Poly => all_from_numbers(octets, elements),
        }
    }
}

/// That each of the two conversions undoes the other, in either basis, and that octets of elements are
/// octets and elements of octets elements. It does nothing.
pub fn basis_laws()
    ensures octet_is_octet { (b : Basis) (u : ℕ) → u < 256 → sent_octet b u < 256 }
    ensures element_is_element { (b : Basis) (z : ℕ) → z < 256 → element_of b z < 256 }
    ensures element_of_octet { (b : Basis) (u : ℕ) → u < 256 → element_of b (sent_octet b u) ≡ u }
    ensures octet_of_element { (b : Basis) (z : ℕ) → z < 256 → sent_octet b (element_of b z) ≡ z }
{}
