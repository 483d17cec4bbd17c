//! The elements of the field and their arithmetic.

ghost use Rattle.std.specs.Prelude.{◌≡◌, ◌≢◌, ◌<◌, ℕ};
ghost use Rattle.tm_gf256.specs.Field.{group_order, plus, times, power};

use crate::tables::{logarithm, power_or_zero};

/// An element of the field: bit k of the number is the coefficient of alpha^k.
#[derive(Clone, Copy, PartialEq, Eq, Debug)]
pub struct Gf(pub u8);

#[tactic(auto, using(crate::proofs::Products::steps))]
impl Gf {
    /// The element's number, which is below 256: a proof learns this of an element in a list by a
    /// call.
    pub fn number(self) -> u8
        ensures value { result ≡ self.0 }
        ensures small { self.0 < 256 }
    {
        self.0
    }

    /// The sum. Each element is its own negative, so this is the difference too.
    pub fn add(self, other: Gf) -> Gf
        ensures { result.0 ≡ plus self.0 other.0 }
    {
        Gf(self.0 ^ other.0)
    }

    /// The product.
    pub fn mul(self, other: Gf) -> Gf
        ensures { result.0 ≡ times self.0 other.0 }
    {
        Gf(power_or_zero(logarithm(self.0) + logarithm(other.0)))
    }

    /// The inverse of an element that is not 0: their product is 1.
    pub fn inv(self) -> Gf
        requires { self.0 ≢ 0 }
        ensures undoes { times self.0 result.0 ≡ 1 }
        ensures nonzero { result.0 ≢ 0 }
    {
        Gf(power_or_zero(255 - logarithm(self.0)))
    }

    /// The element to the power n. The power 0 of each element, of 0 too, is 1.
    pub fn pow(self, n: u32) -> Gf
        ensures { result.0 ≡ power self.0 n }
    {
        if n == 0 {
            return Gf(1);
        }
        if self.0 == 0 {
            return Gf(0);
        }
        let sum = logarithm(self.0) as u64 * n as u64;
        Gf(power_or_zero((sum % 255) as u16))
    }

    /// Alpha to the power i.
    pub fn exp(i: u32) -> Gf
        ensures { result.0 ≡ power 2 i }
    {
        Gf(power_or_zero((i % 255) as u16))
    }

    /// The logarithm of an element that is not 0, in 0..=254: the one such power of alpha that is
    /// the element.
    pub fn log(self) -> u32
        requires { self.0 ≢ 0 }
        ensures small { result < group_order }
        ensures undoes { power 2 result ≡ self.0 }
        ensures only { (i : ℕ) → i < group_order → power 2 i ≡ self.0 → i ≡ result }
    {
        logarithm(self.0) as u32
    }
}

/// The laws of the field, for the definitions that the arithmetic meets: sums and products are
/// elements, products are commutative, associative and distribute over sums, 1 is neutral, each
/// element but 0 has an inverse and is one of the 255 different powers of alpha. It does nothing.
pub fn field_laws()
    ensures sum_is_element { (a b : ℕ) → a < 256 → b < 256 → plus a b < 256 }
    ensures sum_commutes { (a b : ℕ) → plus a b ≡ plus b a }
    ensures sum_associates { (a b c : ℕ) → plus (plus a b) c ≡ plus a (plus b c) }
    ensures zero_is_neutral { (a : ℕ) → plus a 0 ≡ a }
    ensures own_negative { (a : ℕ) → plus a a ≡ 0 }

    ensures product_is_element { (a b : ℕ) → times a b < 256 }
    ensures product_commutes { (a b : ℕ) → times a b ≡ times b a }
    ensures product_associates { (a b c : ℕ) → times (times a b) c ≡ times a (times b c) }
    ensures distributes { (a b c : ℕ) → times a (plus b c) ≡ plus (times a b) (times a c) }
    ensures one_is_neutral { (a : ℕ) → a < 256 → times a 1 ≡ a }
    ensures has_inverse { (a : ℕ) → a < 256 → a ≢ 0 → (b : ℕ) × (b < 256) × (times a b ≡ 1) }

    ensures powers_are_all { (a : ℕ) → a < 256 → a ≢ 0 → (i : ℕ) × (i < group_order) × (power 2 i ≡ a) }
    ensures powers_differ { (i j : ℕ) → i < group_order → j < group_order → power 2 i ≡ power 2 j → i ≡ j }
    ensures powers_repeat { power 2 group_order ≡ 1 }
{}
