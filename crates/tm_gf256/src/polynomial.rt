//! Polynomials as slices of coefficients, that of the highest power first. The empty slice is the
//! polynomial 0.

ghost use Rattle.std.specs.Prelude.{◌≡◌, ◌<◌, ◌+◌, ◌-◌, ℕ, suc, List, length, slice_index_or};
ghost use Rattle.tm_gf256.specs.Field.{times};
ghost use Rattle.tm_gf256.specs.Poly.{convolution, copies, derivative, entry, numbers, product, value_at};

use crate::element::Gf;

/// The value of a polynomial at x.
pub fn eval(poly: &[Gf], x: Gf) -> Gf
    ensures { result.0 ≡ value_at (numbers poly.now) x.0 }
{
    let mut value = Gf(0);
    for c in poly {
        // So that the proof has the range of the element.
        let _number = c.number();
        value = value.mul(x).add(*c);
    }
    value
}

/// Writes the product of two polynomials, neither of them empty, into `out`, which is as long as
/// both together less 1.
pub fn mul_into(a: &[Gf], b: &[Gf], out: &mut [Gf])
    requires a_nonempty { 0 < length a.now }
    requires b_nonempty { 0 < length b.now }
    requires size { length out.old ≡ length a.now + length b.now - 1 }
    ensures { numbers out.new ≡ product (numbers a.now) (numbers b.now) }
{
    for place in 0..out.len() {
        out[place] = product_coefficient(a, b, place);
    }
}

// The coefficient of a product at a place, counted from the highest power.
fn product_coefficient(a: &[Gf], b: &[Gf], place: usize) -> Gf
    ensures { result.0 ≡ convolution (numbers a.now) (numbers b.now) place (suc place) }
{
    let terms = if place < a.len() { place + 1 } else { a.len() };
    let mut sum = Gf(0);
    for i in 0..terms {
        sum = sum.add(a[i].mul(coefficient_or_zero(b, place - i)));
    }
    sum
}

// The coefficient at a place, or 0 where the polynomial has none.
fn coefficient_or_zero(poly: &[Gf], place: usize) -> Gf
    ensures { result.0 ≡ slice_index_or (numbers poly.now) place 0 }
{
    if place < poly.len() {
        poly[place]
    } else {
        Gf(0)
    }
}

/// Writes the derivative of a polynomial that is not empty into `out`, which is one shorter.
pub fn derivative_into(poly: &[Gf], out: &mut [Gf])
    requires nonempty { 0 < length poly.now }
    requires size { length out.old ≡ length poly.now - 1 }
    ensures { numbers out.new ≡ derivative (numbers poly.now) }
{
    for place in 0..out.len() {
        out[place] = repeated(poly.len() - 1 - place, poly[place]);
    }
}

// The sum of `count` copies of an element, of which each two make 0.
fn repeated(count: usize, c: Gf) -> Gf
    ensures { result.0 ≡ copies count c.0 }
{
    if count % 2 == 1 { c } else { Gf(0) }
}

/// That the product of two polynomials has at each element the product of their values. It does
/// nothing.
pub fn product_law()
    ensures { (a b : List ℕ) (x : ℕ) → value_at (product a b) x ≡ times (value_at a x) (value_at b x) }
{}

/// Shows a proof that each symbol of a word is below 256: a clause on a slice says nothing of the
/// range of its numbers, and reading one shows it of that one alone. It does nothing else, and the
/// compiler leaves it out.
pub fn see_range(word: &[Gf])
    ensures { (k : ℕ) → k < length word.now → entry word.now k < 256 }
{
    for c in word {
        let _value = c.number();
    }
}
