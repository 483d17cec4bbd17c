//! The field of 256 elements of CCSDS 131.0-B, Reed-Solomon Coding, polynomials over it, and the dual basis.
//!
//! An element is a number below 256 whose bit k is the coefficient of alpha^k, where alpha is a
//! root of F(x) = x^8 + x^7 + x^2 + x + 1. Products go by two tables, of powers and of logarithms.
//!
//! The dual basis is how an element is written as the octet that is sent for it, and read back. An octet is converted
//! by one look-up in a table of 256, and a word sixteen octets at a time, each by its two halves; with `Basis::Poly`
//! the octet is the number itself.
#![tactic(auto)]

pub mod basis;
mod dual;
mod dual_lanes;
mod dual_plain;
pub mod element;
pub mod polynomial;
mod tables;

pub use basis::{Basis, basis_laws};
pub use dual::{from_dual, to_dual};
pub use element::{Gf, field_laws};
pub use polynomial::{derivative_into, eval, mul_into, product_law, see_range};
