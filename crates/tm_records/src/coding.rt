// What words are decoded by.
use tm_gf256::Basis;
use tm_rs_code::Params;

/// The most symbols of a word.
pub const LONGEST_WORD: usize = 255;

/// What words are decoded by: their code, the basis of their octets, and the most wrong symbols that are repaired, at
/// most e, besides those that are erased.
#[derive(Clone, Copy, Debug, PartialEq, Eq)]
pub struct Coding {
    pub params: Params,
    pub basis: Basis,
    pub repair: u8,
}
