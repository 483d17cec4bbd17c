// Which of the two codes a word belongs to, and how long it is.
ghost use Rattle.std.specs.Prelude.{◌≡◌, ◌↔◌, IfOk, IsErrOf, IsOk};
ghost use Rattle.tm_rs_code.specs.Code.{Code, IsStrength, IsLength};

use std::marker::Model;
use thiserror::Error;

// The most symbols of a word.
const LONGEST_WORD: u64 = 255;

/// Why there is no such code.
#[derive(Clone, Copy, Debug, PartialEq, Eq, Error)]
pub enum BadParams {
    /// The code corrects neither 16 nor 8 symbols.
    #[error("correction")]
    Correction,

    /// The length of a word is outside 2e + 1 to 255.
    #[error("length")]
    Length,
}

/// A code and the length of its words: `e` is 16 for the (255,223) code and 8 for the (255,239) code,
/// and the word's `n` symbols end with 2e check symbols. A shortened word has fewer than 255 symbols:
/// virtual fill is no part of it (CCSDS 131.0-B, Reed-Solomon Coding).
#[derive(Clone, Copy, Debug, PartialEq, Eq)]
pub struct Params {
    e: u8,
    n: u8,
}

impl Model for Params {
    ghost Value = { Code };

    ghost view = { λ p. record { e = p.e; n = p.n } };

    ghost invariant = { λ p. IsStrength p.e × IsLength p.e p.n };

    ghost inverse = { λ code. record { e = code.e; n = code.n } };
}

impl Params {
    /// The code that corrects `e` symbols in a word of `n` symbols. `Correction` where `e` is neither
    /// 16 nor 8, and else `Length` where `n` is outside 2e + 1 to 255.
    pub fn new(e: u64, n: u64) -> Result<Params, BadParams>
        ensures ok { IfOk result (λ p. (p.e ≡ e) × (p.n ≡ n)) }
        ensures known { IfOk result (λ p. IsStrength p.e × IsLength p.e p.n) }
        ensures fits { IsStrength e → IsLength e n → IsOk result }
        ensures correction { IsErrOf result BadParams.Correction ↔ ¬ IsStrength e }
        ensures length { IsErrOf result BadParams.Length ↔ (IsStrength e × ¬ IsLength e n) }
    {
        if e != 16 && e != 8 {
            return Err(BadParams::Correction);
        }
        if n < 2 * e + 1 || n > LONGEST_WORD {
            return Err(BadParams::Length);
        }
        Ok(Params {
            e: e as u8,
            n: n as u8,
        })
    }

    /// How many wrong symbols the code corrects in a word.
    pub fn e(&self) -> u64
        ensures value { result ≡ self.now.e }
        ensures strength { IsStrength self.now.e }
        ensures range { IsLength self.now.e self.now.n }
    {
        u64::from(self.e)
    }

    /// How many symbols a word has, the 2e check symbols with them.
    pub fn n(&self) -> u64
        ensures value { result ≡ self.now.n }
        ensures strength { IsStrength self.now.e }
        ensures range { IsLength self.now.e self.now.n }
    {
        u64::from(self.n)
    }
}
