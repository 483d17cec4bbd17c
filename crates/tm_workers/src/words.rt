// Words that are decoded in place.
ghost use Rattle.std.specs.Prelude.{◌≤◌};
ghost use Rattle.tm_workers.specs.Words.{Decodes, DecodesErased};

use tm_gf256::Gf;
use tm_rs::{Answer, ErasedAnswer, decode_erased_uncounted, decode_uncounted};
use tm_rs_code::Params;

/// A word, of which the first n symbols count, and what became of it.
#[derive(Clone, Copy, Debug, PartialEq, Eq)]
pub struct Word {
    pub symbols: [Gf; 255],
    pub answer: Option<Answer>,
}

impl Word {
    // Decodes it in its place.
    pub(crate) fn decode(&mut self, params: &Params, repair: u8)
        requires { repair ≤ params.now.e }
        ensures { Decodes params.now repair self.old self.new }
    {
        let n = params.n() as usize;
        let answer = decode_uncounted(params, repair, &mut self.symbols[..n]);
        self.answer = Some(answer);
    }
}

/// A word with erased places, of which the first n symbols and flags count, and what became of it.
#[derive(Clone, Copy, Debug, PartialEq, Eq)]
pub struct ErasedWord {
    pub symbols: [Gf; 255],
    /// Whether the symbol at the same index is erased.
    pub erased: [bool; 255],
    pub answer: Option<ErasedAnswer>,
}

impl ErasedWord {
    // Decodes it in its place.
    pub(crate) fn decode(&mut self, params: &Params, repair: u8)
        requires { repair ≤ params.now.e }
        ensures { DecodesErased params.now repair self.old self.new }
    {
        let n = params.n() as usize;
        let erased = self.erased;
        let answer = decode_erased_uncounted(params, repair, &erased[..n], &mut self.symbols[..n]);
        self.answer = Some(answer);
    }
}
