// What a batch makes of its words does not depend on the workers.
ghost use Rattle.std.specs.Prelude.{◌≡◌, ◌≤◌, ℕ, List, length, All};
ghost use Rattle.tm_rs_code.specs.Code.{Code, longest_word};
ghost use Rattle.tm_workers.specs.Batch.{EachBecomes};
ghost use Rattle.tm_workers.specs.Words.{Decodes, DecodesErased};

use crate::words::{ErasedWord, Word};

/// Two outcomes of a batch of the same words are the same list, for all workers, orders of draws and refusals of
/// memory, since a word has just one nearest codeword within a bound of at most e.
pub fn one_outcome_law()
    ensures words { (code : Code) (repair : ℕ) (words a b : List Word) → repair ≤ code.e → code.n ≤ longest_word
        → EachBecomes (Decodes code repair) words a → EachBecomes (Decodes code repair) words b → a ≡ b }
    ensures erased { (code : Code) (repair : ℕ) (words a b : List ErasedWord) → code.n ≤ longest_word
        → All (λ w. length w.erased ≡ length w.symbols) words
        → EachBecomes (DecodesErased code repair) words a → EachBecomes (DecodesErased code repair) words b → a ≡ b }
{}
