// The laws of the code.
ghost use Rattle.std.specs.Prelude.{◌≡◌, ◌≢◌, ◌≤◌, ◌+◌, ◌*◌, ℕ, Bool, List, length};
ghost use Rattle.tm_rs_code.specs.Code.{AreElements, IsCodeword, IsSystematic, distance, encode_word, longest_word};
ghost use Rattle.tm_rs_code.specs.Erasures.{IsErasedPattern, IsNearestErased, NearestErased};
ghost use Rattle.tm_rs_code.specs.Nearest.{IsNearest, Nearest, is_correctable, is_fixed};
ghost use Rattle.tm_rs_code.specs.Pattern.{IsPattern};

/// The distance law: two different codewords of one length differ in at least 2e + 1 places.
pub fn distance_law()
    ensures { (e : ℕ) (v w : List ℕ) → AreElements v → AreElements w
        → length v ≡ length w → length v ≤ longest_word
        → IsCodeword e v → IsCodeword e w → v ≢ w → 2 * e + 1 ≤ distance v w }
{}

/// There is just one codeword that begins with given information symbols, and `encode_word` names it.
pub fn systematic_codeword_law()
    ensures exists { (e : ℕ) (info : List ℕ) → AreElements info
        → IsSystematic e info (encode_word e info) }
    ensures unique { (e : ℕ) (info c : List ℕ) → length info + 2 * e ≤ longest_word
        → IsSystematic e info c → c ≡ encode_word e info }
{}

/// A word has just one nearest codeword within a bound of at most e, or none; and it tells whether there is one.
pub fn nearest_law()
    ensures exists { (e bound : ℕ) (w : List ℕ) → (a : Nearest) × IsNearest e bound w a }
    ensures one { (e bound : ℕ) (w : List ℕ) (a b : Nearest) → bound ≤ e → length w ≤ longest_word
        → IsNearest e bound w a → IsNearest e bound w b → a ≡ b }
    ensures tells { (e bound : ℕ) (w : List ℕ) (a : Nearest) → IsNearest e bound w a
        → is_correctable e bound w ≡ is_fixed a }
{}

/// A word with erased places has just one nearest codeword within the bounds, or none.
pub fn nearest_erased_law()
    ensures exists { (e bound : ℕ) (erased : List Bool) (w : List ℕ) → (a : NearestErased)
        × IsNearestErased e bound erased w a }
    ensures one { (e bound : ℕ) (erased : List Bool) (w : List ℕ) (a b : NearestErased)
        → length erased ≡ length w → length w ≤ longest_word
        → IsNearestErased e bound erased w a → IsNearestErased e bound erased w b → a ≡ b }
{}

/// Syndromes have just one error pattern, or none, with erased places and without.
pub fn pattern_law()
    ensures one { (e n : ℕ) (s : ℕ → ℕ) (v w : List ℕ) → n ≤ longest_word
        → IsPattern e n s v → IsPattern e n s w → v ≡ w }
    ensures one_erased { (e : ℕ) (erased : List Bool) (s : ℕ → ℕ) (v w : List ℕ) → length erased ≤ longest_word
        → IsErasedPattern e erased s v → IsErasedPattern e erased s w → v ≡ w }
{}
