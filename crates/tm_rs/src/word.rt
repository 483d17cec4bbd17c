// The nearest codeword within the repair bound.
ghost use Rattle.std.specs.Prelude.{◌≡◌, ◌<◌, ◌≤◌, ◌+◌, ◌*◌, ℕ, length};
ghost use Rattle.tm_gf256.specs.Poly.{entry, numbers, value_at};
ghost use Rattle.tm_rs_code.specs.Code.{root};
ghost use Rattle.tm_rs_code.specs.Nearest.{IsNearest};
ghost use Rattle.tm_rs.specs.Counts.{most_locator_products};
ghost use Rattle.tm_rs.specs.Answers.{found};

use crate::answers::Answer;
use crate::counter::Steps;
use crate::division::{is_zero, remainder};
use crate::error_values::correct;
use crate::locator::locate;
use std::sync::ledger::Ledger;
use tm_gf256::{Gf, see_range};
use tm_rs_code::{Params, short_syndromes, syndromes};

/// Makes a word of n symbols the nearest codeword, where one differs from it in at most `repair`
/// symbols, which is at most e: the answer is then `Fixed` of the number of those symbols. Everywhere
/// else it is `Beyond`, and the word is as it was. It takes no memory. Each multiplication of the
/// recurrence for the locator is a step.
pub fn decode_word<L: Ledger>(
    params: &Params,
    repair: u8,
    word: &mut [Gf],
    steps: &mut Steps<L>,
) -> Answer
    requires bound { repair ≤ params.now.e }
    requires size { length word.old ≡ params.now.n }
    ensures nearest { IsNearest params.now.e repair (numbers word.old) (found result (numbers word.new)) }
    ensures unchanged { result ≡ Answer.Beyond → word.new ≡ word.old }
    ensures same_size { length word.new ≡ length word.old }
    ensures cost { steps.new ≤ steps.old + most_locator_products params.now.e }
{
    see_range(word);
    let mut room = [Gf(0); 32];
    let left = &mut room[..2 * params.e() as usize];
    remainder(params, word, left);
    if is_zero(left) {
        return Answer::Fixed(0);
    }
    let values = short_syndromes(params, left);
    repaired(params, repair, word, &values, steps)
}

/// Decodes a word as `decode_word` does, by the syndromes of the whole word.
pub fn plain_decode_word<L: Ledger>(
    params: &Params,
    repair: u8,
    word: &mut [Gf],
    steps: &mut Steps<L>,
) -> Answer
    requires bound { repair ≤ params.now.e }
    requires size { length word.old ≡ params.now.n }
    ensures nearest { IsNearest params.now.e repair (numbers word.old) (found result (numbers word.new)) }
    ensures unchanged { result ≡ Answer.Beyond → word.new ≡ word.old }
    ensures same_size { length word.new ≡ length word.old }
    ensures cost { steps.new ≤ steps.old + most_locator_products params.now.e }
{
    let values = syndromes(params, word);
    repaired(params, repair, word, &values, steps)
}

// The answer for a word with these syndromes, which is repaired.
fn repaired<L: Ledger>(
    params: &Params,
    repair: u8,
    word: &mut [Gf],
    values: &[Gf; 32],
    steps: &mut Steps<L>,
) -> Answer
    requires bound { repair ≤ params.now.e }
    requires size { length word.old ≡ params.now.n }
    requires syndromes { (k : ℕ) → k < 2 * params.now.e
        → entry values.now k ≡ value_at (numbers word.old) (root params.now.e k) }
    ensures nearest { IsNearest params.now.e repair (numbers word.old) (found result (numbers word.new)) }
    ensures unchanged { result ≡ Answer.Beyond → word.new ≡ word.old }
    ensures cost { steps.new ≤ steps.old + most_locator_products params.now.e }
{
    see_range(word);
    let e = params.e() as usize;
    // So that the proof has the range of n.
    let _n = params.n();
    let mut at_places = [0; 256];
    match locate(params, values, &mut at_places, steps) {
        Some(l) => {
            if l.degree > repair {
                return Answer::Beyond;
            }
            let locator = &l.coefs[..l.degree as usize + 1];
            correct(word, locator, &at_places, values, e);
            Answer::Fixed(l.degree)
        }
        None => Answer::Beyond,
    }
}
