// The decoder where nobody counts its steps.
ghost use Rattle.std.specs.Prelude.{◌≡◌, ◌<◌, ◌≤◌, length};
ghost use Rattle.tm_rs.specs.Answers.{Repairs, RepairsErased};

use crate::answers::{Answer, ErasedAnswer};
use crate::counter::Steps;
use crate::erased_word::decode_erased;
use crate::word::decode_word;
use std::marker::Brand;
use std::sync::ledger::{Blank, Ledger};
use tm_gf256::Gf;
use tm_rs_code::Params;

/// Makes a word of n symbols the nearest codeword, as `decode_word` does, and counts no steps.
pub fn decode_uncounted(params: &Params, repair: u8, word: &mut [Gf]) -> Answer
    requires bound { repair ≤ params.now.e }
    requires size { length word.old ≡ params.now.n }
    ensures { Repairs params.now.e repair word.old word.new result }
{
    decode_with::<Brand>(Blank::new(1), params, repair, word)
}

// With a count of steps that ends with the call.
fn decode_with<L: Ledger>(blank: Blank, params: &Params, repair: u8, word: &mut [Gf]) -> Answer
    requires name { blank.name ≡ L.name }
    requires parts { blank.parts ≡ L.parts }
    requires share { 0 < blank.parts }
    requires bound { repair ≤ params.now.e }
    requires size { length word.old ≡ params.now.n }
    ensures { Repairs params.now.e repair word.old word.new result }
{
    let mut steps = Steps::<L>::open(blank);
    decode_word(params, repair, word, &mut steps)
}

/// Makes a word of n symbols with erased places the nearest codeword, as `decode_erased` does, and counts no steps.
pub fn decode_erased_uncounted(
    params: &Params,
    repair: u8,
    erased: &[bool],
    word: &mut [Gf],
) -> ErasedAnswer
    requires bound { repair ≤ params.now.e }
    requires flags { length erased.now ≡ params.now.n }
    requires size { length word.old ≡ params.now.n }
    ensures { RepairsErased params.now.e repair erased.now word.old word.new result }
{
    decode_erased_with::<Brand>(Blank::new(1), params, repair, erased, word)
}

// With a count of steps that ends with the call.
fn decode_erased_with<L: Ledger>(
    blank: Blank,
    params: &Params,
    repair: u8,
    erased: &[bool],
    word: &mut [Gf],
) -> ErasedAnswer
    requires name { blank.name ≡ L.name }
    requires parts { blank.parts ≡ L.parts }
    requires share { 0 < blank.parts }
    requires bound { repair ≤ params.now.e }
    requires flags { length erased.now ≡ params.now.n }
    requires size { length word.old ≡ params.now.n }
    ensures { RepairsErased params.now.e repair erased.now word.old word.new result }
{
    let mut steps = Steps::<L>::open(blank);
    decode_erased(params, repair, erased, word, &mut steps)
}
