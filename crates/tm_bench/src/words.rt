// Words with errors, decoded one after another.
ghost use Rattle.std.specs.Prelude.{◌≡◌, ◌<◌, length};

use crate::job::{Form, Words};
use std::sync::ledger::{Blank, Ledger};
use tm_gf256::Gf;
use tm_rs::{
    Answer, ErasedAnswer, Steps, checks, decode_erased, decode_word, plain_decode_erased,
    plain_decode_word,
};
use tm_rs_code::Params;

/// How many words became codewords, and how many of their symbols were wrong.
#[derive(Drop)]
pub struct Outcome {
    pub fixed: u32,
    pub symbols: u32,
}

// A codeword of seeded information symbols.
fn codeword(params: &Params) -> [Gf; 255]
    requires { params.now.n ≡ 255 }
    ensures { length result ≡ 255 }
{
    let mut word = [Gf(0); 255];
    let mut seed = 1u32;
    let at = 255 - 2 * params.e() as usize;
    for i in 0..at {
        seed = seed.wrapping_mul(1664525).wrapping_add(1013904223);
        word[i] = Gf((seed >> 24) as u8);
    }
    let (info, out) = word.split_at_mut(at);
    checks(params, info, out);
    word
}

// Decodes one word: the number of wrong symbols, or none where no codeword is near.
fn decode_one<L: Ledger>(
    params: &Params,
    form: Form,
    erased: &[bool; 255],
    any: bool,
    word: &mut [Gf; 255],
    steps: &mut Steps<L>,
) -> Option<u32>
    requires { params.now.n ≡ 255 }
{
    let repair = params.e() as u8;
    if any {
        let answer = match form {
            Form::Fast => decode_erased(params, repair, erased, word, steps),
            Form::Plain => plain_decode_erased(params, repair, erased, word, steps),
            Form::None => ErasedAnswer::Beyond,
        };
        return match answer {
            ErasedAnswer::Fixed(a, b) => Some(u32::from(a) + u32::from(b)),
            ErasedAnswer::Beyond => None,
        };
    }
    let answer = match form {
        Form::Fast => decode_word(params, repair, word, steps),
        Form::Plain => plain_decode_word(params, repair, word, steps),
        Form::None => Answer::Beyond,
    };
    match answer {
        Answer::Fixed(d) => Some(u32::from(d)),
        Answer::Beyond => None,
    }
}

/// Decodes words; none where there is no such code.
pub fn decode_words<L: Ledger>(blank: Blank, words: &Words) -> Outcome
    requires name { blank.name ≡ L.name }
    requires parts { blank.parts ≡ L.parts }
    requires share { 0 < blank.parts }
{
    let mut steps = Steps::<L>::open(blank);
    let mut outcome = Outcome {
        fixed: 0,
        symbols: 0,
    };
    let Ok(params) = Params::new(words.e, 255) else {
        return outcome;
    };
    let clean = codeword(&params);
    for n in 0..words.count {
        let shift = (n % 255) as usize;
        let mut word = clean;
        let mut erased = [false; 255];
        for i in 0..words.wrong {
            let at = (7 * usize::from(i) + 3 + shift) % 255;
            word[at] = Gf(word[at].0 ^ i.wrapping_mul(7).wrapping_add(1));
        }
        for i in 0..words.erased {
            let at = (7 * usize::from(i) + shift) % 255;
            erased[at] = true;
            word[at] = Gf(word[at].0 ^ shift as u8);
        }
        let answer = decode_one(
            &params,
            words.form,
            &erased,
            words.erased != 0,
            &mut word,
            &mut steps,
        );
        if let Some(symbols) = answer {
            outcome.fixed = outcome.fixed.wrapping_add(1);
            outcome.symbols = outcome.symbols.wrapping_add(symbols);
        }
    }
    outcome
}
