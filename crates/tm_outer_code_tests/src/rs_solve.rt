// The decoder against words and answers from outside.
ghost use Rattle.std.specs.Prelude.{◌≡◌, ◌<◌, ◌≤◌, ◌+◌, ◌*◌, length};

use crate::digits::{flags_of, number_at, number_of};
use std::marker::Brand;
use std::process::Abort;
use std::sync::ledger::{Blank, Ledger};
use tm_gf256::Gf;
use tm_rs::{
    Answer, ErasedAnswer, Steps, decode_erased, decode_word, plain_decode_erased, plain_decode_word,
};
use tm_rs_code::Params;
use words::WORDS;

mod words;

// The form that many words go through, or the plain one beside it.
#[derive(Clone, Copy)]
enum Form {
    Fast,
    Plain,
}

// A line of the table.
#[derive(Drop)]
struct Row<'a> {
    name: &'a str,
    e: u64,
    repair: u8,
    erased: &'a [u8],
    answer: ErasedAnswer,
    changes: &'a [u8],
    word: &'a [u8],
}

// A count of symbols, where a text has one.
fn count_of(text: &str) -> Option<u8> {
    text.parse::<u8>().ok()
}

fn row_of(line: &str) -> Option<Row<'_>> {
    let (name, rest) = line.split_once(": ")?;
    let mut fields = rest.split_whitespace();
    let e = number_of(fields.next()?)?;
    let repair = count_of(fields.next()?)?;
    let erased = fields.next()?.as_bytes();
    let outside = count_of(fields.next()?);
    let inside = count_of(fields.next()?);
    let answer = match (outside, inside) {
        (Some(outside), Some(inside)) => ErasedAnswer::Fixed(outside, inside),
        _ => ErasedAnswer::Beyond,
    };
    Some(Row {
        name,
        e,
        repair,
        erased,
        answer,
        changes: fields.next()?.as_bytes(),
        word: fields.next()?.as_bytes(),
    })
}

// The symbols of a text, and zeros after them.
fn symbols_of(text: &[u8]) -> [Gf; 255]
    ensures { length result ≡ 255 }
{
    let mut symbols = [Gf(0); 255];
    for i in 0..(text.len() / 2).min(255) {
        symbols[i] = Gf(number_at(text, i));
    }
    symbols
}

// The word with the changes of a text.
fn changed(word: &[Gf; 255], text: &[u8]) -> [Gf; 255] {
    let mut symbols = *word;
    for i in 0..text.len() / 4 {
        let index = usize::from(number_at(text, 2 * i)).min(254);
        symbols[index] = Gf(number_at(text, 2 * i + 1));
    }
    symbols
}

// A form of the decoder, with its bounds on steps as numbers.
fn decode<L: Ledger>(
    form: Form,
    params: &Params,
    repair: u8,
    word: &mut [Gf],
    steps: &mut Steps<L>,
) -> Answer
    requires bound { repair ≤ params.now.e }
    requires size { length word.old ≡ params.now.n }
    ensures steps_of_16 { params.now.e ≡ 16 → steps.new ≤ steps.old + 2144 }
    ensures steps_of_8 { params.now.e ≡ 8 → steps.new ≤ steps.old + 560 }
{
    match form {
        Form::Fast => decode_word(params, repair, word, steps),
        Form::Plain => plain_decode_word(params, repair, word, steps),
    }
}

// A form of the decoder of words with erased places, with its bounds on steps as numbers.
fn decode_with<L: Ledger>(
    form: Form,
    params: &Params,
    repair: u8,
    erased: &[bool],
    word: &mut [Gf],
    steps: &mut Steps<L>,
) -> ErasedAnswer
    requires bound { repair ≤ params.now.e }
    requires flags { length erased.now ≡ params.now.n }
    requires size { length word.old ≡ params.now.n }
    ensures steps_of_16 { params.now.e ≡ 16 → steps.new ≤ steps.old + 4192 }
    ensures steps_of_8 { params.now.e ≡ 8 → steps.new ≤ steps.old + 1072 }
{
    match form {
        Form::Fast => decode_erased(params, repair, erased, word, steps),
        Form::Plain => plain_decode_erased(params, repair, erased, word, steps),
    }
}

// What was returned for the word of a row, and what is left of it.
fn check_decoded(
    rt: &impl Abort,
    row: &Row<'_>,
    answer: ErasedAnswer,
    left: &[Gf; 255],
    wanted: &[Gf; 255],
) {
    assert!(rt;
        answer == row.answer && *left == *wanted,
        "for {}",
        row.name
    );
}

// The answer of a row, and the word that is left.
fn test_places<L: Ledger>(
    rt: &impl Abort,
    form: Form,
    row: &Row<'_>,
    params: &Params,
    word: &[Gf; 255],
    wanted: &[Gf; 255],
    steps: &mut Steps<L>,
)
    requires { row.now.repair ≤ params.now.e }
{
    let n = params.n() as usize;
    let erased = flags_of(row.erased);
    let mut left = *word;
    let answer = decode_with(
        form,
        params,
        row.repair,
        &erased[..n],
        &mut left[..n],
        steps,
    );
    check_decoded(rt, row, answer, &left, wanted);
}

// The answer of a row, and the word that is left, by a form that takes no erased places.
fn test_plain<L: Ledger>(
    rt: &impl Abort,
    form: Form,
    row: &Row<'_>,
    params: &Params,
    word: &[Gf; 255],
    wanted: &[Gf; 255],
    steps: &mut Steps<L>,
)
    requires { row.now.repair ≤ params.now.e }
{
    let n = params.n() as usize;
    let mut left = *word;
    let answer = match decode(form, params, row.repair, &mut left[..n], steps) {
        Answer::Fixed(wrong) => ErasedAnswer::Fixed(wrong, 0),
        Answer::Beyond => ErasedAnswer::Beyond,
    };
    check_decoded(rt, row, answer, &left, wanted);
}

// A word without erased places is given to all four calls.
fn test_row<L: Ledger>(rt: &impl Abort, row: &Row<'_>, steps: &mut Steps<L>) {
    let n = row.word.len() / 2;
    let params = Params::new(row.e, n as u64).expect(rt, "a code");
    assert!(rt; n <= 255 && params.n() == n as u64 && u64::from(row.repair) <= params.e());
    let word = symbols_of(row.word);
    let wanted = changed(&word, row.changes);
    for form in [Form::Fast, Form::Plain] {
        test_places(rt, form, row, &params, &word, &wanted, steps);
        if row.erased.len() < 2 {
            test_plain(rt, form, row, &params, &word, &wanted, steps);
        }
    }
}

fn test_rows<L: Ledger>(rt: &impl Abort, blank: Blank)
    requires name { blank.name ≡ L.name }
    requires parts { blank.parts ≡ L.parts }
    requires share { 0 < blank.parts }
{
    let mut steps = Steps::<L>::open(blank);
    for line in WORDS.lines() {
        let row = row_of(line).expect(rt, "a row");
        test_row(rt, &row, &mut steps);
    }
}

#[test]
fn words_become_the_nearest_codeword(rt: HostRuntime) {
    test_rows::<Brand>(&rt, Blank::new(1));
}
