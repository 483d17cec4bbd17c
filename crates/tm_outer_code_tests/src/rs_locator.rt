// The locators against values from outside.
ghost use Rattle.std.specs.Prelude.{◌≡◌, ◌<◌, ◌≤◌, ◌+◌, length};

use crate::digits::{flags_of, number_at, number_of};
use locators::LOCATORS;
use std::marker::Brand;
use std::process::Abort;
use std::sync::ledger::{Blank, Ledger};
use tm_gf256::Gf;
use tm_rs::{Locator, Steps, locate, solve, solve_erased};
use tm_rs_code::Params;

mod locators;

// A line of the table.
#[derive(Drop)]
struct Row<'a> {
    name: &'a str,
    e: u64,
    n: u64,
    erased: &'a [u8],
    syndromes: &'a [u8],
    coefs: &'a [u8],
}

fn row_of(line: &str) -> Option<Row<'_>> {
    let (name, rest) = line.split_once(": ")?;
    let mut fields = rest.split_whitespace();
    Some(Row {
        name,
        e: number_of(fields.next()?)?,
        n: number_of(fields.next()?)?,
        erased: fields.next()?.as_bytes(),
        syndromes: fields.next()?.as_bytes(),
        coefs: fields.next()?.as_bytes(),
    })
}

// The syndromes of a text. What follows them is not looked at.
fn syndromes_of(text: &[u8]) -> [Gf; 32] {
    let mut syndromes = [Gf(0xA5); 32];
    for i in 0..(text.len() / 2).min(32) {
        syndromes[i] = Gf(number_at(text, i));
    }
    syndromes
}

// The locator whose coefficients a text has, and none where it has none.
fn locator_of(text: &[u8]) -> Option<Locator> {
    let count = (text.len() / 2).min(17);
    if count == 0 {
        return None;
    }
    let mut coefs = [Gf(0); 17];
    for i in 0..count {
        coefs[i] = Gf(number_at(text, i));
    }
    Some(Locator {
        coefs,
        degree: count as u8 - 1,
    })
}

// The solution, with its bounds on steps as numbers.
fn located<L: Ledger>(
    params: &Params,
    syndromes: &[Gf; 32],
    steps: &mut Steps<L>,
) -> Option<Locator>
    ensures steps_of_16 { params.now.e ≡ 16 → steps.new ≤ steps.old + 2144 }
    ensures steps_of_8 { params.now.e ≡ 8 → steps.new ≤ steps.old + 560 }
{
    solve(params, syndromes, steps)
}

// The solution where places are erased, with its bounds on steps as numbers.
fn located_with<L: Ledger>(
    params: &Params,
    syndromes: &[Gf; 32],
    erased: &[bool],
    steps: &mut Steps<L>,
) -> Option<Locator>
    requires { length erased.now ≡ params.now.n }
    ensures steps_of_16 { params.now.e ≡ 16 → steps.new ≤ steps.old + 4192 }
    ensures steps_of_8 { params.now.e ≡ 8 → steps.new ≤ steps.old + 1072 }
{
    solve_erased(params, syndromes, erased, steps)
}

// The locator of a row was found.
fn check_found(rt: &impl Abort, row: &Row<'_>, found: Option<Locator>) {
    assert!(rt; found == locator_of(row.coefs), "for {}", row.name);
}

// The locator of a row, by the call that takes erased places.
fn test_places<L: Ledger>(
    rt: &impl Abort,
    row: &Row<'_>,
    params: &Params,
    syndromes: &[Gf; 32],
    steps: &mut Steps<L>,
) {
    let n = params.n() as usize;
    let erased = flags_of(row.erased);
    let found = located_with(params, syndromes, &erased[..n], steps);
    check_found(rt, row, found);
}

// The locator of a row without erased places, by the calls that take none.
fn test_plain<L: Ledger>(
    rt: &impl Abort,
    row: &Row<'_>,
    params: &Params,
    syndromes: &[Gf; 32],
    steps: &mut Steps<L>,
) {
    let found = located(params, syndromes, steps);
    check_found(rt, row, found);
    let found = locate(params, syndromes, &mut [0; 256], steps);
    check_found(rt, row, found);
}

// Syndromes of a word without erased places are given to all calls.
fn test_row<L: Ledger>(rt: &impl Abort, row: &Row<'_>, steps: &mut Steps<L>) {
    let params = Params::new(row.e, row.n).expect(rt, "a code");
    assert!(rt; params.n() <= 255);
    let syndromes = syndromes_of(row.syndromes);
    test_places(rt, row, &params, &syndromes, steps);
    if row.erased.len() < 2 {
        test_plain(rt, row, &params, &syndromes, steps);
    }
}

fn test_rows<L: Ledger>(rt: &impl Abort, blank: Blank)
    requires name { blank.name ≡ L.name }
    requires parts { blank.parts ≡ L.parts }
    requires share { 0 < blank.parts }
{
    let mut steps = Steps::<L>::open(blank);
    for line in LOCATORS.lines() {
        let row = row_of(line).expect(rt, "a row");
        test_row(rt, &row, &mut steps);
    }
}

#[test]
fn syndromes_have_their_locator(rt: HostRuntime) {
    test_rows::<Brand>(&rt, Blank::new(1));
}
