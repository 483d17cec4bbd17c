// Values as the rows write them.
use std::process::Abort;
use tm_config::Raw;

/// Fails with the row where `holds` is false.
pub fn check_row(rt: &impl Abort, holds: bool, row: &str) {
    assert!(rt; holds, "at {row}");
}

/// The values with changes, as `code=17 depth=6`. None where a change has no name of a value, or no number.
pub fn changed(raw: Raw, changes: &str) -> Option<Raw> {
    let mut numbers = numbers_in(&raw);
    let mut options = [raw.length, raw.invert, raw.repair];
    for change in changes.split_whitespace() {
        let (name, number) = change.split_once('=')?;
        put(&mut numbers, &mut options, place_of(name)?, parsed(number)?);
    }
    Some(raw_of(numbers, options))
}

fn put(numbers: &mut [u64; 21], options: &mut [Option<u64>; 3], place: usize, number: u64) {
    if place < 21 {
        numbers[place] = number;
    } else {
        options[(place - 21).min(2)] = Some(number);
    }
}

// The options that always have a number, and then those that may have none.
static NAMES: &str =
    "code depth inner randomize basis tolerance soft start skip workers limit fly keep ahead phase \
polarity batch pack verify rescan bad length invert repair";

fn place_of(name: &str) -> Option<usize> {
    let mut place = 0usize;
    for known in NAMES.split_whitespace() {
        if known == name {
            return Some(place);
        }
        place = place.wrapping_add(1);
    }
    None
}

fn numbers_in(raw: &Raw) -> [u64; 21] {
    [
        raw.code,
        raw.depth,
        raw.inner,
        raw.randomize,
        raw.basis,
        raw.tolerance,
        raw.soft,
        raw.start,
        raw.skip,
        raw.workers,
        raw.limit,
        raw.fly,
        raw.keep,
        raw.ahead,
        raw.phase,
        raw.polarity,
        raw.batch,
        raw.pack,
        raw.verify,
        raw.rescan,
        raw.bad,
    ]
}

fn raw_of(numbers: [u64; 21], options: [Option<u64>; 3]) -> Raw {
    Raw {
        code: numbers[0],
        depth: numbers[1],
        inner: numbers[2],
        randomize: numbers[3],
        basis: numbers[4],
        tolerance: numbers[5],
        soft: numbers[6],
        start: numbers[7],
        skip: numbers[8],
        workers: numbers[9],
        limit: numbers[10],
        fly: numbers[11],
        keep: numbers[12],
        ahead: numbers[13],
        phase: numbers[14],
        polarity: numbers[15],
        batch: numbers[16],
        pack: numbers[17],
        verify: numbers[18],
        rescan: numbers[19],
        bad: numbers[20],
        length: options[0],
        invert: options[1],
        repair: options[2],
    }
}

/// The three numbers of a text.
pub fn numbers_of(text: &str) -> Option<[u64; 3]> {
    let mut fields = text.split_whitespace();
    let mut numbers = [0; 3];
    for i in 0..3usize {
        numbers[i] = parsed(fields.next()?)?;
    }
    Some(numbers)
}

fn parsed(number: &str) -> Option<u64> {
    number.parse::<u64>().ok()
}
