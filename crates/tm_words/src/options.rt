// The options, and their values from texts to numbers.
ghost use Rattle.std.specs.Prelude.{◌≡◌, [], map, option_map, unwrap_or};
ghost use Rattle.clap.specs.Words.{first_of, rows_of, found_of};
ghost use Rattle.tm_words.specs.Options.{number_of, number_of_word, words_among, number_in, number_given, raw_of};

use clap::ArgMatches;
use tm_config::Raw;

// Stands for each text that is no number and no word of its option. It is outside every list and range.
const NO_NUMBER: u64 = u64::MAX;

// An option by its name, with its words and the number that stands for each. One that has no words takes a number.
pub type OptionRow<'a> = (&'a str, &'a [(&'a str, u64)]);

// The options of every command.
pub static OPTIONS: [OptionRow<'static>; 24] = [
    ("code", &[("rs16", 16), ("rs8", 8), ("none", 0)]),
    ("depth", &[]),
    ("length", &[]),
    (
        "inner",
        &[
            ("none", 0),
            ("1/2", 12),
            ("2/3", 23),
            ("3/4", 34),
            ("5/6", 56),
            ("7/8", 78),
        ],
    ),
    ("invert", &[("on", 1), ("off", 0)]),
    ("randomize", &[("on", 1), ("off", 0)]),
    ("basis", &[("dual", 0), ("poly", 1)]),
    ("tolerance", &[]),
    ("repair", &[]),
    ("soft", &[("u8", 0), ("i8", 1)]),
    ("start", &[("zero", 0), ("any", 1)]),
    ("skip", &[]),
    ("workers", &[]),
    ("limit", &[]),
    ("fly", &[]),
    ("keep", &[]),
    ("ahead", &[]),
    ("phase", &[("given", 0), ("find", 1), ("follow", 2)]),
    ("polarity", &[("given", 0), ("find", 1)]),
    ("batch", &[]),
    ("pack", &[("on", 1), ("off", 0)]),
    ("verify", &[]),
    ("rescan", &[("on", 1), ("off", 0)]),
    ("bad", &[("drop", 0), ("pass", 1)]),
];

// The options that `soak` has besides.
pub static SOAK_OPTIONS: [OptionRow<'static>; 3] = [("seed", &[]), ("frames", &[]), ("hits", &[])];

// 1 to 20 decimal digits of a value below 2^64 - 1, or NO_NUMBER.
fn number(text: &str) -> u64
    ensures { result ≡ number_of text.now }
{
    if text.is_empty() || text.len() > 20 {
        return NO_NUMBER;
    }
    let mut value: u64 = 0;
    for digit in text.as_bytes() {
        if !digit.is_ascii_digit() {
            return NO_NUMBER;
        }
        value = value
            .saturating_mul(10)
            .saturating_add((*digit - b'0') as u64);
    }
    value
}

// The number of a word of the list, or NO_NUMBER.
fn number_of_word(words: &[(&str, u64)], text: &str) -> u64
    ensures { result ≡ number_of_word (map (λ word. (word.0.now, word.1)) words.now) text.now }
{
    for (word, number) in words {
        if text == *word {
            return *number;
        }
    }
    NO_NUMBER
}

// The words of the option that has the name, or none.
fn words_among<'a>(options: &'a [OptionRow<'a>], name: &str) -> &'a [(&'a str, u64)]
    ensures { map (λ word. (word.0.now, word.1)) result.now
        ≡ words_among (map (λ option. (
          option.0.now,
          map
              (λ word. (word.0.now, word.1)) option.1.now,
        )) options.entry.now)
        name.now }
{
    for (option, words) in options {
        if name == *option {
            return words;
        }
    }
    &[]
}

// The number that a text gives of an option.
fn number_in(words: &[(&str, u64)], text: &str) -> u64
    ensures { result ≡ number_in (map (λ word. (word.0.now, word.1)) words.now) text.now }
{
    if words.is_empty() {
        number(text)
    } else {
        number_of_word(words, text)
    }
}

// The text that was given for an option or a word.
fn given<'a>(matches: &ArgMatches<'a>, option: &str) -> Option<&'a str>
    ensures { option_map (λ text. text.now) result ≡ first_of option.now (rows_of (found_of matches.now)) }
{
    matches.get_str(option)
}

/// The text that was given for a word, or none.
pub fn text_or_empty<'a>(matches: &ArgMatches<'a>, word: &str) -> &'a str
    ensures { result.now ≡ unwrap_or (first_of word.now (rows_of (found_of matches.now))) [] }
{
    given(matches, word).unwrap_or("")
}

// The number that was given for an option, if one was.
#[tactic(auto, unfolding(crate::specs::Options::number_given))]
fn number_given(matches: &ArgMatches, option: &str) -> Option<u64>
    ensures { result ≡ number_given option.now (rows_of (found_of matches.now)) }
{
    match given(matches, option) {
        Some(text) => Some(number_in(words_among(OPTIONS.as_slice(), option), text)),
        None => None,
    }
}

/// The number that was given for an option, or its default.
pub fn number_or(matches: &ArgMatches, option: &str, default: u64) -> u64
    ensures { result ≡ unwrap_or (number_given option.now (rows_of (found_of matches.now))) default }
{
    number_given(matches, option).unwrap_or(default)
}

/// The values of the options, each as it was given or by default.
pub fn raw(matches: &ArgMatches) -> Raw
    ensures { result ≡ raw_of (rows_of (found_of matches.now)) }
{
    let default = Raw::default();
    Raw {
        code: number_or(matches, "code", default.code),
        depth: number_or(matches, "depth", default.depth),
        length: number_given(matches, "length"),
        inner: number_or(matches, "inner", default.inner),
        invert: number_given(matches, "invert"),
        randomize: number_or(matches, "randomize", default.randomize),
        basis: number_or(matches, "basis", default.basis),
        tolerance: number_or(matches, "tolerance", default.tolerance),
        repair: number_given(matches, "repair"),
        soft: number_or(matches, "soft", default.soft),
        start: number_or(matches, "start", default.start),
        skip: number_or(matches, "skip", default.skip),
        workers: number_or(matches, "workers", default.workers),
        limit: number_or(matches, "limit", default.limit),
        fly: number_or(matches, "fly", default.fly),
        keep: number_or(matches, "keep", default.keep),
        ahead: number_or(matches, "ahead", default.ahead),
        phase: number_or(matches, "phase", default.phase),
        polarity: number_or(matches, "polarity", default.polarity),
        batch: number_or(matches, "batch", default.batch),
        pack: number_or(matches, "pack", default.pack),
        verify: number_or(matches, "verify", default.verify),
        rescan: number_or(matches, "rescan", default.rescan),
        bad: number_or(matches, "bad", default.bad),
    }
}
