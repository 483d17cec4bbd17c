// The test of each value, and the first that fails.
ghost use Rattle.std.specs.Prelude.{◌≡◌, ◌*◌, None, unwrap_or};
ghost use Rattle.tm_config.specs.Configuration.{most_data, code_of, correctable, all_codes, number_of_rate, all_rates, number_of_mode, all_modes};
ghost use Rattle.tm_config.specs.Accepted.{is_number, is_within, switch_fits, depth_fits, length_fits, switches_fit, repair_fits, first_error, refusal_of_raw};

use crate::values::code_of;
use crate::{ConfigError, OuterCode, Raw};

// The most symbols of a codeword.
pub const LONGEST_WORD: u64 = 255;

/// The most octets of a codeblock: those of eight such words, which interleave at the greatest depth.
pub const LONGEST_CODEBLOCK: usize = 2040;

pub const DEEPEST: u64 = 8;

// The bounds of the other values, by their options.
pub const MOST_TOLERANCE: u64 = 8;

pub const MOST_SKIP: u64 = 15;

pub const MOST_WORKERS: u64 = 64;

pub const MOST_LIMIT: u64 = 1 << 40;

pub const MOST_FLY: u64 = 15;

pub const LEAST_KEEP: u64 = 64;

pub const MOST_KEEP: u64 = 65_536;

pub const MOST_AHEAD: u64 = 4096;

pub const MOST_BATCH: u64 = 4_096;

pub const MOST_VERIFY: u64 = 7;

// The most data octets of a codeword, or of a frame where there is no code.
fn most_data(code: OuterCode) -> u64
    ensures { result ≡ most_data code }
{
    match code {
        OuterCode::Uncoded => LONGEST_CODEBLOCK as u64,
        _ => LONGEST_WORD.saturating_sub(code.correctable().saturating_mul(2)),
    }
}

fn is_within(least: u64, most: u64, value: u64) -> bool
    ensures { result ≡ is_within least most value }
{
    (least..=most).contains(&value)
}

fn code_fits(code: u64) -> bool
    ensures { result ≡ is_number correctable all_codes code }
{
    matches!(code, 16 | 8 | 0)
}

fn depth_fits(raw: &Raw) -> bool
    ensures { result ≡ depth_fits raw.now }
{
    match code_of(raw.code) {
        OuterCode::Uncoded => raw.depth == 1,
        _ => matches!(raw.depth, 1 | 2 | 3 | 4 | 5 | DEEPEST),
    }
}

fn length_fits(raw: &Raw) -> bool
    ensures { result ≡ length_fits raw.now }
{
    match raw.length {
        None => true,
        Some(length) => {
            raw.depth > 0
                && length % raw.depth == 0
                && is_within(1, most_data(code_of(raw.code)), length / raw.depth)
        }
    }
}

fn inner_fits(inner: u64) -> bool
    ensures { result ≡ is_number number_of_rate all_rates inner }
{
    matches!(inner, 0 | 12 | 23 | 34 | 56 | 78)
}

// Whether a choice of two has the number.
fn is_choice(number: u64) -> bool
    ensures { result ≡ switch_fits number }
{
    matches!(number, 0 | 1)
}

fn phase_fits(phase: u64) -> bool
    ensures { result ≡ is_number number_of_mode all_modes phase }
{
    matches!(phase, 0 | 1 | 2)
}

fn switches_fit(raw: &Raw) -> bool
    ensures { result ≡ switches_fit raw.now }
{
    match raw.invert {
        None => is_choice(raw.randomize),
        Some(invert) => is_choice(invert) && is_choice(raw.randomize),
    }
}

fn repair_fits(raw: &Raw) -> bool
    ensures { result ≡ repair_fits raw.now }
{
    match raw.repair {
        None => true,
        Some(repair) => repair <= code_of(raw.code).correctable(),
    }
}

// The error of the first test that fails.
fn first_error(tests: &[(bool, ConfigError)]) -> Option<ConfigError>
    ensures { result ≡ first_error tests.now }
{
    for (fits, error) in tests {
        if !*fits {
            return Some(*error);
        }
    }
    None
}

// The error of the first value that is outside its list or range.
pub fn refusal(raw: &Raw) -> Option<ConfigError>
    ensures { result ≡ refusal_of_raw raw.now }
{
    first_error(&[
        (code_fits(raw.code), ConfigError::Code),
        (depth_fits(raw), ConfigError::Depth),
        (length_fits(raw), ConfigError::Length),
        (inner_fits(raw.inner), ConfigError::Inner),
        (switches_fit(raw), ConfigError::Switch),
        (is_choice(raw.basis), ConfigError::Basis),
        (raw.tolerance <= MOST_TOLERANCE, ConfigError::Tolerance),
        (repair_fits(raw), ConfigError::Repair),
        (is_choice(raw.soft), ConfigError::Soft),
        (is_choice(raw.start), ConfigError::Start),
        (raw.skip <= MOST_SKIP, ConfigError::Skip),
        (
            is_within(1, MOST_WORKERS, raw.workers),
            ConfigError::Workers,
        ),
        (is_within(1, MOST_LIMIT, raw.limit), ConfigError::Limit),
        (raw.fly <= MOST_FLY, ConfigError::Fly),
        (
            is_within(LEAST_KEEP, MOST_KEEP, raw.keep),
            ConfigError::Keep,
        ),
        (raw.ahead <= MOST_AHEAD, ConfigError::Ahead),
        (phase_fits(raw.phase), ConfigError::Phase),
        (is_choice(raw.polarity), ConfigError::Polarity),
        (is_within(1, MOST_BATCH, raw.batch), ConfigError::Batch),
        (is_choice(raw.pack), ConfigError::Pack),
        (raw.verify <= MOST_VERIFY, ConfigError::Verify),
        (is_choice(raw.rescan), ConfigError::Rescan),
        (is_choice(raw.bad), ConfigError::Bad),
    ])
}

// The octets of a frame, of the longest one where its length is not given.
pub fn frame_length(raw: &Raw) -> u64
    requires { refusal_of_raw raw.now ≡ None }
    ensures { result ≡ unwrap_or raw.now.length (raw.now.depth * most_data (code_of raw.now.code)) }
{
    match raw.length {
        Some(length) => length,
        None => raw.depth * most_data(code_of(raw.code)),
    }
}
