// A configuration as a program in C has it: the numbers of its options.
ghost use Rattle.std.specs.Prelude.{◌≡◌, None, Some, IfOk, IfErr, length, replicate};
ghost use Rattle.tm_config.specs.Configuration.{configuration_of, default_raw};
ghost use Rattle.tmchan_c.specs.Options.{are_zero, configuration, given, numbers_of, raw_by, raw_of, recording_of, set_in};
ghost use Rattle.tmchan_c.specs.Refusal.{answered, config_refusal, number_answer, values_refusal};

use crate::refusal::Refusal;
use tm_config::{Config, Raw};

// How many options there are.
const OPTIONS: usize = 24;

// Where the value of an option that may be left out is.
const UNSET: u64 = 0xFFFF_FFFF_FFFF_FFFF;

/// Sets the options to the values that hold where they are not given, and what stands behind them to 0.
#[unsafe(no_mangle)]
pub extern "C" fn tmchan_config_defaults(options: &mut [u64])
    ensures { options.new ≡ set_in (replicate (length options.old) 0) (numbers_of default_raw) }
{
    options.fill(0);
    set_in(options, &numbers(&Raw::default()));
}

/// Sets the options that a recording from outside asks for, and leaves the others.
#[unsafe(no_mangle)]
pub extern "C" fn tmchan_config_recording(options: &mut [u64])
    ensures { options.new ≡ set_in options.old (numbers_of (recording_of (raw_of options.old))) }
{
    let raw = recording(&raw(options));
    set_in(options, &numbers(&raw));
}

// The values for a recording. Windows are short at rate 1/2.
fn recording(raw: &Raw) -> Raw
    ensures { result ≡ recording_of raw.now }
{
    let is_half = raw.inner == 12;
    Raw {
        tolerance: 3,
        start: 1,
        fly: 1,
        keep: if is_half { 128 } else { 8192 },
        ahead: if is_half { 64 } else { 256 },
        phase: 2,
        polarity: 1,
        verify: 0,
        rescan: 1,
        ..*raw
    }
}

/// Returns 0; or that there are more options than are known here, or the first value that is outside its list or range.
#[unsafe(no_mangle)]
pub extern "C" fn tmchan_config_check(options: &[u64]) -> i32
    ensures { result ≡ answered (config_refusal options.now) }
{
    match config_of(options) {
        Err(refusal) => refusal.answer(),
        Ok(_) => 0,
    }
}

/// The octets of a transfer frame; or why there is no such configuration.
#[unsafe(no_mangle)]
pub extern "C" fn tmchan_frame_length(options: &[u64]) -> i32
    ensures { result ≡ number_answer (config_refusal options.now) (Some (configuration options.now).frame_length) }
{
    match config_of(options) {
        Err(refusal) => refusal.answer(),
        Ok(config) => config.length() as i32,
    }
}

/// The configuration that options give, or why they give none.
pub fn config_of(options: &[u64]) -> Result<Config, Refusal>
    ensures ok { IfOk result (λ config. (config_refusal options.now ≡ None) × (config ≡ configuration options.now)) }
    ensures err { IfErr result (λ refusal. config_refusal options.now ≡ Some refusal) }
{
    if !are_zero(&options[OPTIONS.min(options.len())..]) {
        return Err(Refusal::Config);
    }
    checked(&raw(options))
}

/// The configuration that values give, or why they give none.
pub fn checked(raw: &Raw) -> Result<Config, Refusal>
    ensures ok { IfOk result (λ config. (values_refusal raw.now ≡ None) × (config ≡ configuration_of raw.now)) }
    ensures err { IfErr result (λ refusal. values_refusal raw.now ≡ Some refusal) }
{
    match Config::check(raw) {
        Ok(config) => Ok(config),
        Err(error) => Err(Refusal::Value(error)),
    }
}

// Whether all numbers are 0.
fn are_zero(numbers: &[u64]) -> bool
    ensures { result ≡ are_zero numbers.now }
{
    for number in numbers {
        if *number != 0 {
            return false;
        }
    }
    true
}

// A value that was given.
fn given(value: u64) -> Option<u64>
    ensures { result ≡ given value }
{
    if value == UNSET { None } else { Some(value) }
}

// The values of the options; of those that are missing, the ones that hold where they are not given.
fn raw(options: &[u64]) -> Raw
    ensures { result ≡ raw_of options.now }
{
    let mut all = numbers(&Raw::default());
    set_in(&mut all, options);
    raw_by(&all)
}

// Writes numbers to the start of an array, as many as it has.
fn set_in(array: &mut [u64], numbers: &[u64])
    ensures { array.new ≡ set_in array.old numbers.now }
{
    let count = array.len().min(numbers.len());
    array[..count].copy_from_slice(&numbers[..count]);
}

// The numbers of the options.
fn numbers(raw: &Raw) -> [u64; 24]
    ensures { result ≡ numbers_of raw.now }
{
    [
        raw.code,
        raw.depth,
        raw.length.unwrap_or(UNSET),
        raw.inner,
        raw.invert.unwrap_or(UNSET),
        raw.randomize,
        raw.basis,
        raw.tolerance,
        raw.repair.unwrap_or(UNSET),
        raw.soft,
        raw.start,
        raw.skip,
        raw.workers,
        raw.limit,
        raw.fly,
        raw.keep,
        raw.ahead,
        raw.phase,
        raw.polarity,
        raw.batch,
        raw.pack,
        raw.verify,
        raw.rescan,
        raw.bad,
    ]
}

// The values of the options by all of their numbers.
fn raw_by(numbers: &[u64; 24]) -> Raw
    ensures { result ≡ raw_by numbers.now }
{
    Raw {
        code: numbers[0],
        depth: numbers[1],
        length: given(numbers[2]),
        inner: numbers[3],
        invert: given(numbers[4]),
        randomize: numbers[5],
        basis: numbers[6],
        tolerance: numbers[7],
        repair: given(numbers[8]),
        soft: numbers[9],
        start: numbers[10],
        skip: numbers[11],
        workers: numbers[12],
        limit: numbers[13],
        fly: numbers[14],
        keep: numbers[15],
        ahead: numbers[16],
        phase: numbers[17],
        polarity: numbers[18],
        batch: numbers[19],
        pack: numbers[20],
        verify: numbers[21],
        rescan: numbers[22],
        bad: numbers[23],
    }
}
