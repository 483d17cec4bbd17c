// Channel access data units: a frame's codeblock, randomized, after the attached sync marker.
ghost use Rattle.std.specs.Prelude.{◌≡◌, ◌≢◌, ℕ, ◌+◌, ◌-◌, ◌*◌, ◌<◌, ◌≤◌, ◌++◌, length, true, false};
ghost use Rattle.tm_config.specs.Accepted.{IsAccepted};
ghost use Rattle.tm_config.specs.Configuration.{correctable, word_length, codeblock_length, longest_codeblock, deepest};
ghost use Rattle.tm_codeblock.specs.Column.{column};
ghost use Rattle.tm_codeblock.specs.ReceivedCodeblock.{column_count};
ghost use Rattle.tm_codeblock.specs.Cadu.{coded_octets, coded_column, codeblock_of, cadu, unit_size};

use crate::columns::{put_word, take_word};
use crate::randomizer::mask;
use tm_base::MARKER;
use tm_config::{Config, LONGEST_CODEBLOCK, OuterCode};
use tm_gf256::{Basis, Gf};
use tm_rs::checks;
use tm_rs_code::Params;

/// The most octets of a channel access data unit: those of the marker, and of the longest codeblock.
pub const LONGEST_CADU: usize = 4 + LONGEST_CODEBLOCK;

// The most data symbols of a codeword, those of the code with 16 check symbols.
const MOST_DATA: usize = 239;

// The most check symbols of a codeword.
const MOST_CHECKS: usize = 32;

/// Writes the channel access data unit of a frame: the attached sync marker, and after it the codeblock, whose columns
/// are the codewords of the frame's columns in the configured basis, randomized where that is on (CCSDS 131.0-B,
/// Reed-Solomon Coding, Pseudo-Randomizer and Frame Synchronization). With no outer code the codeblock is the frame.
/// The frame has as many octets as the configuration says, and `out` four more than the codeblock.
pub fn cadu(config: &Config, frame: &[u8], out: &mut [u8])
    requires frame { length frame.now ≡ config.now.frame_length }
    requires out { length out.old ≡ unit_size config.now }
    ensures { out.new ≡ cadu config.now frame.now }
{
    let (marker, codeblock) = out.split_at_mut(MARKER.len());
    marker.copy_from_slice(&MARKER);
    write_codeblock(config, frame, codeblock);
    if is_randomized(config) {
        mask(codeblock);
    }
}

// Writes the codeblock of a frame: the frame and the check symbols of its columns.
fn write_codeblock(config: &Config, frame: &[u8], codeblock: &mut [u8])
    requires frame { length frame.now ≡ config.now.frame_length }
    requires room { length codeblock.old ≡ codeblock_length config.now }
    ensures { codeblock.new ≡ codeblock_of config.now frame.now }
{
    let is_coded = has_code(config);
    let (data, checks) = codeblock.split_at_mut(frame.len());
    data.copy_from_slice(frame);
    if is_coded {
        write_checks(config, frame, checks);
    }
}

// Writes the check symbols of a frame's columns, interleaved as the frame is.
fn write_checks(config: &Config, frame: &[u8], checks: &mut [u8])
    requires coded { config.now.code ≢ OuterCode.Uncoded }
    requires frame { length frame.now ≡ config.now.frame_length }
    requires room { length checks.old ≡ config.now.depth * (2 * correctable config.now.code) }
    ensures columns { (i : ℕ) → i < config.now.depth
        → column config.now.depth i frame.now ++ column config.now.depth i checks.new
        ≡ coded_column config.now frame.now i }
    ensures length { length checks.new ≡ length checks.old }
{
    let params = params_of(config);
    let basis = basis_of(config);
    let depth = config.depth() as usize;
    for i in 0..depth {
        write_column(&params, basis, depth, i, frame, checks);
    }
}

// Writes the check symbols of column i of a frame.
fn write_column(
    params: &Params,
    basis: Basis,
    depth: usize,
    i: usize,
    frame: &[u8],
    checks: &mut [u8],
)
    requires column { i < depth }
    requires frame { length frame.now ≡ depth * (params.now.n - 2 * params.now.e) }
    requires room { length checks.old ≡ depth * (2 * params.now.e) }
    ensures column { column depth i frame.now ++ column depth i checks.new
        ≡ coded_octets basis params.now.e (column depth i frame.now) }
    ensures others { (j : ℕ) → j < depth → j ≢ i → column depth j checks.new ≡ column depth j checks.old }
    ensures length { length checks.new ≡ length checks.old }
{
    let count = 2 * params.e() as usize;
    let size = params.n() as usize - count;
    let mut word = [0; MOST_DATA];
    let word = &mut word[..size];
    take_word(frame, depth, i, word);
    let mut octets = [0; MOST_CHECKS];
    let octets = &mut octets[..count];
    column_checks(params, basis, word, octets);
    put_word(checks, depth, i, octets);
}

// The octets of the check symbols after those of a column of data.
fn column_checks(params: &Params, basis: Basis, word: &[u8], out: &mut [u8])
    requires word { length word.now + 2 * params.now.e ≡ params.now.n }
    requires room { length out.old ≡ 2 * params.now.e }
    ensures { word.now ++ out.new ≡ coded_octets basis params.now.e word.now }
{
    let count = 2 * params.e() as usize;
    let mut info = [Gf(0); MOST_DATA];
    let info = &mut info[..word.len()];
    basis.octets_to_elements(word, info);
    let mut symbols = [Gf(0); MOST_CHECKS];
    let symbols = &mut symbols[..count];
    checks(params, info, symbols);
    basis.elements_to_octets(symbols, out);
}

/// Whether a configuration has an outer code.
pub fn has_code(config: &Config) -> bool
    ensures coded { result ≡ true → config.now.code ≢ OuterCode.Uncoded }
    ensures uncoded { result ≡ false → config.now.code ≡ OuterCode.Uncoded }
    ensures accepted { IsAccepted config.now }
{
    match config.values().code {
        OuterCode::Uncoded => false,
        _ => true,
    }
}

/// How many columns a codeblock is repaired as: none with no outer code.
pub fn column_count(config: &Config) -> usize
    ensures value { result ≡ column_count config.now }
    ensures most { result ≤ deepest }
{
    match config.values().code {
        OuterCode::Uncoded => 0,
        _ => config.depth() as usize,
    }
}

/// Whether codeblocks are randomized.
pub fn is_randomized(config: &Config) -> bool
    ensures { result ≡ config.now.randomize }
{
    config.values().randomize
}

/// The basis of a configuration.
pub fn basis_of(config: &Config) -> Basis
    ensures { result ≡ config.now.basis }
{
    config.values().basis
}

/// The code of a configuration that has one, with its words shortened as the configuration says.
pub fn params_of(config: &Config) -> Params
    requires { config.now.code ≢ OuterCode.Uncoded }
    ensures e { result.e ≡ correctable config.now.code }
    ensures n { result.n ≡ word_length config.now }
{
    Params::new(config.code(), config.word_length()).unwrap()
}

/// The octets of a codeblock, at most 2,040. Its CADU has four more.
pub fn codeblock_size(config: &Config) -> usize
    ensures value { result ≡ codeblock_length config.now }
    ensures most { result ≤ longest_codeblock }
{
    (config.depth() * config.word_length()) as usize
}
