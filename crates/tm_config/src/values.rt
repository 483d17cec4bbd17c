// The values of the options: the numbers that were given, and what they are in a configuration.
ghost use Rattle.std.specs.Prelude.{◌≡◌, option_map};
ghost use Rattle.tm_config.specs.Configuration.{default_raw, correctable, is_uncoded, code_of, rate_of, number_of_switch, is_on, form_of, start_of, number_of_mode, mode_of, phase_of, is_followed, mode_by, number_of_sought, sought_of};

use tm_conv::Rate;
use tm_gf256::Basis;
use tm_viterbi::Start;

/// The values of the options as numbers, not tested yet. Any number may stand in any field.
#[derive(Clone, Copy, Debug, PartialEq, Eq)]
pub struct Raw {
    /// How many wrong symbols of a codeword the Reed-Solomon code corrects, E: 16 or 8, or 0 for no code.
    pub code: u64,
    /// The interleaving depth: 1, 2, 3, 4, 5 or 8.
    pub depth: u64,
    /// The octets of a transfer frame, or `None` for the most that a codeblock holds.
    pub length: Option<u64>,
    /// The rate of the convolutional code by its two digits, as 12 for 1/2 or 78 for 7/8, or 0 for no code.
    pub inner: u64,
    /// Whether each second symbol of the convolutional code is inverted (0 or 1), or `None` for what the rate asks for.
    pub invert: Option<u64>,
    /// Whether codeblocks are randomized: 0 or 1.
    pub randomize: u64,
    /// The representation of the symbols: 0 for the dual basis, 1 for the polynomial basis.
    pub basis: u64,
    /// How many bits of a sync marker may be wrong: up to 8.
    pub tolerance: u64,
    /// How many wrong symbols of a codeword are corrected at most: up to E, or `None` for E.
    pub repair: Option<u64>,
    /// The form of a soft symbol: 0 for unsigned, 1 for signed octets.
    pub soft: u64,
    /// Where the inner decoder's paths start: 0 for register zero, 1 for any register.
    pub start: u64,
    /// How many soft symbols, or bits where there is no inner code, are dropped first: up to 15.
    pub skip: u64,
    /// How many workers decode: 1 to 64.
    pub workers: u64,
    /// The most octets that are read: up to 2^40.
    pub limit: u64,
    /// How many markers in a row may be missing: up to 15.
    pub fly: u64,
    /// The steps of a window of the inner decoder that are kept: 64 to 65,536.
    pub keep: u64,
    /// The steps that a window has beyond those that are kept: up to 4,096.
    pub ahead: u64,
    /// The phase of the symbols: 0 where it is given, 1 where it is to be found, 2 where it is to be found and
    /// followed.
    pub phase: u64,
    /// The polarity of the symbols: 0 where it is given, 1 where it is to be found.
    pub polarity: u64,
    /// How many codeblocks are repaired and handed over at once: 1 to 4,096.
    pub batch: u64,
    /// Whether eight bits make an octet where there is no inner code (1), or each bit is an octet of its own (0).
    pub pack: u64,
    /// How many further markers must match before a place that is searched for is taken: up to 7.
    pub verify: u64,
    /// Whether markers are looked for inside codeblocks too: 0 or 1.
    pub rescan: u64,
    /// Whether what is left of a frame with an uncorrectable column is dropped, 0, or given, 1.
    pub bad: u64,
}

/// The values that hold where an option is not given.
impl Default for Raw {
    ghost is_default = { λ raw. raw ≡ default_raw };

    fn default() -> Raw {
        Raw {
            code: 16,
            depth: 1,
            length: None,
            inner: 12,
            invert: None,
            randomize: 1,
            basis: 0,
            tolerance: 0,
            repair: None,
            soft: 0,
            start: 0,
            skip: 0,
            workers: 1,
            limit: 4_294_967_296,
            fly: 0,
            keep: 8_192,
            ahead: 256,
            phase: 0,
            polarity: 0,
            batch: 32,
            pack: 1,
            verify: 0,
            rescan: 0,
            bad: 0,
        }
    }
}

/// The Reed-Solomon code of a codeblock (CCSDS 131.0-B, Reed-Solomon Coding), or none.
#[derive(Clone, Copy, Debug, PartialEq, Eq)]
pub enum OuterCode {
    /// The code that corrects 16 symbols.
    Rs16,
    /// The code that corrects 8 symbols.
    Rs8,
    /// No code.
    Uncoded,
}

/// The form of a soft symbol.
#[derive(Clone, Copy, Debug, PartialEq, Eq)]
pub enum SoftForm {
    /// 0 is the strongest 0, and 255 the strongest 1.
    Unsigned,
    /// -128 is the strongest 0, and 127 the strongest 1, in two's complement.
    Signed,
}

/// What is known of the symbol phase, or of the polarity.
#[derive(Clone, Copy, Debug, PartialEq, Eq)]
pub enum Sought {
    /// It is given.
    Given,
    /// It is to be found.
    Find,
}

/// What is asked for of the symbol phase.
#[derive(Clone, Copy)]
pub enum PhaseMode {
    /// It is given.
    Given,
    /// It is to be found.
    Find,
    /// It is to be found, and followed.
    Follow,
}

/// The values of a configuration, all resolved but `invert`.
#[derive(Clone, Copy, Debug)]
pub struct Values {
    pub code: OuterCode,
    /// The interleaving depth.
    pub depth: u64,
    /// The octets of a transfer frame.
    pub frame_length: u64,
    /// The rate of the convolutional code, or `None` for no code.
    pub inner: Option<Rate>,
    /// Whether each second symbol of the convolutional code is inverted, or `None` for what the rate asks for.
    pub invert: Option<bool>,
    pub randomize: bool,
    pub basis: Basis,
    /// How many bits of a sync marker may be wrong.
    pub tolerance: u64,
    /// How many wrong symbols of a codeword are corrected at most.
    pub repair: u64,
    pub soft: SoftForm,
    /// Where the inner decoder's first path starts.
    pub start: Start,
    /// How many soft symbols, or bits where there is no inner code, are dropped first.
    pub skip: u64,
    pub workers: u64,
    /// The most octets that are read.
    pub limit: u64,
    /// How many markers in a row may be missing.
    pub fly: u64,
    /// The steps of a window of the inner decoder that are kept.
    pub keep: u64,
    /// The steps that a window has beyond those that are kept.
    pub ahead: u64,
    pub phase: Sought,
    /// Whether the phase, where it is to be found, is looked at again before each later window of the inner decoder.
    pub follow: bool,
    pub polarity: Sought,
    /// How many codeblocks are repaired and handed over at once.
    pub batch: u64,
    /// Whether eight bits make an octet where there is no inner code.
    pub pack: bool,
    /// How many further markers must match before a place that is searched for is taken.
    pub verify: u64,
    /// Whether markers are looked for inside codeblocks that are not sound, and at the end of others.
    pub rescan: bool,
    /// Whether what is left of a frame with an uncorrectable column is given too.
    pub pass_bad: bool,
}

impl OuterCode {
    /// How many wrong symbols of a codeword the code corrects, E: 16 or 8, or 0 where there is no code.
    pub fn correctable(self) -> u64
        ensures { result ≡ correctable self }
    {
        match self {
            OuterCode::Rs16 => 16,
            OuterCode::Rs8 => 8,
            OuterCode::Uncoded => 0,
        }
    }

    /// Whether there is no code.
    pub fn is_uncoded(self) -> bool
        ensures { result ≡ is_uncoded self }
    {
        match self {
            OuterCode::Rs16 => false,
            OuterCode::Rs8 => false,
            OuterCode::Uncoded => true,
        }
    }
}

impl PhaseMode {
    /// Whether the phase is given or to be found.
    pub fn phase(self) -> Sought
        ensures { result ≡ phase_of self }
    {
        match self {
            PhaseMode::Given => Sought::Given,
            PhaseMode::Find => Sought::Find,
            PhaseMode::Follow => Sought::Find,
        }
    }

    /// Whether the phase is followed.
    pub fn is_followed(self) -> bool
        ensures { result ≡ is_followed self }
    {
        match self {
            PhaseMode::Given => false,
            PhaseMode::Find => false,
            PhaseMode::Follow => true,
        }
    }
}

pub fn code_of(number: u64) -> OuterCode
    ensures { result ≡ code_of number }
{
    match number {
        16 => OuterCode::Rs16,
        8 => OuterCode::Rs8,
        _ => OuterCode::Uncoded,
    }
}

pub fn rate_of(number: u64) -> Option<Rate>
    ensures { result ≡ rate_of number }
{
    match number {
        12 => Some(Rate::R12),
        23 => Some(Rate::R23),
        34 => Some(Rate::R34),
        56 => Some(Rate::R56),
        78 => Some(Rate::R78),
        _ => None,
    }
}

pub fn is_on(number: u64) -> bool
    ensures { result ≡ is_on number }
{
    number == 1
}

pub fn are_on(number: Option<u64>) -> Option<bool>
    ensures { result ≡ option_map is_on number }
{
    match number {
        Some(number) => Some(is_on(number)),
        None => None,
    }
}

pub fn number_of_switch(is_on: bool) -> u64
    ensures { result ≡ number_of_switch is_on }
{
    if is_on { 1 } else { 0 }
}

pub fn form_of(number: u64) -> SoftForm
    ensures { result ≡ form_of number }
{
    match number {
        1 => SoftForm::Signed,
        _ => SoftForm::Unsigned,
    }
}

pub fn start_of(number: u64) -> Start
    ensures { result ≡ start_of number }
{
    match number {
        1 => Start::Any,
        _ => Start::Zero,
    }
}

pub fn sought_of(number: u64) -> Sought
    ensures { result ≡ sought_of number }
{
    match number {
        1 => Sought::Find,
        _ => Sought::Given,
    }
}

pub fn mode_of(number: u64) -> PhaseMode
    ensures { result ≡ mode_of number }
{
    match number {
        1 => PhaseMode::Find,
        2 => PhaseMode::Follow,
        _ => PhaseMode::Given,
    }
}

pub fn number_of_phase(phase: Sought, follow: bool) -> u64
    ensures { result ≡ number_of_mode (mode_by phase follow) }
{
    match phase {
        Sought::Given => 0,
        Sought::Find => { if follow { 2 } else { 1 } }
    }
}

pub fn number_of_sought(sought: Sought) -> u64
    ensures { result ≡ number_of_sought sought }
{
    match sought {
        Sought::Given => 0,
        Sought::Find => 1,
    }
}
