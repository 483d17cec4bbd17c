// A configuration whose values are all within their lists and ranges.
ghost use Rattle.std.specs.Prelude.{◌≡◌, ◌≢◌, ◌*◌, ◌<◌, ◌≤◌, None, Some, OnOk, IfOk, IfErr, option_map};
ghost use Rattle.tm_rs_code.specs.Code.{IsStrength, longest_word};
ghost use Rattle.tm_config.specs.Configuration.{HaveNumbers, configuration_of, word_length, correctable, number_of_rate, number_of_switch, number_of_basis, number_of_form, number_of_start, number_of_mode, mode_by, number_of_sought, unfollowed};
ghost use Rattle.tm_config.specs.Accepted.{IsAccepted, refusal_of_raw};

use crate::ranges::{frame_length, refusal};
use crate::values::{
    are_on, code_of, form_of, is_on, mode_of, number_of_phase, number_of_sought, number_of_switch,
    rate_of, sought_of, start_of,
};
use crate::{ConfigError, OuterCode, Raw, SoftForm, Values};
use std::marker::Model;
use tm_conv::Rate;
use tm_gf256::Basis;
use tm_viterbi::Start;

/// The configuration of a link, each value within its list or range, and all resolved but `invert`.
#[derive(Clone, Copy, Debug)]
pub struct Config {
    values: Values,
}

impl Model for Config {
    ghost use Rattle.tm_config.specs.declared.values.Values.{Values};
    ghost use Rattle.tm_config.specs.Accepted.{IsAccepted};

    ghost Value = { Values };

    ghost view = { λ c. c.values };

    ghost invariant = { λ c. IsAccepted c.values };

    ghost inverse = { λ values. record { values = values } };
}

impl Config {
    /// The configuration that the values give. A value outside its list or range is refused by the error of its
    /// option, the first in the order of [`ConfigError`]:
    ///
    /// - `Code`: 16, 8 or 0. `Depth`: 1, 2, 3, 4, 5 or 8, and 1 alone with code 0.
    /// - `Length`: `None`, or a multiple of the depth with quotient 1 to 255 - 2E; with code 0, 1 to 2,040.
    /// - `Inner`: 0, 12, 23, 34, 56 or 78. `Switch`: `invert` `None`, 0 or 1, and `randomize` 0 or 1. `Basis`: 0 or 1.
    /// - `Tolerance`: 0 to 8. `Repair`: `None`, or 0 to E. `Soft`, `Start`: 0 or 1. `Skip`: 0 to 15.
    /// - `Workers`: 1 to 64. `Limit`: 1 to 2^40. `Fly`: 0 to 15. `Keep`: 64 to 65,536. `Ahead`: 0 to 4,096.
    /// - `Phase`: 0 to 2. `Polarity`: 0 or 1. `Batch`: 1 to 4,096. `Pack`: 0 or 1. `Verify`: 0 to 7.
    /// - `Rescan`: 0 or 1.
    /// - `Bad`: 0 or 1.
    pub fn check(raw: &Raw) -> Result<Config, ConfigError>
        ensures ok { OnOk result (refusal_of_raw raw.now ≡ None) }
        ensures config { IfOk result (λ config. config ≡ configuration_of raw.now) }
        ensures numbers { IfOk result (HaveNumbers raw.now) }
        ensures accepted { IfOk result IsAccepted }
        ensures err { IfErr result (λ error. refusal_of_raw raw.now ≡ Some error) }
    {
        match refusal(raw) {
            Some(error) => Err(error),
            None => Ok(Config {
                values: resolved(raw),
            }),
        }
    }

    /// The values, with a type for each choice.
    pub fn values(&self) -> &Values
        ensures value { result.now ≡ self.now }
        ensures accepted { IsAccepted self.now }
    {
        &self.values
    }

    /// The symbols of a codeword, n: its data and its 2E check symbols. Where there is no code, the octets of a frame.
    pub fn word_length(&self) -> u64
        ensures value { result ≡ word_length self.now }
        ensures fits { self.now.code ≢ OuterCode.Uncoded
            → (2 * correctable self.now.code < result) × (result ≤ longest_word) }
        ensures accepted { IsAccepted self.now }
    {
        self.values.frame_length / self.values.depth + 2 * self.values.code.correctable()
    }

    /// How many wrong symbols of a codeword the Reed-Solomon code corrects, E: 16 or 8, or 0 where there is no code.
    pub fn code(&self) -> u64
        ensures value { result ≡ correctable self.now.code }
        ensures some { self.now.code ≢ OuterCode.Uncoded → IsStrength result }
        ensures accepted { IsAccepted self.now }
    {
        self.values.code.correctable()
    }

    /// The interleaving depth, 1 to 8: the codewords of a codeblock.
    pub fn depth(&self) -> u64
        ensures value { result ≡ self.now.depth }
        ensures accepted { IsAccepted self.now }
    {
        self.values.depth
    }

    /// The octets of a transfer frame.
    pub fn length(&self) -> u64
        ensures value { result ≡ self.now.frame_length }
        ensures accepted { IsAccepted self.now }
    {
        self.values.frame_length
    }

    /// The rate of the convolutional code by its two digits, as 12 for 1/2, or 0 where there is none.
    pub fn inner(&self) -> u64
        ensures value { result ≡ number_of_rate self.now.inner }
        ensures accepted { IsAccepted self.now }
    {
        match self.values.inner {
            None => 0,
            Some(Rate::R12) => 12,
            Some(Rate::R23) => 23,
            Some(Rate::R34) => 34,
            Some(Rate::R56) => 56,
            Some(Rate::R78) => 78,
        }
    }

    /// Whether each second symbol of the convolutional code is inverted, 0 or 1, or `None` for what the rate asks for.
    /// It has no effect where there is no inner code.
    pub fn invert(&self) -> Option<u64>
        ensures value { result ≡ option_map number_of_switch self.now.invert }
        ensures accepted { IsAccepted self.now }
    {
        match self.values.invert {
            None => None,
            Some(is_inverted) => Some(number_of_switch(is_inverted)),
        }
    }

    /// 1 where codeblocks are randomized, and else 0.
    pub fn randomize(&self) -> u64
        ensures value { result ≡ number_of_switch self.now.randomize }
        ensures accepted { IsAccepted self.now }
    {
        number_of_switch(self.values.randomize)
    }

    /// The representation of the symbols: 0 for the dual basis, 1 for the polynomial basis.
    pub fn basis(&self) -> u64
        ensures value { result ≡ number_of_basis self.now.basis }
        ensures accepted { IsAccepted self.now }
    {
        match self.values.basis {
            Basis::Dual => 0,
            Basis::Poly => 1,
        }
    }

    /// How many bits of a sync marker may be wrong.
    pub fn tolerance(&self) -> u64
        ensures value { result ≡ self.now.tolerance }
        ensures accepted { IsAccepted self.now }
    {
        self.values.tolerance
    }

    /// How many wrong symbols of a codeword are corrected at most, up to E.
    pub fn repair(&self) -> u64
        ensures value { result ≡ self.now.repair }
        ensures accepted { IsAccepted self.now }
    {
        self.values.repair
    }

    /// The form of a soft symbol: 0 for unsigned, 1 for signed octets. It has no effect where there is no inner code
    /// and bits are packed.
    pub fn soft(&self) -> u64
        ensures value { result ≡ number_of_form self.now.soft }
        ensures accepted { IsAccepted self.now }
    {
        match self.values.soft {
            SoftForm::Unsigned => 0,
            SoftForm::Signed => 1,
        }
    }

    /// Where the inner decoder's paths start: 0 for register zero, 1 for any register.
    pub fn start(&self) -> u64
        ensures value { result ≡ number_of_start self.now.start }
        ensures accepted { IsAccepted self.now }
    {
        match self.values.start {
            Start::Zero => 0,
            Start::Any => 1,
        }
    }

    /// How many soft symbols, or bits where there is no inner code, are dropped first.
    pub fn skip(&self) -> u64
        ensures value { result ≡ self.now.skip }
        ensures accepted { IsAccepted self.now }
    {
        self.values.skip
    }

    /// How many workers decode.
    pub fn workers(&self) -> u64
        ensures value { result ≡ self.now.workers }
        ensures accepted { IsAccepted self.now }
    {
        self.values.workers
    }

    /// The most octets that are read.
    pub fn limit(&self) -> u64
        ensures value { result ≡ self.now.limit }
        ensures accepted { IsAccepted self.now }
    {
        self.values.limit
    }

    /// How many markers in a row may be missing.
    pub fn fly(&self) -> u64
        ensures value { result ≡ self.now.fly }
        ensures accepted { IsAccepted self.now }
    {
        self.values.fly
    }

    /// The steps of a window of the inner decoder that are kept.
    pub fn keep(&self) -> u64
        ensures value { result ≡ self.now.keep }
        ensures accepted { IsAccepted self.now }
    {
        self.values.keep
    }

    /// The steps that a window has beyond those that are kept.
    pub fn ahead(&self) -> u64
        ensures value { result ≡ self.now.ahead }
        ensures accepted { IsAccepted self.now }
    {
        self.values.ahead
    }

    /// The phase of the symbols: 0 where it is given, 1 where it is to be found, 2 where it is to be found and
    /// followed.
    pub fn phase(&self) -> u64
        ensures value { result ≡ number_of_mode (mode_by self.now.phase self.now.follow) }
        ensures accepted { IsAccepted self.now }
    {
        number_of_phase(self.values.phase, self.values.follow)
    }

    /// The polarity of the symbols: 0 where it is given, 1 where it is to be found.
    pub fn polarity(&self) -> u64
        ensures value { result ≡ number_of_sought self.now.polarity }
        ensures accepted { IsAccepted self.now }
    {
        number_of_sought(self.values.polarity)
    }

    /// How many codeblocks are repaired and handed over at once.
    pub fn batch(&self) -> u64
        ensures value { result ≡ self.now.batch }
        ensures accepted { IsAccepted self.now }
    {
        self.values.batch
    }

    /// Whether eight bits make an octet where there is no inner code: 1, or 0 where each bit is an octet of its own.
    pub fn pack(&self) -> u64
        ensures value { result ≡ number_of_switch self.now.pack }
        ensures accepted { IsAccepted self.now }
    {
        number_of_switch(self.values.pack)
    }

    /// How many further markers must match before a place that is searched for is taken.
    pub fn verify(&self) -> u64
        ensures value { result ≡ self.now.verify }
        ensures accepted { IsAccepted self.now }
    {
        self.values.verify
    }

    /// Whether markers are looked for inside codeblocks too: 1, or 0 where they are not.
    pub fn rescan(&self) -> u64
        ensures value { result ≡ number_of_switch self.now.rescan }
        ensures accepted { IsAccepted self.now }
    {
        number_of_switch(self.values.rescan)
    }

    /// Whether what is left of a frame with an uncorrectable column is given: 1, or 0 where it is dropped.
    pub fn bad(&self) -> u64
        ensures value { result ≡ number_of_switch self.now.pass_bad }
        ensures accepted { IsAccepted self.now }
    {
        number_of_switch(self.values.pass_bad)
    }

    /// A copy of the configuration in which a phase that is to be found is not followed.
    pub fn unfollowed(&self) -> Config
        ensures value { result ≡ unfollowed self.now }
        ensures accepted { IsAccepted result }
    {
        let values = Values {
            follow: false,
            ..self.values
        };
        Config { values }
    }
}

// The values, with those that were not given.
fn resolved(raw: &Raw) -> Values
    requires { refusal_of_raw raw.now ≡ None }
    ensures { result ≡ configuration_of raw.now }
{
    let code = code_of(raw.code);
    let mode = mode_of(raw.phase);
    Values {
        code,
        depth: raw.depth,
        frame_length: frame_length(raw),
        inner: rate_of(raw.inner),
        invert: are_on(raw.invert),
        randomize: is_on(raw.randomize),
        basis: Basis::numbered(raw.basis),
        tolerance: raw.tolerance,
        repair: raw.repair.unwrap_or(code.correctable()),
        soft: form_of(raw.soft),
        start: start_of(raw.start),
        skip: raw.skip,
        workers: raw.workers,
        limit: raw.limit,
        fly: raw.fly,
        keep: raw.keep,
        ahead: raw.ahead,
        phase: mode.phase(),
        follow: mode.is_followed(),
        polarity: sought_of(raw.polarity),
        batch: raw.batch,
        pack: is_on(raw.pack),
        verify: raw.verify,
        rescan: is_on(raw.rescan),
        pass_bad: is_on(raw.bad),
    }
}
