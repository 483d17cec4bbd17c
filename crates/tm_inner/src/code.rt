// The inner code of a configuration.
ghost use Rattle.std.specs.Prelude.{◌≡◌, ◌≤◌, ◌^◌, []};
ghost use Rattle.tm_config.specs.Accepted.{IsAccepted};
ghost use Rattle.tm_config.specs.Configuration.{is_signed};
ghost use Rattle.tm_inner.specs.Phase.{held_bits};
ghost use Rattle.tm_inner.specs.Symbols.{is_inverted, low_level};
ghost use Rattle.tm_inner.specs.Sending.{IsEncoderOf, KeepsFor};

use tm_config::{Config, SoftForm};
use tm_conv::{Encoder, Rate};
use tm_viterbi::WindowShape;

/// The rate of the inner code of a configuration, or None where there is none.
pub fn rate_of(config: &Config) -> Option<Rate>
    ensures { result ≡ config.now.inner }
{
    config.values().inner
}

/// Whether each second sum of the convolutional code is sent inverted: as it was chosen, and where nothing was at rate
/// 1/2 alone.
pub fn is_inverted(rate: Rate, chosen: Option<bool>) -> bool
    ensures { result ≡ is_inverted rate chosen }
{
    match chosen {
        Some(invert) => invert,
        None => rate == Rate::R12,
    }
}

/// The shape of the windows of a configuration at this rate.
pub fn shape_of(rate: Rate, config: &Config) -> WindowShape
    ensures rate { result.rate ≡ rate }
    ensures invert { result.invert ≡ is_inverted rate config.now.invert }
    ensures keep { result.keep ≡ config.now.keep }
    ensures ahead { result.ahead ≡ config.now.ahead }
    ensures accepted { IsAccepted config.now }
{
    WindowShape {
        rate,
        invert: is_inverted(rate, config.values().invert),
        keep: config.keep() as usize,
        ahead: config.ahead() as usize,
    }
}

/// How many bits come at most of the soft octets buffered for the symbol phase and of a window, whatever the rate.
pub fn held_bits(config: &Config) -> u64
    ensures value { result ≡ held_bits config.now }
    ensures most { result ≤ 2 ^ 18 }
    ensures accepted { IsAccepted config.now }
{
    3 * (config.keep() + config.ahead()) + 7
}

// A new encoder of the inner code, or None where there is no inner code.
pub fn encoder_of(config: &Config) -> Option<Encoder>
    ensures of { IsEncoderOf config.now result }
    ensures stands { KeepsFor result [] }
{
    match rate_of(config) {
        Some(rate) => Some(Encoder::new(rate, is_inverted(rate, config.values().invert))),
        None => None,
    }
}

// The octet of a symbol 0: 00, or 80 (hex) in the signed form. Its complement is that of a 1.
pub fn low_level(config: &Config) -> u8
    ensures { result ≡ low_level config.now.soft }
{
    match config.values().soft {
        SoftForm::Unsigned => 0x00,
        SoftForm::Signed => 0x80,
    }
}

// Whether soft octets are signed.
pub fn is_signed(config: &Config) -> bool
    ensures { result ≡ is_signed config.now.soft }
{
    match config.values().soft {
        SoftForm::Unsigned => false,
        SoftForm::Signed => true,
    }
}

// Whether eight bits make an octet where there is no inner code.
pub fn is_packed(config: &Config) -> bool
    ensures { result ≡ config.now.pack }
{
    config.values().pack
}
