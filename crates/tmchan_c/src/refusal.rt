// Why calls are refused, and the answers that say so.
ghost use Rattle.std.specs.Prelude.{◌≡◌, ◌==◌, ◌*◌, ◌+◌, ◌^◌, ◌<◌, ◌<ℤ◌, ◌≤◌, IfSome, None, pos};
ghost use Rattle.tm_rs_code.specs.Code.{IsLength, IsStrength};
ghost use Rattle.tmchan_c.specs.Refusal.{number_answer, refused, unless, word_refusal};

use tm_config::ConfigError;

/// Why a call is refused.
#[derive(Clone, Copy, Debug, PartialEq, Eq)]
pub enum Refusal {
    /// An array is not as long as the others ask for.
    Room,
    /// There are not as many flags as symbols.
    Flags,
    /// The column is not below the interleaving depth.
    Column,
    /// The handle is not open.
    Closed,
    /// The handle is open.
    Open,
    /// There is not enough memory.
    Memory,
    /// A number behind the options that there are is not 0.
    Config,
    /// The value of an option is outside its list or range.
    Value(ConfigError),
}

impl Refusal {
    /// The answer of a call that is refused.
    pub fn answer(self) -> i32
        ensures value { result ≡ refused self }
        ensures negative { result <ℤ pos 0 }
    {
        match self {
            Refusal::Room => -2,
            Refusal::Flags => -3,
            Refusal::Column => -4,
            Refusal::Closed => -5,
            Refusal::Open => -6,
            Refusal::Memory => -7,
            Refusal::Config => -8,
            Refusal::Value(error) => -16 - i32::from(error.place()),
        }
    }

    /// The answer of a call that is refused, in 64 bits.
    pub fn long_answer(self) -> i64
        ensures { result ≡ refused self }
    {
        i64::from(self.answer())
    }
}

/// The answer that is a number, or that there is not the room.
pub fn number_answer(number: Option<usize>) -> i64
    requires { IfSome number (λ number. number < 2 ^ 63) }
    ensures { result ≡ number_answer None number }
{
    match number {
        Some(number) => number as i64,
        None => Refusal::Room.long_answer(),
    }
}

/// The first reason to refuse a word of n symbols, or else `after`.
pub fn word_refusal(
    code: u32,
    n: u64,
    basis: u32,
    repair: u32,
    after: Option<Refusal>,
) -> Option<Refusal>
    ensures value { result ≡ word_refusal code n basis repair after }
    ensures after { result ≡ None → after ≡ None }
    ensures code { result ≡ None → IsStrength code × IsLength code n }
    ensures repair { result ≡ None → repair ≤ code }
{
    if code != 16 && code != 8 {
        return Some(Refusal::Value(ConfigError::Code));
    }
    if n < 2 * u64::from(code) + 1 || n > 255 {
        return Some(Refusal::Value(ConfigError::Length));
    }
    if basis != 0 && basis != 1 {
        return Some(Refusal::Value(ConfigError::Basis));
    }
    if repair > code {
        return Some(Refusal::Value(ConfigError::Repair));
    }
    after
}

/// A reason to refuse a length that is not the other, or none.
pub fn unequal(length: u64, other: u64, reason: Refusal) -> Option<Refusal>
    ensures value { result ≡ unless (length == other) reason None }
    ensures fits { result ≡ None → length ≡ other }
{
    if length == other { None } else { Some(reason) }
}
