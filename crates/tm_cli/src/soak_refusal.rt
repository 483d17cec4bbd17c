// Why the values of `soak` are refused.
ghost use Rattle.std.specs.Prelude.{◌≡◌, ◌≤◌, length};
ghost use Rattle.tm_cli.specs.Soak.{soak_refusal, soak_reason};

use tm_channel::Config;

// The most frames that are generated.
const MOST_FRAMES: u64 = 1_000_000;

/// Why the values of `soak` are refused.
#[derive(Clone, Copy, Debug, PartialEq, Eq)]
pub enum SoakRefusal {
    /// The seed is above 2^63 - 1.
    Seed,
    /// There are more than 1,000,000 frames.
    Frames,
    /// More symbols of a codeword are to be changed than it has check symbols.
    Hits,
}

impl SoakRefusal {
    /// The reason, as the line gives it.
    pub fn reason(self) -> &'static [u8]
        ensures text { result.now ≡ soak_reason self }
        ensures length { length result.now ≤ 6 }
    {
        match self {
            SoakRefusal::Seed => b"seed",
            SoakRefusal::Frames => b"frames",
            SoakRefusal::Hits => b"hits",
        }
    }
}

/// Tests the values of `soak`, and returns the first reason to refuse them.
pub fn test_soak(config: &Config, seed: u64, frames: u64, hits: u64) -> Option<SoakRefusal>
    ensures { result ≡ soak_refusal config.now seed frames hits }
{
    if seed >= 1 << 63 {
        return Some(SoakRefusal::Seed);
    }
    if frames > MOST_FRAMES {
        return Some(SoakRefusal::Frames);
    }
    if hits > 2 * config.code() {
        return Some(SoakRefusal::Hits);
    }
    None
}
