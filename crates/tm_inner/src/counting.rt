// How many bits octets hold, and how often octets were dropped.
ghost use Rattle.std.specs.Prelude.{◌≡◌, ◌-◌, ◌^◌, if◌then◌else◌, min};
ghost use Rattle.tm_inner.specs.Inner.{plain_count};

use crate::code::is_packed;
use tm_config::Config;

// How many bits `octets` octets hold where there is no inner code, up to 2^64-1.
pub fn plain_count(config: &Config, octets: u64) -> u64
    ensures { result ≡ min (plain_count config.now octets) (2 ^ 64 - 1) }
{
    if is_packed(config) {
        octets.saturating_mul(8)
    } else {
        octets
    }
}

// Before how many windows octets were dropped, or None where the symbol phase is not followed.
pub fn reported(config: &Config, slips: u64) -> Option<u64>
    ensures { result ≡ (if config.now.follow then Some slips else None) }
{
    if config.values().follow {
        Some(slips)
    } else {
        None
    }
}
