// Room that is said before.
ghost use Rattle.std.specs.Prelude.{◌≡◌, ◌^◌, ◌≤◌, IfSome};
ghost use Rattle.tm_config.specs.Accepted.{IsAccepted};
ghost use Rattle.tm_buffers.specs.Buffer.{has_room};
ghost use Rattle.tm_buffers.specs.Windows.{windows_room};

use tm_config::Config;
use tm_inner::held_bits;

/// The most octets that are taken at a time.
pub const MOST: usize = 1 << 40;

/// Whether there is as much room as is needed.
pub fn has_room(needed: Option<usize>, room: usize) -> bool
    ensures { result ≡ has_room needed room }
{
    match needed {
        Some(needed) => needed <= room,
        None => false,
    }
}

/// For how many windows an array has to have room where `count` more octets are given, or fewer, and at the end,
/// whatever was given before. None where `count` is above 2^40.
pub fn windows_room(config: &Config, count: usize) -> Option<usize>
    ensures value { result ≡ windows_room config.now count }
    ensures most { IfSome result (λ windows. windows ≤ 2 ^ 40) }
    ensures accepted { IsAccepted config.now }
{
    let keep = config.keep() as usize;
    if count > MOST {
        return None;
    }
    if config.values().inner.is_none() {
        return Some(0);
    }
    let bits = held_bits(config) as usize + count;
    Some(bits / keep + 1)
}
