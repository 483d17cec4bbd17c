// Frames in, symbols out into a buffer.
ghost use Rattle.std.specs.Prelude.{◌≡◌, ℕ, ◌^◌, ◌≤◌, List, ◌++◌, length, None, true, false, IfSome};
ghost use Rattle.tm_conv.specs.Octets.{most_octet_symbols};
ghost use Rattle.tm_base.specs.Pieces.{further};
ghost use Rattle.tm_config.specs.Accepted.{IsAccepted};
ghost use Rattle.tm_inner.specs.Sending.{most_symbols};
ghost use Rattle.tm_channel.specs.Sending.{SenderStandsFor};
ghost use Rattle.tm_channel.specs.Sent.{sent};
ghost use Rattle.tm_buffers.specs.Buffer.{Fills, has_room};
ghost use Rattle.tm_buffers.specs.Sending.{symbols_room};

use crate::room::{MOST, has_room};
use tm_channel::Sender;
use tm_codeblock::codeblock_size;
use tm_config::Config;

/// Takes the next octets of the frames, and writes the symbols of each frame that is whole now to the start of
/// `symbols`. Returns how many these are; or None where `symbols` has not the room, and takes nothing then. What
/// follows the symbols is left open.
pub fn push_symbols(sender: &mut Sender, octets: &[u8], symbols: &mut [u8]) -> Option<usize>
    ensures config { sender.new.config ≡ sender.old.config }
    ensures within { IfSome result (λ count. count ≤ length symbols.old) }
    ensures refused { has_room (symbols_room sender.old.config (length octets.now)) (length symbols.old) ≡ false
        → (result ≡ None) × (sender.new ≡ sender.old) × (symbols.new ≡ symbols.old) }
    ensures pushed { (given : List ℕ) → SenderStandsFor sender.old given
        → has_room (symbols_room sender.old.config (length octets.now)) (length symbols.old) ≡ true
        → SenderStandsFor sender.new (given ++ octets.now)
        × Fills result symbols.new (further (sent sender.old.config) given octets.now) }
{
    if !has_room(symbols_room(sender.config(), octets.len()), symbols.len()) {
        return None;
    }
    let mut done = 0;
    let mut count = 0;
    while done < octets.len() {
        let (taken, made) = sender.symbols(&octets[done..], &mut symbols[count..]);
        done += taken;
        count += made;
    }
    Some(count)
}

/// For how many symbols a buffer has to have room where `count` more octets are given: one more than come of them at
/// most. None where `count` is above 2^40: more octets are not taken at a time.
pub fn symbols_room(config: &Config, count: usize) -> Option<usize>
    ensures value { result ≡ symbols_room config.now count }
    ensures most { IfSome result (λ room. room ≤ 2 ^ 56) }
    ensures accepted { IsAccepted config.now }
{
    let length = config.length() as usize;
    if count > MOST {
        return None;
    }
    let octets = (count / length + 1) * (codeblock_size(config) + 4);
    Some(octets * most_symbols(config) + 1)
}

// How many symbols an octet comes to at most.
fn most_symbols(config: &Config) -> usize
    ensures value { result ≡ most_symbols config.now }
    ensures most { result ≤ most_octet_symbols }
{
    if config.values().inner.is_some() {
        16
    } else if config.values().pack {
        1
    } else {
        8
    }
}
