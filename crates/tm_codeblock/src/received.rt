// The codeblock that received octets are.
ghost use Rattle.std.specs.Prelude.{◌≡◌, length};
ghost use Rattle.tm_base.specs.Bits.{bits_of, octets_of};
ghost use Rattle.tm_config.specs.Configuration.{is_sought};
ghost use Rattle.tm_sync.specs.Bits.{complement};
ghost use Rattle.tm_codeblock.specs.ReceivedCodeblock.{codeblock_in, columns_of};

use crate::cadus::is_randomized;
use crate::randomizer::mask;
use tm_config::{Config, Sought};
use tm_sync::Columns;

/// Makes the codeblock of the octets that were received: complemented where it was received inverted, and with the
/// randomizer taken off where it is on (CCSDS 131.0-B, Pseudo-Randomizer).
pub fn read_codeblock(config: &Config, inverted: bool, codeblock: &mut [u8])
    ensures { codeblock.new ≡ codeblock_in config.now inverted (bits_of codeblock.old) }
{
    if inverted {
        complement_octets(codeblock);
    }
    if is_randomized(config) {
        mask(codeblock);
    }
}

/// Whether markers are found in either polarity.
pub fn finds_polarity(config: &Config) -> bool
    ensures { result ≡ is_sought config.now.polarity }
{
    match config.values().polarity {
        Sought::Given => false,
        Sought::Find => true,
    }
}

/// What a search that looks inside codeblocks knows of their columns; None where it does not look there.
pub fn columns_of(config: &Config) -> Option<Columns>
    ensures { result ≡ columns_of config.now }
{
    if config.values().rescan {
        Some(Columns {
            stride: 8 * config.depth() as u32,
            strength: config.code() as u32,
        })
    } else {
        None
    }
}

// Complements each bit of octets.
fn complement_octets(octets: &mut [u8])
    ensures { octets.new ≡ octets_of (complement (bits_of octets.old)) }
{
    for k in 0..octets.len() {
        octets[k] = 255 - octets[k];
    }
}
