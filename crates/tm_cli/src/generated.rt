// Units of frames of generated octets, whose codeblocks are changed.
ghost use Rattle.std.specs.Prelude.{◌≡◌, ◌+◌, ◌*◌, ◌<◌, ◌≤◌, length};
ghost use Rattle.tm_rs_code.specs.Code.{most_checks};
ghost use Rattle.tm_codeblock.specs.Cadu.{unit_size};
ghost use Rattle.tm_config.specs.Configuration.{codeblock_length};
ghost use Rattle.tm_cli.specs.Generated.{drawn, drawn_octets, changed_column, changed_columns, generated_unit, draw_count};

use rand_core::utils::NextWord;
use rand_pcg::Lcg64Xsh32;
use tm_base::MARKER;
use tm_channel::{Config, cadu};
use tm_config::LONGEST_CODEBLOCK;

// Writes the low eight bits of a draw to each octet.
fn draw_octets(draws: &mut Lcg64Xsh32, octets: &mut [u8])
    ensures octets { octets.new ≡ drawn_octets (length octets.old) draws.old }
    ensures draws { draws.new ≡ drawn (length octets.old) draws.old }
{
    for i in 0..octets.len() {
        octets[i] = (draws.next_word() % 256) as u8;
    }
}

// Changes `hits` symbols of a column of a codeblock, one after another from the one that is drawn first, each by a
// draw.
fn change_column(
    draws: &mut Lcg64Xsh32,
    config: &Config,
    column: usize,
    hits: u64,
    codeblock: &mut [u8],
)
    requires column { column < config.now.depth }
    requires hits { hits ≤ most_checks }
    requires size { length codeblock.old ≡ codeblock_length config.now }
    ensures changed { codeblock.new ≡ changed_column config.now column hits draws.old codeblock.old }
    ensures draws { draws.new ≡ drawn (hits + 1) draws.old }
    ensures size { length codeblock.new ≡ length codeblock.old }
{
    let depth = config.depth() as usize;
    let size = config.word_length();
    let first = draws.next_word() as u64;
    for k in 0..hits {
        let place = column + depth * ((first + k) % size) as usize;
        let change = 1 + draws.next_word() % 255;
        codeblock[place] ^= change as u8;
    }
}

// Changes `hits` symbols of each column of a codeblock.
fn change_columns(draws: &mut Lcg64Xsh32, config: &Config, hits: u64, codeblock: &mut [u8])
    requires hits { hits ≤ most_checks }
    requires size { length codeblock.old ≡ codeblock_length config.now }
    ensures changed { codeblock.new ≡ changed_columns config.now config.now.depth hits draws.old codeblock.old }
    ensures draws { draws.new ≡ drawn (config.now.depth * (hits + 1)) draws.old }
    ensures size { length codeblock.new ≡ length codeblock.old }
{
    for column in 0..config.depth() as usize {
        change_column(draws, config, column, hits, codeblock);
    }
}

/// Writes the unit of a frame of drawn octets, with `hits` symbols of each column of its codeblock changed by the draws
/// after it.
pub fn generate_unit(draws: &mut Lcg64Xsh32, config: &Config, hits: u64, unit: &mut [u8])
    requires hits { hits ≤ most_checks }
    requires unit { length unit.old ≡ unit_size config.now }
    ensures unit { unit.new ≡ generated_unit config.now hits draws.old }
    ensures draws { draws.new ≡ drawn (draw_count config.now hits) draws.old }
    ensures size { length unit.new ≡ length unit.old }
{
    let mut room = [0; LONGEST_CODEBLOCK];
    let frame = &mut room[..config.length() as usize];
    draw_octets(draws, frame);
    cadu(config, frame, unit);
    change_columns(draws, config, hits, &mut unit[MARKER.len()..]);
}
