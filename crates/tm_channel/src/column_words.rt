// The columns of codeblocks, as words to be decoded in place, and the frame that those of one come to.
ghost use Rattle.std.specs.Prelude.{◌≡◌, ◌≢◌, ◌<◌, ◌≤◌, ◌*◌, ◌⊎◌, ℕ, false, length, map, take, unwrap_or};
ghost use Rattle.tm_config.specs.Configuration.{codeblock_length, word_length};
ghost use Rattle.tm_gf256.specs.Octet.{element_of, sent_octet};
ghost use Rattle.tm_gf256.specs.Poly.{numbers};
ghost use Rattle.tm_rs_code.specs.Code.{longest_word};
ghost use Rattle.tm_codeblock.specs.Column.{column};
ghost use Rattle.tm_codeblock.specs.ReceivedCodeblock.{frame_of, received_columns};
ghost use Rattle.tm_channel.specs.ColumnDecoding.{AreColumns, AreColumnsDecoded};
ghost use Rattle.tm_channel.specs.ColumnWords.{all_symbols};
ghost use Rattle.tm_channel.specs.Storing.{IsDecoded};

use std::alloc::Global;
use std::thread::Threads;
use tm_codeblock::{basis_of, params_of, put_word, take_word};
use tm_config::{Config, OuterCode};
use tm_gf256::Basis;
use tm_rs::Answer;
use tm_workers::{Gate, Word, decode_batch, decode_in_order};

/// Reads the columns of a codeblock, each into a word.
pub fn read_columns(config: &Config, codeblock: &[u8], words: &mut [Word])
    requires coded { config.now.code ≢ OuterCode.Uncoded }
    requires codeblock { length codeblock.now ≡ codeblock_length config.now }
    requires words { length words.old ≡ config.now.depth }
    ensures columns { all_symbols config.now words.new ≡ received_columns config.now codeblock.now }
    ensures length { length words.new ≡ length words.old }
{
    let basis = basis_of(config);
    let depth = config.depth() as usize;
    let size = config.word_length() as usize;
    for i in 0..depth {
        read_column(basis, depth, i, size, codeblock, &mut words[i]);
    }
}

// Reads column `i` of a codeblock into the first symbols of a word.
fn read_column(basis: Basis, depth: usize, i: usize, size: usize, codeblock: &[u8], word: &mut Word)
    requires column { i < depth }
    requires most { size ≤ longest_word }
    requires size { length codeblock.now ≡ depth * size }
    ensures { numbers (take size word.new.symbols) ≡ map (element_of basis) (column depth i codeblock.now) }
{
    let mut octets = [0; 255];
    let octets = &mut octets[..size];
    take_word(codeblock, depth, i, octets);
    basis.octets_to_elements(octets, &mut word.symbols[..size]);
}

/// Decodes the columns of codeblocks of this configuration, each in its place, by as many workers as it says, which
/// enter the gate before each.
pub fn decode_columns<R: Threads + Sync, G: Gate + Sync>(
    rt: &R,
    alloc: Global,
    config: &Config,
    words: &mut [Word],
    gate: &G,
)
    requires { AreColumns config.now (length words.old) }
    ensures { AreColumnsDecoded config.now words.old words.new }
{
    let params = params_of(config);
    let repair = config.repair() as u8;
    let workers = config.workers() as u8;
    decode_batch(rt, alloc, &params, repair, words, workers, gate);
}

/// Decodes them one after another. It starts no thread.
pub fn decode_columns_alone(config: &Config, words: &mut [Word])
    requires { AreColumns config.now (length words.old) }
    ensures { AreColumnsDecoded config.now words.old words.new }
{
    let params = params_of(config);
    decode_in_order(&params, config.repair() as u8, words);
}

/// Writes the frame of a codeblock whose columns were decoded in these words: its data, with the columns in which a
/// symbol was repaired.
pub fn write_frame(config: &Config, codeblock: &[u8], words: &[Word], frame: &mut [u8])
    requires coded { config.now.code ≢ OuterCode.Uncoded }
    requires codeblock { length codeblock.now ≡ codeblock_length config.now }
    requires words { length words.now ≡ config.now.depth }
    requires frame { length frame.old ≡ config.now.frame_length }
    requires decoded { IsDecoded config.now codeblock.now words.now }
    ensures { frame.new ≡ frame_of config.now codeblock.now (all_symbols config.now words.now) }
{
    let basis = basis_of(config);
    let depth = config.depth() as usize;
    let size = config.length() as usize / depth;
    frame.copy_from_slice(&codeblock[..frame.len()]);
    for i in 0..depth {
        if is_repaired(&words[i]) {
            write_column(basis, depth, i, size, &words[i], frame);
        }
    }
}

// Whether a symbol of a word was repaired. If none was, it is the column that was received.
fn is_repaired(word: &Word) -> bool
    ensures { result ≡ false → (unwrap_or word.now.answer Answer.Beyond ≡ Answer.Beyond)
        ⊎ (unwrap_or word.now.answer Answer.Beyond ≡ Answer.Fixed 0) }
{
    matches!(word.answer, Some(Answer::Fixed(count)) if count > 0)
}

// Writes the first symbols of a word into column `i` of a frame. Inlined, its loop takes a sixth more instructions.
#[inline(never)]
fn write_column(basis: Basis, depth: usize, i: usize, size: usize, word: &Word, frame: &mut [u8])
    requires column { i < depth }
    requires most { size ≤ longest_word }
    requires size { length frame.old ≡ depth * size }
    ensures column { column depth i frame.new ≡ map (sent_octet basis) (numbers (take size word.now.symbols)) }
    ensures others { (j : ℕ) → j < depth → j ≢ i → column depth j frame.new ≡ column depth j frame.old }
    ensures length { length frame.new ≡ length frame.old }
{
    let mut octets = [0; 255];
    let octets = &mut octets[..size];
    basis.elements_to_octets(&word.symbols[..size], octets);
    put_word(frame, depth, i, octets);
}
