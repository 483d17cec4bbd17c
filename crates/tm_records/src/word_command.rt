// The command `word`: one word, from hexadecimal to the nearest codeword in hexadecimal.
ghost use Rattle.std.specs.Prelude.{◌≡◌, ◌≢◌, ◌⊎◌, ◌*◌, ◌<◌, ◌≤◌, ℕ, List, [], length, map, Option, None, true, OnOk, OnErr};
ghost use Rattle.std.specs.List.{list_all};
ghost use Rattle.hex.specs.Hex.{is_hex_digit};
ghost use Rattle.tm_base.specs.Outside.{HasCause};
ghost use Rattle.tm_base.specs.Written.{Wrote, WrotePrefix};
ghost use Rattle.tm_config.specs.Configuration.{correctable};
ghost use Rattle.tm_driver.specs.Courses.{SinkCourse, sink_call};
ghost use Rattle.tm_driver.specs.Meaning.{Ends, taken_by};
ghost use Rattle.tm_driver.specs.Statuses.{is_sink_fault};
ghost use Rattle.tm_gf256.specs.Octet.{sent_octet, element_of};
ghost use Rattle.tm_rs_code.specs.Nearest.{IsNearest};
ghost use Rattle.tm_rs.specs.Answers.{found};
ghost use Rattle.tm_records.specs.Word.{octets_of_hex, word_meaning, word_refusal, word_reason, word_text};

use crate::coding::LONGEST_WORD;
use crate::hexadecimal::add_octets;
use hex::decode_to_slice;
use tm_base::{Failed, Sink};
use tm_config::{Config, OuterCode};
use tm_driver::{Ending, Line};
use tm_gf256::Gf;
use tm_rs::{Answer, decode_uncounted};
use tm_rs_code::Params;

/// Why the text of a word is refused.
#[derive(Clone, Copy, Debug, PartialEq, Eq)]
pub enum WordRefusal {
    /// There is no outer code.
    Code,
    /// No codeword has as many symbols as the word, or a byte is left over after the last whole octet.
    Word,
    /// A byte is no hexadecimal digit.
    Hex,
}

impl WordRefusal {
    /// The reason, as the line gives it.
    pub fn reason(self) -> &'static [u8]
        ensures text { result.now ≡ word_reason self }
        ensures length { length result.now ≤ 4 }
    {
        match self {
            WordRefusal::Code => b"code",
            WordRefusal::Word => b"word",
            WordRefusal::Hex => b"hex",
        }
    }
}

// Reads the octets of a text of two digits each, and returns whether all are hexadecimal.
fn read_octets(text: &[u8], octets: &mut [u8]) -> bool
    requires { length text.now ≡ 2 * length octets.old }
    ensures digits { result ≡ list_all is_hex_digit text.now }
    ensures octets { list_all is_hex_digit text.now ≡ true → octets.new ≡ octets_of_hex text.now }
    ensures size { length octets.new ≡ length octets.old }
{
    match decode_to_slice(text, octets) {
        Ok(()) => true,
        Err(_) => false,
    }
}

/// Tests the text of a word, and returns the first reason to refuse it.
pub fn test_word(config: &Config, text: &[u8]) -> Option<WordRefusal>
    ensures { result ≡ word_refusal config.now text.now }
{
    if config.values().code.is_uncoded() {
        return Some(WordRefusal::Code);
    }
    let count = text.len() / 2;
    if text.len() % 2 != 0 || count <= 2 * config.code() as usize || count > LONGEST_WORD {
        return Some(WordRefusal::Word);
    }
    let mut octets = [0; LONGEST_WORD];
    if !read_octets(text, &mut octets[..count]) {
        return Some(WordRefusal::Hex);
    }
    None
}

// Makes the octets of a word those of the nearest codeword, where one is within the repair bound.
fn repair(config: &Config, octets: &mut [u8]) -> Answer
    requires code { config.now.code ≢ OuterCode.Uncoded }
    requires some { 2 * correctable config.now.code < length octets.old }
    requires fits { length octets.old ≤ LONGEST_WORD }
    ensures nearest { (codeword : List ℕ)
        × IsNearest (correctable config.now.code) config.now.repair (map (element_of config.now.basis) octets.old)
        (found result codeword)
        × (octets.new ≡ map (sent_octet config.now.basis) codeword) }
    ensures size { length octets.new ≡ length octets.old }
{
    let params = Params::new(config.code(), octets.len() as u64).unwrap();
    let basis = config.values().basis;
    let mut room = [Gf(0); LONGEST_WORD];
    let word = &mut room[..octets.len()];
    basis.octets_to_elements(octets, word);
    let answer = decode_uncounted(&params, config.repair() as u8, word);
    basis.elements_to_octets(word, octets);
    answer
}

// Writes what became of a word, and the octets of the codeword.
fn word_line<O: Sink>(out: &mut O, answer: Answer, octets: &[u8]) -> Result<(), Failed>
    requires { length octets.now ≤ LONGEST_WORD }
    ensures ok { OnOk result (Wrote (O.taken out.old) (O.taken out.new) (word_text answer octets.now)) }
    ensures err { OnErr result (WrotePrefix (O.taken out.old) (O.taken out.new) (word_text answer octets.now)) }
    ensures cause { HasCause (O.faults out.old) (O.faults out.new) (O.is_last out.new) result }
{
    let mut line = Line::new();
    match answer {
        Answer::Fixed(distance) => {
            line.text(b"fixed ");
            line.number(distance as u64);
            line.text(b" ");
            add_octets(&mut line, octets);
        }
        Answer::Beyond => line.text(b"beyond"),
    }
    line.text(b"\n");
    line.put(out)
}

/// Writes the codeword that is nearest to a word within the repair bound, after its distance from the word:
/// `fixed D HEX`. Where there is none it writes `beyond`, and returns `Bad`. The text has two hexadecimal digits for
/// each octet of the word, as it is received. `SinkFault` comes only where the sink's count of faults rose. It takes no
/// memory.
pub fn word<O: Sink>(config: &Config, text: &[u8], out: &mut O) -> Ending
    requires { word_refusal config.now text.now ≡ None }
    ensures ends { (noted : Option (List ℕ)) → Ends result (word_meaning text.now config.now) config.now.limit []
        (taken_by (O.taken out.old) (O.taken out.new) noted noted) }
    ensures answers { (result ≡ Ending.Done) ⊎ (result ≡ Ending.Bad) ⊎ (result ≡ Ending.SinkFault) }
    ensures sink { SinkCourse (is_sink_fault result) (sink_call O.Sink out.old out.new) }
{
    let mut room = [0; LONGEST_WORD];
    let octets = &mut room[..text.len() / 2];
    read_octets(text, octets);
    let answer = repair(config, octets);
    match word_line(out, answer, octets) {
        Ok(()) => match answer {
            Answer::Fixed(_) => Ending::Done,
            Answer::Beyond => Ending::Bad,
        },
        Err(Failed) => Ending::SinkFault,
    }
}
