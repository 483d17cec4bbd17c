// The command `erased`: words with erased symbols, and the nearest codeword of each.
ghost use Rattle.std.specs.Prelude.{◌≡◌, ◌≢◌, ℕ, ◌*◌, ◌≤◌, ◌||◌, List, [], length, true, OnErr, IfOk};
ghost use Rattle.std.specs.List.{list_any};
ghost use Rattle.tm_base.specs.Takers.{HandedOver};
ghost use Rattle.tm_driver.specs.Answered.{Answered};
ghost use Rattle.tm_driver.specs.Courses.{sink_call, source_call};
ghost use Rattle.tm_driver.specs.Staged.{Takes};
ghost use Rattle.tm_rs.specs.Answers.{found_erased};
ghost use Rattle.tm_records.specs.Batch.{opened};
ghost use Rattle.tm_records.specs.Erased.{coding_of, erased_meaning, erased_text, is_beyond};
ghost use Rattle.tm_records.specs.Erasing.{Erases, HasSpace, outcome_with, record_texts};
ghost use Rattle.tm_records.specs.Records.{AreNearest, record_size, most_records};

use crate::coding::{Coding, LONGEST_WORD};
use crate::hexadecimal::add_octets;
use crate::records::Records;
use std::alloc::Global;
use std::thread::Threads;
use tm_base::{NoMemory, Sink, Source};
use tm_config::{Config, OuterCode};
use tm_driver::{Ending, Line, Outcome, Stage, TextTaker, drive_stage, note_rest};
use tm_rs::ErasedAnswer;
use tm_rs_code::Params;
use tm_workers::OpenGate;

// What became of a record, and the octets of its codeword.
fn erased_text(answer: ErasedAnswer, octets: &[u8]) -> Line
    requires { length octets.now ≤ LONGEST_WORD }
    ensures { result ≡ erased_text answer octets.now }
{
    let mut line = Line::new();
    match answer {
        ErasedAnswer::Fixed(wrong, differing) => {
            line.text(b"fixed ");
            line.number(wrong as u64);
            line.text(b" ");
            line.number(differing as u64);
            line.text(b" ");
            add_octets(&mut line, octets);
        }
        ErasedAnswer::Beyond => line.text(b"beyond"),
    }
    line.text(b"\n");
    line
}

// Whether no codeword is near.
fn is_beyond(answer: ErasedAnswer) -> bool
    ensures { (codeword : List ℕ) → result ≡ is_beyond (found_erased answer codeword) }
{
    match answer {
        ErasedAnswer::Fixed(_, _) => false,
        ErasedAnswer::Beyond => true,
    }
}

// Gives a line for each record that was decoded, and returns whether a word is uncorrectable.
fn give_lines<W: TextTaker>(records: &Records, texts: &mut W) -> bool
    ensures short { records.now.coding.params.n ≤ LONGEST_WORD }
    ensures given { HandedOver W.took texts.old (record_texts records.now.coding.basis records.now.nearest) texts.new }
    ensures beyond { result ≡ list_any is_beyond records.now.nearest }
{
    let mut room = [0; LONGEST_WORD];
    let octets = &mut room[..records.word_length()];
    let mut beyond = false;
    for index in 0..records.count() {
        let found = records.answer(index, octets);
        texts.out(erased_text(found, octets).octets());
        beyond = beyond | is_beyond(found);
    }
    beyond
}

// What comes of an input that else comes to this, where a word may be uncorrectable.
fn outcome_with(outcome: Outcome, beyond: bool) -> Outcome
    ensures { result ≡ outcome_with outcome beyond }
{
    match outcome {
        Outcome::Done if beyond => Outcome::Bad,
        _ => outcome,
    }
}

// A batch of records, its threads, and whether a word so far is uncorrectable.
#[derive(Drop)]
struct Erasing<'a, R> {
    rt: &'a R,
    records: Records,
    beyond: bool,
}

impl<'a, R: Threads + Sync> Erasing<'a, R> {
    // Decodes the whole records of the batch, and gives their lines.
    fn answer_batch<W: TextTaker>(&mut self, texts: &mut W)
        ensures short { self.old.records.coding.params.n ≤ LONGEST_WORD }
        ensures coding { self.new.records.coding ≡ self.old.records.coding }
        ensures octets { self.new.records.octets ≡ self.old.records.octets }
        ensures nearest { AreNearest self.old.records.coding self.old.records.octets self.new.records.nearest }
        ensures given { HandedOver W.took texts.old
            (record_texts self.old.records.coding.basis self.new.records.nearest) texts.new }
        ensures beyond { self.new.beyond ≡ (self.old.beyond || list_any is_beyond self.new.records.nearest) }
    {
        self.records.decode(self.rt, &OpenGate);
        let beyond = give_lines(&self.records, texts);
        self.beyond = self.beyond | beyond;
    }

    // Gives the lines of a batch that is full, and empties it.
    fn end_full<W: TextTaker>(&mut self, texts: &mut W)
        requires { length self.old.records.octets ≤ most_records * record_size self.old.records.coding }
        ensures space { HasSpace self.new.records }
        ensures given { Takes W.took Erases Erases self.old self.new texts.old texts.new [] }
    {
        if self.records.is_full() {
            self.answer_batch(texts);
            self.records.clear();
        }
    }
}

impl<'a, R: Threads + Sync> Stage for Erasing<'a, R> {
    ghost use Rattle.std.specs.Thread.{IsSync};
    ghost use Rattle.tm_records.specs.Erasing.{Erases, ErasesAll, HasSpace};

    ghost stands = { λ s t octets texts. HasSpace t.records × Erases s t octets texts };

    ghost finished = { λ s t octets texts outcome. ErasesAll s.records.coding octets texts outcome };

    ghost is_ready = { λ t. IsSync R.row × HasSpace t.records };

    fn feed<W: TextTaker>(&mut self, piece: &[u8], texts: &mut W) -> bool {
        let mut at = 0;
        while at < piece.len() {
            at += self.records.take(&piece[at..]);
            self.end_full(texts);
        }
        true
    }

    fn finish<W: TextTaker>(&mut self, texts: &mut W) -> Outcome {
        self.answer_batch(texts);
        let outcome = note_rest(texts, self.records.left_over() as u32);
        outcome_with(outcome, self.beyond)
    }
}

// Room for a batch of records that are decoded as the configuration says, and by its workers.
fn records_by(alloc: Global, config: &Config) -> Result<Records, NoMemory>
    requires { config.now.code ≢ OuterCode.Uncoded }
    ensures { IfOk result (λ records. records ≡ opened (coding_of config.now) config.now.workers) }
{
    let coding = Coding {
        params: Params::new(config.code(), config.word_length()).unwrap(),
        basis: config.values().basis,
        repair: config.repair() as u8,
    };
    Records::open(alloc, coding, config.workers() as u8)
}

/// Repairs the word of each record of the source, up to the limit in octets, and writes a line for it: `fixed A B HEX`,
/// or `beyond`. A record is the octets of a word and a flag for each, 0 where its symbol is good and any other where it
/// is erased. Records are decoded 256 at a time, by the workers of the configuration. At the end of the input it writes
/// to the notes how many octets follow the last whole record. `Bad` comes where none do and a word is uncorrectable.
/// After a fault nothing more is read or written. It takes all its memory before it reads, and there alone returns
/// `NoMemory`.
pub fn erased<R: Threads + Sync, S: Source, O: Sink, N: Sink>(
    rt: &R,
    alloc: Global,
    config: &Config,
    source: &mut S,
    out: &mut O,
    notes: &mut N,
) -> Result<Ending, NoMemory>
    requires { config.now.code ≢ OuterCode.Uncoded }
    ensures answered { IfOk result (λ ending. Answered true ending (erased_meaning config.now) config.now.limit
        (source_call S.Source source.old source.new) (sink_call O.Sink out.old out.new)
        (sink_call N.Sink notes.old notes.new)) }
    ensures memory { OnErr result ((source.new ≡ source.old) × (out.new ≡ out.old) × (notes.new ≡ notes.old)) }
{
    let Ok(records) = records_by(alloc, config) else {
        return Err(NoMemory);
    };
    let mut erasing = Erasing {
        rt,
        records,
        beyond: false,
    };
    Ok(drive_stage(config.limit(), source, &mut erasing, out, notes))
}
