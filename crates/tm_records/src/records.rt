// A batch of records that is filled from pieces and decoded at once.
ghost use Rattle.std.specs.Prelude.{◌≡◌, ◌<◌, ◌≤◌, ◌*◌, ◌-◌, ◌↔◌, ◌++◌, ℕ, List, [], length, map, min, take, IfOk, IsTrue, Some, slice_get};
ghost use Rattle.tm_base.specs.Limits.{most_workers};
ghost use Rattle.tm_gf256.specs.Octet.{sent_octet};
ghost use Rattle.tm_rs_code.specs.Code.{longest_word};
ghost use Rattle.tm_rs.specs.Answers.{found_erased};
ghost use Rattle.tm_records.specs.Batch.{Batch, opened};
ghost use Rattle.tm_records.specs.Records.{AreNearest, left_over, record_size, most_records};

use crate::coding::Coding;
use crate::record_decoding::decode_records;
use std::alloc::{AllocError, Global};
use std::marker::Model;
use std::thread::Threads;
use tm_base::NoMemory;
use tm_gf256::Gf;
use tm_rs::ErasedAnswer;
use tm_workers::{ErasedWord, Gate};

/// How many records a batch has.
pub const BATCH: usize = 256;

/// A batch of records of received words. A record has the octets of the n symbols of a word, in a basis, and after
/// them n flags, 0 for a symbol that is good and any other for one that is erased. A batch takes octets in pieces until
/// it has 256 records; then, or at the end of the octets, its records are decoded at once, and it is cleared for the
/// next ones. It takes its memory at `open`.
#[derive(Drop)]
pub struct Records {
    coding: Coding,
    workers: u8,
    alloc: Global,
    // The octets of a record.
    size: usize,
    // Room for the octets of the batch, and how many were taken.
    octets: Vec<u8>,
    taken: usize,
    // Room for the words of the batch, and how many were decoded.
    words: Vec<ErasedWord>,
    decoded: usize,
}

impl Model for Records {
    ghost use Rattle.std.specs.Prelude.{◌<◌, ◌≤◌, length, take};
    ghost use Rattle.tm_base.specs.Limits.{most_workers};
    ghost use Rattle.tm_records.specs.Batch.{Batch, HasRoom, all_nearest};
    ghost use Rattle.tm_records.specs.Records.{record_size};

    ghost Value = { Batch };

    ghost view = { λ r. record {
      coding = r.coding;
      workers = r.workers;
      octets = take r.taken r.octets.items;
      nearest = all_nearest r.coding (take r.decoded r.words.items);
    } };

    ghost invariant = { λ r. HasRoom r.coding r.size (length r.octets.items) (length r.words.items) r.taken r.decoded
        × (r.coding.repair ≤ r.coding.params.e) × (0 < r.workers) × (r.workers ≤ most_workers) };
}

// Room for a batch of records of `size` octets each.
fn room(alloc: Global, size: usize) -> Result<(Vec<u8>, Vec<ErasedWord>), AllocError>
    requires { size ≤ 2 * longest_word }
    ensures octets { IfOk result (λ r. length r.0.items ≡ most_records * size) }
    ensures words { IfOk result (λ r. length r.1.items ≡ most_records) }
{
    let word = ErasedWord {
        symbols: [Gf(0); 255],
        erased: [false; 255],
        answer: None,
    };
    let octets = vec![in alloc; 0; BATCH * size]?;
    let words = vec![in alloc; word; BATCH]?;
    Ok((octets, words))
}

impl Records {
    /// Room for a batch of records whose words are decoded as `coding` says, by `workers` workers, at least one and at
    /// most 64. It fails only where there isn't enough memory.
    pub fn open(alloc: Global, coding: Coding, workers: u8) -> Result<Records, NoMemory>
        requires bound { coding.repair ≤ coding.params.e }
        requires workers { (0 < workers) × (workers ≤ most_workers) }
        ensures { IfOk result (λ records. records ≡ opened coding workers) }
    {
        let size = 2 * coding.params.n() as usize;
        let Ok((octets, words)) = room(alloc, size) else {
            return Err(NoMemory);
        };
        Ok(Records {
            coding,
            workers,
            alloc,
            size,
            octets,
            taken: 0,
            words,
            decoded: 0,
        })
    }

    /// Takes octets from the start of `piece`, as many as the batch has room for, and returns how many.
    pub fn take(&mut self, piece: &[u8]) -> usize
        ensures count { result ≡ min (length piece.now)
            (most_records * record_size self.old.coding - length self.old.octets) }
        ensures octets { self.new.octets ≡ self.old.octets ++ take result piece.now }
        ensures coding { self.new.coding ≡ self.old.coding }
        ensures workers { self.new.workers ≡ self.old.workers }
    {
        let first = self.taken;
        let count = piece.len().min(self.octets.len() - first);
        self.octets[first..first + count].copy_from_slice(&piece[..count]);
        self.taken += count;
        self.decoded = 0;
        count
    }

    /// Whether the batch has 256 records.
    pub fn is_full(&self) -> bool
        ensures full { IsTrue result ↔ (length self.now.octets ≡ most_records * record_size self.now.coding) }
        ensures most { length self.now.octets ≤ most_records * record_size self.now.coding }
        ensures some { 0 < record_size self.now.coding }
    {
        self.taken == self.octets.len()
    }

    /// Decodes the records of the batch that are whole. Before a worker decodes the record of number i it calls
    /// `gate.enter(i)`.
    pub fn decode<R: Threads + Sync, G: Gate + Sync>(&mut self, rt: &R, gate: &G)
        ensures nearest { AreNearest self.old.coding self.old.octets self.new.nearest }
        ensures octets { self.new.octets ≡ self.old.octets }
        ensures coding { self.new.coding ≡ self.old.coding }
        ensures workers { self.new.workers ≡ self.old.workers }
    {
        let count = self.taken / self.size;
        decode_records(
            rt,
            gate,
            self.alloc,
            &self.coding,
            self.workers,
            &self.octets[..self.taken],
            count,
            self.words.as_mut_slice(),
        );
        self.decoded = count;
    }

    /// How many symbols a word has.
    pub fn word_length(&self) -> usize
        ensures value { result ≡ self.now.coding.params.n }
        ensures most { result ≤ longest_word }
    {
        self.size / 2
    }

    /// How many records were decoded.
    pub fn count(&self) -> usize
        ensures { result ≡ length self.now.nearest }
    {
        self.decoded
    }

    /// What became of a record that was decoded. Where a codeword is near it writes the codeword's octets, of which
    /// `octets` has as many.
    pub fn answer(&self, index: usize, octets: &mut [u8]) -> ErasedAnswer
        requires within { index < length self.now.nearest }
        requires size { length octets.old ≡ self.now.coding.params.n }
        ensures answer { (codeword : List ℕ) × (slice_get self.now.nearest index ≡ Some (found_erased result codeword))
            × (octets.new ≡ map (sent_octet self.now.coding.basis) codeword) }
        ensures size { length octets.new ≡ length octets.old }
    {
        let word = &self.words[index];
        let basis = self.coding.basis;
        basis.elements_to_octets(&word.symbols[..self.size / 2], octets);
        word.answer.unwrap_or(ErasedAnswer::Beyond)
    }

    /// How many octets of the batch follow its last whole record.
    pub fn left_over(&self) -> usize
        ensures { result ≡ left_over self.now.coding self.now.octets }
    {
        self.taken % self.size
    }

    /// Empties the batch.
    pub fn clear(&mut self)
        ensures octets { self.new.octets ≡ [] }
        ensures coding { self.new.coding ≡ self.old.coding }
        ensures workers { self.new.workers ≡ self.old.workers }
    {
        self.taken = 0;
        self.decoded = 0;
    }
}
