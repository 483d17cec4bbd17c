// The calls of a row.
use crate::row::{Faults, Row};
use anyhow::{Result, bail};
use std::alloc::{AllocError, Global};
use std::str;
use std::thread::Threads;
use tm_base::{MemSink, MemSource};
use tm_cli::run;

// What came of a call.
#[derive(Drop)]
struct Outcome {
    status: u8,
    reads: u64,
    out: MemSink,
    notes: MemSink,
}

impl Outcome {
    // Whether it is what the row says.
    fn is_wanted(&self, row: &Row) -> bool {
        row.status == Some(self.status)
            && is_count(row.reads, self.reads)
            && is_count(row.out_writes, self.out.calls())
            && is_count(row.notes_writes, self.notes.calls())
            && self.out.octets() == row.out.as_slice()
            && self.notes.octets() == row.notes.as_slice()
    }

    fn shown(&self, alloc: Global) -> Result<String> {
        let status = self.status;
        let reads = self.reads;
        let to_out = self.out.calls();
        let to_notes = self.notes.calls();
        let out = hex::encode(alloc, self.out.octets())?;
        let notes = str::from_utf8(self.notes.octets()).unwrap_or("no text");
        Ok(format!(in alloc;
            "status {status}, reads {reads}, writes {to_out} {to_notes}, out {out}, notes {notes:?}"
        )?)
    }
}

// Whether it is the count that a row says, if it says one.
fn is_count(said: Option<u64>, count: u64) -> bool {
    said.is_none_or(|said| said == count)
}

/// What comes of a row's call over octets that are given `cut` at a time, where it differs from what the row says.
pub fn difference(
    rt: &(impl Threads + Sync),
    alloc: Global,
    row: &Row,
    cut: usize,
) -> Result<Option<String>> {
    let Some(line) = &row.line else {
        return Ok(Some("it has no line".to_string(alloc)?));
    };
    let mut input = row.input.clone()?;
    if let Some(line) = &row.through {
        let first = call(rt, alloc, line.as_str(), input, cut, &Faults::default())?;
        if first.status != 0 || !first.notes.octets().is_empty() {
            return Ok(Some(first.shown(alloc)?));
        }
        input = first.out.octets().to_vec(alloc)?;
    }
    let outcome = call(rt, alloc, line.as_str(), input, cut, &row.faults)?;
    if outcome.is_wanted(row) {
        return Ok(None);
    }
    Ok(Some(outcome.shown(alloc)?))
}

fn call(
    rt: &(impl Threads + Sync),
    alloc: Global,
    line: &str,
    input: Vec<u8>,
    cut: usize,
    faults: &Faults,
) -> Result<Outcome> {
    let mut words: Vec<String> = Vec::new(alloc);
    for word in line.split_whitespace() {
        words.push(word.to_string(alloc)?)?;
    }
    let cuts = vec![in alloc; cut; input.len()]?;
    let mut source = MemSource::new(input, cuts, list_of(alloc, faults.read)?);
    let mut out = sink(alloc, faults.out_room.unwrap_or(50_000), faults.write)?;
    let mut notes = sink(alloc, faults.notes_room.unwrap_or(1_000), None)?;
    let status = run(rt, alloc, &words, &mut source, &mut out, &mut notes);
    Ok(Outcome {
        status,
        reads: source.calls(),
        out,
        notes,
    })
}

fn sink(alloc: Global, room: usize, failing_write: Option<usize>) -> Result<MemSink> {
    let fails = list_of(alloc, failing_write)?;
    match MemSink::new(alloc, room, fails) {
        Ok(sink) => Ok(sink),
        Err(_) => bail!("out of memory"),
    }
}

// The number, if there is one, as a list.
fn list_of(alloc: Global, number: Option<usize>) -> Result<Vec<usize>, AllocError> {
    let mut list = Vec::new(alloc);
    if let Some(number) = number {
        list.push(number)?;
    }
    Ok(list)
}
