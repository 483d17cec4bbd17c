// A row: a call, and what comes of it.
use crate::octets::Values;
use anyhow::{Result, bail, ensure};
use std::alloc::Global;

/// The most octets that a read gives, where a row names no others: the call is made with each of them.
const CUTS: [usize; 3] = [1, 2, 4096];

/// Where the source and the sinks of a call fail.
#[derive(Clone, Copy, Default)]
pub struct Faults {
    /// The number of the read that fails, counted from 0.
    pub read: Option<usize>,
    /// The number of the write to out that fails, counted from 0.
    pub write: Option<usize>,
    /// How many octets out takes.
    pub out_room: Option<usize>,
    /// How many octets the notes take.
    pub notes_room: Option<usize>,
}

#[derive(Drop)]
pub struct Row {
    /// What the row shows.
    pub name: String,
    /// The words, parted by blanks. The first is the program's name.
    pub line: Option<String>,
    pub input: Vec<u8>,
    /// The words of a call that the octets go through first.
    pub through: Option<String>,
    cuts: Vec<usize>,
    pub faults: Faults,
    pub status: Option<u8>,
    pub out: Vec<u8>,
    pub notes: Vec<u8>,
    /// How often the source is read, where the row says it.
    pub reads: Option<u64>,
    /// How often out is written to, where the row says it.
    pub out_writes: Option<u64>,
    /// How often the notes are written to, where the row says it.
    pub notes_writes: Option<u64>,
}

impl Row {
    pub fn new(alloc: Global, name: String) -> Row {
        Row {
            name,
            line: None,
            input: Vec::new(alloc),
            through: None,
            cuts: Vec::new(alloc),
            faults: Faults::default(),
            status: None,
            out: Vec::new(alloc),
            notes: Vec::new(alloc),
            reads: None,
            out_writes: None,
            notes_writes: None,
        }
    }

    pub fn cuts(&self) -> &[usize] {
        if self.cuts.is_empty() {
            &CUTS
        } else {
            self.cuts.as_slice()
        }
    }

    /// Takes what a field says.
    pub fn take(&mut self, alloc: Global, values: &Values, field: &str, text: &str) -> Result<()> {
        match field {
            "line" => once(&mut self.line, text.to_string(alloc)?),
            "in" => values.append(alloc, text, &mut self.input),
            "through" => once(&mut self.through, text.to_string(alloc)?),
            "cut" => Ok(self.cuts.push(text.parse()?)?),
            "status" => once(&mut self.status, text.parse()?),
            "out" => values.append(alloc, text, &mut self.out),
            "notes" => values.append(alloc, text, &mut self.notes),
            "refused" => self.refuse(text),
            _ => self.take_number(field, text),
        }
    }

    // Takes a number, of faults or of calls.
    fn take_number(&mut self, field: &str, text: &str) -> Result<()> {
        match field {
            "failing read" => once(&mut self.faults.read, text.parse()?),
            "failing write" => once(&mut self.faults.write, text.parse()?),
            "room of out" => once(&mut self.faults.out_room, text.parse()?),
            "room of notes" => once(&mut self.faults.notes_room, text.parse()?),
            "reads" => once(&mut self.reads, text.parse()?),
            "writes to out" => once(&mut self.out_writes, text.parse()?),
            "writes to notes" => once(&mut self.notes_writes, text.parse()?),
            _ => bail!("no field has this name"),
        }
    }

    // The words are refused for this reason: nothing is read, and nothing written but the reason.
    fn refuse(&mut self, reason: &str) -> Result<()> {
        self.input.extend_from_slice(&[1, 2])?;
        self.cuts.push(1)?;
        self.notes.extend_from_slice(b"refused: ")?;
        self.notes.extend_from_slice(reason.as_bytes())?;
        self.notes.push(b'\n')?;
        once(&mut self.status, 2)?;
        once(&mut self.reads, 0)
    }
}

// Fills a field that is given only once.
fn once<T: Drop>(place: &mut Option<T>, value: T) -> Result<()> {
    ensure!(place.is_none(), "it is given twice");
    *place = Some(value);
    Ok(())
}
