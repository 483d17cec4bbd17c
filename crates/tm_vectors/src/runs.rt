// The program's top call over a source and sinks in memory.
use std::alloc::{AllocError, Global};
use std::process::Abort;
use std::test::Fail;
use std::thread::Threads;
use tm_base::{MemSink, MemSource};
use tm_cli::run;

/// The most octets that a source gives at a time.
pub const CUTS: [usize; 3] = [1, 2, 4096];

/// What goes into a call.
#[derive(Clone, Copy)]
pub struct Given<'a> {
    /// The words, parted by blanks. The first is the program's name.
    pub line: &'a str,
    pub input: &'a [u8],
    /// The most octets that the source gives at a time.
    pub cut: usize,
    /// The number of the read that fails, counted from 0.
    pub failing_read: Option<usize>,
    pub out_room: usize,
    pub notes_room: usize,
}

impl<'a> Given<'a> {
    /// A call that meets no fault.
    pub fn new(line: &'a str, input: &'a [u8], cut: usize) -> Given<'a> {
        Given {
            line,
            input,
            cut,
            failing_read: None,
            out_room: 20_000,
            notes_room: 256,
        }
    }
}

/// What came of a call: its status, and its source and sinks as it left them.
#[derive(Drop)]
pub struct Outcome {
    pub status: u8,
    pub source: MemSource,
    pub out: MemSink,
    pub notes: MemSink,
}

/// The words of a line.
pub fn words_of(alloc: Global, line: &str) -> Result<Vec<String>, AllocError> {
    let mut words = Vec::new(alloc);
    for word in line.split_whitespace() {
        words.push(word.to_string(alloc)?)?;
    }
    Ok(words)
}

fn source_of(alloc: Global, given: &Given) -> Result<MemSource, AllocError> {
    let content = given.input.to_vec(alloc)?;
    let cuts = vec![in alloc; given.cut; given.input.len()]?;
    let mut fails = Vec::new(alloc);
    if let Some(read) = given.failing_read {
        fails.push(read)?;
    }
    Ok(MemSource::new(content, cuts, fails))
}

// Runs the program.
fn run_by(
    rt: &(impl Threads + Sync),
    alloc: Global,
    words: &[String],
    source: &mut MemSource,
    out: &mut MemSink,
    notes: &mut MemSink,
) -> u8 {
    run(rt, alloc, words, source, out, notes)
}

/// Makes the call.
pub fn run_over(rt: &(impl Threads + Sync), alloc: Global, given: &Given) -> Result<Outcome, Fail> {
    let words = words_of(alloc, given.line)?;
    let mut source = source_of(alloc, given)?;
    let mut out = MemSink::new(alloc, given.out_room, Vec::new(alloc))?;
    let mut notes = MemSink::new(alloc, given.notes_room, Vec::new(alloc))?;
    let status = run_by(rt, alloc, &words, &mut source, &mut out, &mut notes);
    Ok(Outcome {
        status,
        source,
        out,
        notes,
    })
}

/// The call ended with this status, and wrote just these octets and these notes.
pub fn check_outcome(
    rt: &impl Abort,
    given: &Given,
    outcome: &Outcome,
    status: u8,
    out: &[u8],
    notes: &[u8],
) {
    let (cut, room) = (given.cut, given.notes_room);
    let is_wanted = outcome.status == status
        && outcome.out.octets() == out
        && outcome.notes.octets() == notes;
    assert!(rt; is_wanted, "cut {cut}, room {room}");
}
