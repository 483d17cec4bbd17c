// The forms of the lines.
use std::alloc::Global;
use std::process::Abort;
use std::test::Fail;
use tm_base::{Failed, MemSink};
use tm_channel::{Answer, Item};
use tm_cli::{Tally, block_line, blocks_line, frame_line, frames_line};
use tm_viterbi::Block;

const MOST: u64 = 18_446_744_073_709_551_615;

// An item, and the line that it gives with a number.
#[derive(Drop)]
struct Row<'a> {
    number: u64,
    place: u64,
    distance: u8,
    bridged: bool,
    inverted: bool,
    answers: &'a [Answer],
    line: &'a str,
}

// An item with one codeword without wrong symbols.
const SOUND: Row<'static> = Row {
    number: 0,
    place: 0,
    distance: 0,
    bridged: false,
    inverted: false,
    answers: &[Answer::Fixed(0)],
    line: "frame 0 at 0 marker 0 words 0\n",
};

static ROWS: [Row; 6] = [
    SOUND,
    Row {
        number: 1,
        place: 3,
        distance: 1,
        answers: &[Answer::Fixed(16), Answer::Beyond],
        line: "frame 1 at 3 marker 1 words 16 x\n",
        ..SOUND
    },
    Row {
        number: 2,
        place: 296,
        distance: 19,
        bridged: true,
        line: "frame 2 at 296 bridged 19 words 0\n",
        ..SOUND
    },
    Row {
        number: 3,
        inverted: true,
        line: "frame 3 at 0 marker 0 inverted words 0\n",
        ..SOUND
    },
    Row {
        number: 4,
        answers: &[],
        line: "frame 4 at 0 marker 0 uncoded\n",
        ..SOUND
    },
    Row {
        number: MOST,
        place: MOST,
        distance: 255,
        bridged: true,
        inverted: true,
        answers: &[Answer::Fixed(255); 8],
        line: "frame 18446744073709551615 at 18446744073709551615 bridged 255 inverted words 255 255 255 255 255 255 255 255\n",
    },
];

fn item_of<'a>(rt: &impl Abort, row: &Row<'a>) -> Item<'a> {
    let answers = row.answers;
    assert!(rt; answers.len() <= 8);
    Item {
        place: row.place,
        symbol: 0,
        distance: row.distance,
        bridged: row.bridged,
        inverted: row.inverted,
        answers,
        frame: &[],
    }
}

fn sink(rt: &impl Abort, alloc: Global) -> MemSink {
    MemSink::new(alloc, 512, Vec::new(alloc)).expect(rt, "memory")
}

// A sink took a text at once.
fn check_taken(rt: &impl Abort, sink: &MemSink, calls: u64, text: &str) {
    assert!(rt; sink.calls() == calls && sink.octets() == text.as_bytes());
}

#[test]
fn writes_the_line_of_an_item(rt: HostRuntime) {
    for row in &ROWS {
        let mut out = sink(&rt, rt.alloc());
        check_line(&rt, &mut out, row, &item_of(&rt, row));
        check_taken(&rt, &out, 1, row.line);
    }
}

fn check_line(rt: &impl Abort, out: &mut MemSink, row: &Row<'_>, item: &Item<'_>) {
    assert!(rt; frame_line(out, row.number, item) == Ok(()));
}

#[test]
fn writes_the_other_lines(rt: HostRuntime) -> Result<(), Fail> {
    let mut out = sink(&rt, rt.alloc());
    put_frames(&mut out)?;
    put_block(&mut out)?;
    put_blocks(&mut out)?;
    let text = "frames 1 bad 0 fixed 16 bits 296\n\
        block 1 steps 8448 kept 8192 metric 127\n\
        blocks 2 bits 8449 leftover 1\n";
    check_taken(&rt, &out, 3, text);
    Ok(())
}

// The calls that write lines, of which the test knows nothing.
fn put_frames(out: &mut MemSink) -> Result<(), Failed> {
    frames_line(out, 1, 0, 16, 296)
}

fn put_block(out: &mut MemSink) -> Result<(), Failed> {
    let block = Block {
        start: 0,
        steps: 8448,
        kept: 8192,
        metric: 127,
        bits: &[],
        end_state: 0,
        dropped: 0,
    };
    let tally = Tally {
        blocks: 1,
        bits: 8192,
    };
    block_line(out, tally, &block)
}

fn put_blocks(out: &mut MemSink) -> Result<(), Failed> {
    blocks_line(out, 2, 8449, 1)
}
