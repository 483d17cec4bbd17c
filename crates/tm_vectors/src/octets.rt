// Each public function of tm_base once, the faults of the fakes, and what the adapters make of uneven streams.
ghost use Rattle.std.specs.Prelude.{IfOk, ◌≤◌};

use std::alloc::Global;
use std::io::{self, ErrorKind, Read, Write};
use std::process::Abort;
use std::test::Fail;
use tm_base::{
    BitReader, Failed, MARKER, MemSink, MemSource, Sink, Source, StdSink, StdSource, SureSink,
    SureSource, marker, put_all,
};

// The next read returns just this, and leaves these octets.
fn check_read<S: Source>(
    rt: &impl Abort,
    source: &mut S,
    buf: &mut [u8],
    answer: Result<usize, Failed>,
    octets: &[u8],
) {
    assert!(rt; source.read(buf) == answer);
    assert!(rt; *buf == *octets);
}

fn check_put<S: Sink>(rt: &impl Abort, sink: &mut S, octets: &[u8], answer: Result<(), Failed>) {
    assert!(rt; put_all(sink, octets) == answer);
}

// Reads are cut after two octets and then after one, and the second fails.
#[test]
fn source_cuts_and_fails(rt: HostRuntime) -> Result<(), Fail> {
    let content = [1, 2, 3, 4].to_vec(rt.alloc())?;
    let cuts = [2, 9, 0].to_vec(rt.alloc())?;
    let mut source = MemSource::new(content, cuts, [1].to_vec(rt.alloc())?);
    check_read(&rt, &mut source, &mut [0; 3], Ok(2), &[1, 2, 0]);
    check_read(&rt, &mut source, &mut [0; 3], Err(Failed), &[0; 3]);
    check_read(&rt, &mut source, &mut [0; 3], Ok(1), &[3, 0, 0]);
    assert!(rt; source.calls() == 3);
    Ok(())
}

#[test]
fn sink_fills_and_fails(rt: HostRuntime) -> Result<(), Fail> {
    let mut sink = MemSink::new(rt.alloc(), 3, [1].to_vec(rt.alloc())?)?;
    check_put(&rt, &mut sink, &[1, 2], Ok(()));
    check_put(&rt, &mut sink, &[3], Err(Failed));
    check_put(&rt, &mut sink, &[3, 4], Err(Failed));
    assert!(rt; sink.calls() == 4 && sink.octets() == [1, 2, 3].as_slice());
    Ok(())
}

#[test]
fn sure_ones_never_fail(rt: HostRuntime) -> Result<(), Fail> {
    let mut source = SureSource::new([7, 8, 9].to_vec(rt.alloc())?);
    check_read(&rt, &mut source, &mut [0; 2], Ok(2), &[7, 8]);
    let mut sink = SureSink::new();
    check_put(&rt, &mut sink, &[1, 2, 3], Ok(()));
    assert!(rt; sink.count() == 3);
    Ok(())
}

// A reader or writer of which each call moves at most `most` octets, and the call of number `fails`, from 0, fails.
#[derive(Drop)]
struct Uneven<S> {
    stream: S,
    most: usize,
    fails: u64,
    calls: u64,
}

impl<S> Uneven<S> {
    // How many of the octets offered the next call moves.
    fn turn(&mut self, offered: usize) -> io::Result<usize>
        ensures { IfOk result (λ count. count ≤ offered) }
    {
        let call = self.calls;
        self.calls = call.saturating_add(1);
        if call == self.fails {
            return Err(ErrorKind::Other.into());
        }
        Ok(self.most.min(offered))
    }
}

impl<R: Read> Read for Uneven<R> {
    fn read(&mut self, buf: &mut [u8]) -> io::Result<usize> {
        let count = self.turn(buf.len())?;
        self.stream.read(&mut buf[..count])
    }
}

impl<W: Write> Write for Uneven<W> {
    fn write(&mut self, buf: &[u8]) -> io::Result<usize> {
        let count = self.turn(buf.len())?;
        self.stream.write(&buf[..count])
    }

    fn flush(&mut self) -> io::Result<()> {
        self.stream.flush()
    }
}

// Each read is one call of the reader: it gives what that call gives, and fails where it does.
#[test]
fn std_source_reads_as_its_reader(rt: HostRuntime) {
    let end = (Ok(0), [0; 4]);
    let fault = (Err(Failed), [0; 4]);
    check_reads(&rt, 4, 9, &[(Ok(3), [7, 8, 9, 0]), end, end]);
    check_reads(
        &rt,
        2,
        9,
        &[(Ok(2), [7, 8, 0, 0]), (Ok(1), [9, 0, 0, 0]), end],
    );
    check_reads(
        &rt,
        2,
        1,
        &[(Ok(2), [7, 8, 0, 0]), fault, (Ok(1), [9, 0, 0, 0])],
    );
    check_reads(&rt, 0, 9, &[end, end, end]);
}

fn check_reads(
    rt: &impl Abort,
    most: usize,
    fails: u64,
    reads: &[(Result<usize, Failed>, [u8; 4])],
) {
    let mut source = StdSource::new(Uneven {
        stream: [7, 8, 9].as_slice(),
        most,
        fails,
        calls: 0,
    });
    for (answer, octets) in reads {
        check_read(rt, &mut source, &mut [0; 4], *answer, octets);
    }
}

// Each write is one call of the writer: it takes what that call takes, and fails where it does.
#[test]
fn std_sink_writes_as_its_writer(rt: HostRuntime) {
    let alloc = rt.alloc();
    check_writes(
        &rt,
        alloc,
        9,
        9,
        &[Ok(2), Ok(2), Ok(2)],
        &[1, 2, 1, 2, 1, 2],
    );
    check_writes(&rt, alloc, 1, 9, &[Ok(1), Ok(1), Ok(1)], &[1, 1, 1]);
    check_writes(&rt, alloc, 1, 1, &[Ok(1), Err(Failed), Ok(1)], &[1, 1]);
    check_writes(&rt, alloc, 0, 9, &[Ok(0), Ok(0), Ok(0)], &[]);
}

fn check_writes(
    rt: &impl Abort,
    alloc: Global,
    most: usize,
    fails: u64,
    writes: &[Result<usize, Failed>],
    held: &[u8],
) {
    let mut writer = empty_writer(alloc, most, fails);
    let mut sink = StdSink::new(&mut writer);
    for answer in writes {
        assert!(rt; sink.write(&[1, 2]) == *answer);
    }
    assert!(rt; writer.stream.as_slice() == held);
}

// A writer that holds nothing.
fn empty_writer(alloc: Global, most: usize, fails: u64) -> Uneven<Vec<u8>> {
    Uneven {
        stream: Vec::new(alloc),
        most,
        fails,
        calls: 0,
    }
}

// A piece of five octets: how many of them the writer then holds, and after how many calls.
#[test]
fn pieces_are_written_up_to_a_fault(rt: HostRuntime) {
    let alloc = rt.alloc();
    for (most, fails, held, calls) in [
        (9, 9, 5, 1),
        (2, 9, 5, 3),
        (2, 2, 4, 3),
        (2, 0, 0, 1),
        (0, 9, 0, 1),
    ] {
        check_piece(&rt, &mut empty_writer(alloc, most, fails), held, calls);
    }
}

fn check_piece(rt: &impl Abort, writer: &mut Uneven<Vec<u8>>, held: usize, calls: u64) {
    let written = put_all(&mut StdSink::new(&mut *writer), &[1, 2, 3, 4, 5]);
    assert!(rt; written.is_ok() == (held == 5));
    assert!(rt; (writer.stream.len(), writer.calls) == (held, calls));
    assert!(rt; [1, 2, 3, 4, 5].starts_with(writer.stream.as_slice()));
}

#[test]
fn bits_of_the_marker(rt: HostRuntime) {
    let mut bits = BitReader::new(&MARKER);
    let mut word: u32 = 0;
    for _ in 0..32 {
        word = word << 1 | u32::from(bits.next().unwrap_or(0));
    }
    assert!(rt; word == 0x1ACF_FC1D && bits.next() == None && marker() == MARKER);
}
