// Command lines, with their jobs. A text that is no number and no word of its option becomes
// 2^64 - 1, 18446744073709551615.
use crate::runs::words_of;
use crate::values::{changed, check_row, numbers_of};
use std::alloc::{AllocError, Global};
use std::process::Abort;
use std::test::Fail;
use tm_config::Raw;
use tm_words::{Job, WordsError, read_words};

// The job of a line.
fn job_of(alloc: Global, line: &str) -> Result<Job, Fail> {
    let words = words_of(alloc, line)?;
    Ok(read_words(alloc, words.as_slice())?)
}

// In each row the words, and the values that they change.
static EACH_OPTION: &str = "\
tmchan encode|\n\
tmchan encode --code rs8 --depth 4 --length 956 --inner none --invert on --randomize off --basis poly \
--tolerance 3 --repair 7 --soft i8 --start any --skip 5 --workers 2 --limit 99 --fly 1 --keep 64 --ahead 0 \
--phase find --polarity find --batch 3 --pack off --verify 2 --rescan on --bad pass|code=8 depth=4 length=956 inner=0 \
invert=1 randomize=0 basis=1 tolerance=3 repair=7 soft=1 start=1 skip=5 workers=2 limit=99 fly=1 keep=64 ahead=0 \
phase=1 polarity=1 batch=3 pack=0 verify=2 rescan=1 bad=1\n\
tmchan encode --code none|code=0\n\
tmchan encode --code rs16 --depth 1 --inner 1/2 --tolerance 0 --skip 0 --workers 1 --limit 4294967296 --fly 0 \
--keep 8192 --ahead 256 --batch 32 --verify 0 --rescan off --bad drop|\n\
tmchan encode --inner 2/3|inner=23\n\
tmchan encode --inner 3/4|inner=34\n\
tmchan encode --inner 5/6|inner=56\n\
tmchan encode --inner 7/8 --invert off|inner=78 invert=0\n\
tmchan encode --phase follow|phase=2\n\
tmchan encode --phase given --polarity given --soft u8 --start zero --basis dual --randomize on --pack on|\n\
tmchan encode --code=rs8 --|code=8\n\
tmchan encode --code RS8|code=18446744073709551615\n\
tmchan encode --skip 00000000000000000001|skip=1\n\
tmchan encode --skip 000000000000000000001|skip=18446744073709551615\n\
tmchan encode --limit 18446744073709551616|limit=18446744073709551615\n";

#[test]
fn reads_each_option(rt: HostRuntime) -> Result<(), Fail> {
    for row in EACH_OPTION.lines() {
        let (line, changes) = row.split_once('|').expect(&rt, "a row");
        let wanted = changed(Raw::default(), changes).expect(&rt, "values");
        check_row(&rt, job_of(rt.alloc(), line)?.raw == wanted, row);
    }
    Ok(())
}

// In each row the words, the command, the word to be repaired, and seed, frames and hits.
static JOBS: &str = "\
any encode --skip 3|Encode||1 100 0\n\
any decode --skip 3|Decode||1 100 0\n\
any report --skip 3|Report||1 100 0\n\
any trace --skip 3|Trace||1 100 0\n\
any erased --skip 3|Erased||1 100 0\n\
any certify --skip 3|Certify||1 100 0\n\
any check --skip 3|Check||1 100 0\n\
any bits --skip 3|Bits||1 100 0\n\
tmchan word --skip=3 -- --00|Word|--00|1 100 0\n\
tmchan soak --skip 3 --seed 7 --frames 0 --hits 33|Soak||7 0 33\n";

#[test]
fn gives_a_whole_job(rt: HostRuntime) -> Result<(), Fail> {
    for row in JOBS.lines() {
        let (line, wanted) = row.split_once('|').expect(&rt, "words");
        let job = job_of(rt.alloc(), line)?;
        check_row(&rt, is_wanted(&rt, rt.alloc(), &job, wanted)?, row);
    }
    Ok(())
}

// Whether a job is what a row says.
fn is_wanted(rt: &impl Abort, alloc: Global, job: &Job, wanted: &str) -> Result<bool, AllocError> {
    let (kind, rest) = wanted.split_once('|').expect(rt, "a command");
    let (hex, rest) = rest.split_once('|').expect(rt, "a word");
    let numbers = numbers_of(rest).expect(rt, "numbers");
    let found = format!(in alloc; "{:?}", job.kind)?;
    Ok(
        found.as_str() == kind
            && job.hex.as_bytes() == hex.as_bytes()
            && [job.raw.skip, job.seed, job.frames, job.hits]
                == [3, numbers[0], numbers[1], numbers[2]],
    )
}

#[test]
fn refuses_words(rt: HostRuntime) -> Result<(), Fail> {
    let words = words_of(rt.alloc(), "tmchan encode --code")?;
    assert!(rt; read_words(rt.alloc(), &words).err() == Some(WordsError::Words));
    Ok(())
}
