// Values of the options, accepted and refused.
use crate::values::{changed, check_row};
use std::alloc::{AllocError, Global};
use std::process::Abort;
use std::test::Fail;
use tm_config::{Config, Raw};

// In each row values that differ from those that hold where no option is given, and the error's name.
static REFUSED: &str = "\
code=17 depth=6|code\n\
depth=6|depth\n\
depth=2 length=3|length\n\
inner=35 invert=2|inner\n\
randomize=2 basis=2|switch\n\
basis=2|basis\n\
tolerance=9 repair=17|tolerance\n\
repair=17|repair\n\
soft=2|soft\n\
start=2|start\n\
skip=16|skip\n\
workers=65 limit=0|workers\n\
limit=1099511627777|limit\n\
fly=16 keep=63|fly\n\
keep=65537 ahead=4097|keep\n\
ahead=4097|ahead\n\
phase=3 polarity=2|phase\n\
polarity=2 batch=0|polarity\n\
batch=4097 pack=2|batch\n\
pack=2 verify=8|pack\n\
verify=8 rescan=2|verify\n\
rescan=2 bad=2|rescan\n\
bad=2|bad\n";

// The name of the error.
fn reason_of(alloc: Global, raw: &Raw) -> Result<String, AllocError> {
    match Config::check(raw) {
        Ok(_) => "none".to_string(alloc),
        Err(error) => format!(in alloc; "{error}"),
    }
}

#[test]
fn each_error_is_named(rt: HostRuntime) -> Result<(), Fail> {
    for row in REFUSED.lines() {
        let (changes, wanted) = row.split_once('|').expect(&rt, "a row");
        let raw = changed(Raw::default(), changes).expect(&rt, "values");
        let reason = reason_of(rt.alloc(), &raw)?;
        check_row(&rt, reason.as_str() == wanted, row);
    }
    Ok(())
}

#[test]
fn answers_each_value(rt: HostRuntime) {
    let raw = Raw {
        code: 8,
        depth: 2,
        length: Some(4),
        inner: 78,
        invert: Some(0),
        randomize: 0,
        basis: 1,
        tolerance: 8,
        repair: Some(7),
        soft: 1,
        start: 1,
        skip: 15,
        workers: 64,
        limit: 1_099_511_627_776,
        fly: 15,
        keep: 65_536,
        ahead: 4096,
        phase: 2,
        polarity: 1,
        batch: 31,
        pack: 0,
        verify: 7,
        rescan: 1,
        bad: 1,
    };
    check_values(&rt, &Config::check(&raw).expect(&rt, "a configuration"));
}

fn check_values(rt: &impl Abort, config: &Config) {
    assert!(rt; frames_of(config) == [8, 2, 4, 0, 1, 7, 1]);
    assert!(rt; config.invert() == Some(0));
    assert!(rt; symbols_of(config) == [78, 1, 1, 15, 2]);
    assert!(rt; search_of(config) == [8, 15, 7, 1, 1, 0]);
    assert!(rt; work_of(config) == [64, 1_099_511_627_776, 65_536, 4096, 31]);
}

// Of the frames and their code.
fn frames_of(config: &Config) -> [u64; 7] {
    [
        config.code(),
        config.depth(),
        config.length(),
        config.randomize(),
        config.basis(),
        config.repair(),
        config.bad(),
    ]
}

// Of the symbols.
fn symbols_of(config: &Config) -> [u64; 5] {
    [
        config.inner(),
        config.soft(),
        config.start(),
        config.skip(),
        config.phase(),
    ]
}

// Of the search for markers, and of bits.
fn search_of(config: &Config) -> [u64; 6] {
    [
        config.tolerance(),
        config.fly(),
        config.verify(),
        config.rescan(),
        config.polarity(),
        config.pack(),
    ]
}

// Of what a receiver works with.
fn work_of(config: &Config) -> [u64; 5] {
    [
        config.workers(),
        config.limit(),
        config.keep(),
        config.ahead(),
        config.batch(),
    ]
}
