// A worked certificate: one step at rate 1/2, inverted, from register 0, with soft octets 80 and 00.

use std::alloc::Global;
use std::process::Abort;
use tm_base::{MemSink, SureSink};
use tm_cert_file::write_window;
use tm_conv::Rate;
use tm_driver::Writer;
use tm_viterbi::Block;

// The certificate.
fn certificate(rt: &impl Abort, alloc: Global) -> MemSink {
    let mut out = MemSink::new(alloc, 1000, Vec::new(alloc)).expect(rt, "memory");
    let mut notes = SureSink::new();
    let mut texts = Writer {
        out: &mut out,
        notes: &mut notes,
        has_failed: false,
    };
    let block = Block {
        start: 0,
        steps: 1,
        kept: 1,
        metric: 127,
        bits: &[1],
        end_state: 32,
        dropped: 0,
    };
    write_window(
        &mut texts,
        Rate::R12,
        true,
        0,
        Some(0),
        &[0x80, 0x00],
        &block,
    );
    let Writer {
        out: _,
        notes: _,
        has_failed,
    } = texts;
    assert!(rt; !has_failed);
    out
}

// The octets before the columns.
static HEADER: [u8; 20] = [
    0, 0, 0, 1, 0, 0, 0, 1, 0, 0, 0, 0, 0, 0, 0, 0, 0x7F, 1, 0x80, 0,
];

#[test]
fn a_window_is_written(rt: HostRuntime) {
    let out = certificate(&rt, rt.alloc());
    let octets = out.octets();
    assert!(rt; octets.len() == 532);
    check_part(&rt, octets, 0, &HEADER);
    check_part(&rt, octets, 20, &[0, 0, 0, 0]);
    for s in 1..64usize {
        check_part(&rt, octets, 20 + 4 * s, &[0x40, 0, 0, 0]);
    }
    check_part(&rt, octets, 276, &[0, 0, 1, 0x7F]);
    check_part(&rt, octets, 404, &[0, 0, 0, 0x7F]);
}

fn check_part(rt: &impl Abort, octets: &[u8], from: usize, wanted: &[u8]) {
    assert!(rt; from <= octets.len());
    assert!(rt; octets[from..].starts_with(wanted));
}
