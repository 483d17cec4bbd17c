// Units, and what a sender and its last stage write.
use crate::units::UNIT;
use std::alloc::Global;
use std::test::Fail;
use tm_base::{Failed, MemSink, put_all};
use tm_channel::{Config, InnerSender, Raw, SendError, Sender, cadu};

fn sink(alloc: Global, room: usize) -> Result<MemSink, Fail> {
    Ok(MemSink::new(alloc, room, Vec::new(alloc))?)
}

// Frames of one octet with no inner code, and not randomized.
fn plain_config() -> Result<Config, Fail> {
    Ok(Config::check(&Raw {
        length: Some(1),
        inner: 0,
        randomize: 0,
        ..Raw::default()
    })?)
}

#[test]
fn a_unit_is_marker_and_codeword(rt: HostRuntime) -> Result<(), Fail> {
    let config = plain_config()?;
    assert!(rt; [config.length(), config.depth(), config.word_length()] == [1, 1, 33]);
    let mut unit = [0; 37];
    cadu(&config, &[0x7B], &mut unit);
    assert!(rt; unit == UNIT);
    Ok(())
}

#[test]
fn a_sender_writes_units(rt: HostRuntime) -> Result<(), Fail> {
    let mut sender = Sender::new(plain_config()?);
    let mut out = sink(rt.alloc(), 100)?;
    sender.push(&[0x7B], &mut out)?;
    assert!(rt; sender.finish() == 0);
    assert!(rt; out.octets() == UNIT.as_slice());
    Ok(())
}

#[test]
fn a_sender_stops_after_a_fault(rt: HostRuntime) -> Result<(), Fail> {
    let mut sender = Sender::new(plain_config()?);
    let mut out = sink(rt.alloc(), 2)?;
    assert!(rt; sender.push(&[1], &mut out) == Err(SendError::Sink));
    assert!(rt; sender.push(&[1], &mut out) == Err(SendError::Stopped));
    assert!(rt; out.octets() == [0x1A, 0xCF].as_slice());
    Ok(())
}

// A sink is not asked to take nothing, so that it can't fail there.
#[test]
fn no_octets_meet_no_fault(rt: HostRuntime) -> Result<(), Fail> {
    let fails = [0].to_vec(rt.alloc())?;
    let mut out = MemSink::new(rt.alloc(), 1, fails)?;
    assert!(rt; put_all(&mut out, &[]) == Ok(()));
    assert!(rt; put_all(&mut out, &[1]) == Err(Failed));
    assert!(rt; out.octets().is_empty());
    Ok(())
}

// The symbols of two octets at rate 1/2.
static SYMBOLS: [u8; 32] = [
    0x00, 0xFF, 0x00, 0xFF, 0x00, 0xFF, 0xFF, 0x00, 0x00, 0x00, 0x00, 0x00, 0xFF, 0x00, 0x00, 0x00,
    0x00, 0x00, 0x00, 0xFF, 0xFF, 0xFF, 0x00, 0x00, 0xFF, 0x00, 0x00, 0xFF, 0x00, 0xFF, 0xFF, 0xFF,
];

// Sends the inner symbols of octets in pieces of this size.
fn send_inner(
    inner: &mut InnerSender,
    octets: &[u8],
    size: usize,
    out: &mut MemSink,
) -> Result<(), SendError> {
    for piece in octets.chunks(size.max(1)) {
        inner.push(piece, out)?;
    }
    Ok(())
}

// The register and the pattern run on from push to push.
#[test]
fn an_inner_sender_takes_any_pieces(rt: HostRuntime) -> Result<(), Fail> {
    let config = Config::check(&Raw::default())?;
    for size in [1, 2] {
        let mut inner = InnerSender::new(&config);
        let mut out = sink(rt.alloc(), 32)?;
        send_inner(&mut inner, &[0x1A, 0xCF], size, &mut out)?;
        assert!(rt; out.octets() == SYMBOLS.as_slice());
    }
    Ok(())
}
