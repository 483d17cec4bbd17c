// Worked records.
ghost use Rattle.std.specs.Prelude.{◌≡◌};

use std::alloc::Global;
use std::process::Abort;
use std::test::Fail;
use std::thread::Threads;
use tm_gf256::Basis;
use tm_records::{Coding, ErasedAnswer, OpenGate, Records};
use tm_rs_code::Params;

// The codeword of 33 symbols whose information symbol is 1, in the dual basis.
const A: [u8; 33] = [
    0x7B, 0x47, 0x32, 0x5F, 0x86, 0x4A, 0x18, 0xA0, 0x78, 0x83, 0xFA, 0xB9, 0x5C, 0x5F, 0x4F, 0xEC,
    0xFE, 0xEC, 0x4F, 0x5F, 0x5C, 0xB9, 0xFA, 0x83, 0x78, 0xA0, 0x18, 0x4A, 0x86, 0x5F, 0x32, 0x47,
    0x7B,
];

// A batch of records of the words of A's code.
fn open(rt: &impl Abort, alloc: Global) -> Records
    ensures { result.coding.params.n ≡ 33 }
{
    let params = Params::new(16, 33).expect(rt, "a code");
    let coding = Coding {
        params,
        basis: Basis::Dual,
        repair: 16,
    };
    Records::open(alloc, coding, 2).expect(rt, "memory")
}

// A with its first symbols made 0, of which the first are erased.
fn record_of(zeros: usize, erased: usize) -> [u8; 66] {
    let mut octets = [0; 66];
    for i in 0..33 {
        octets[i] = if i < zeros { 0 } else { A[i] };
        octets[33 + i] = if i < erased { 0xF0 } else { 0 };
    }
    octets
}

// The records take `count` octets of a piece.
fn take(rt: &impl Abort, records: &mut Records, piece: &[u8], count: usize)
    ensures { records.new.coding ≡ records.old.coding }
{
    assert!(rt; records.take(piece) == count);
}

// Decodes the records, of which there are `count`.
fn decode(rt: &(impl Abort + Threads + Sync), records: &mut Records, count: usize)
    ensures { records.new.coding ≡ records.old.coding }
{
    records.decode(rt, &OpenGate);
    assert!(rt; records.count() == count);
}

// A record became A, with such changes.
fn check_answer(rt: &impl Abort, records: &Records, index: usize, wanted: ErasedAnswer)
    requires { records.now.coding.params.n ≡ 33 }
{
    assert!(rt; index < records.count());
    let mut octets = [0; 33];
    assert!(rt; records.answer(index, &mut octets) == wanted);
    assert!(rt; octets == A);
}

fn check_beyond(rt: &impl Abort, records: &Records, index: usize)
    requires { records.now.coding.params.n ≡ 33 }
{
    assert!(rt; index < records.count());
    assert!(rt; records.answer(index, &mut [0; 33]) == ErasedAnswer::Beyond);
}

#[test]
fn erased_symbols_are_filled_in(rt: HostRuntime) -> Result<(), Fail> {
    let mut records = open(&rt, rt.alloc());
    let mut piece = [0; 66];
    piece[0] = 0x7B;
    piece[34..].fill(1);
    take(&rt, &mut records, &piece, 66);
    take(&rt, &mut records, &record_of(17, 2), 66);
    take(&rt, &mut records, &record_of(17, 1), 66);
    take(&rt, &mut records, &piece[..65], 65);
    assert!(rt; !records.is_full());
    decode(&rt, &mut records, 3);
    assert!(rt; records.left_over() == 65);
    check_answer(&rt, &records, 0, ErasedAnswer::Fixed(0, 32));
    check_answer(&rt, &records, 1, ErasedAnswer::Fixed(15, 2));
    check_beyond(&rt, &records, 2);
    records.clear();
    assert!(rt; records.left_over() == 0);
    Ok(())
}
