// Worked values: one step at rate 1/2, inverted, from register 0, with soft octets 80 and 00.
ghost use Rattle.std.specs.Prelude.{◌<◌};

use tm_conv::Rate;
use tm_path_cert::{Check, Starts, Verdict};

static SOFT: [u8; 2] = [0x80, 0x00];

// The verdict on a path of one bit, by a second column that has this sum at register 0 and 127 elsewhere.
fn verdict(sum: u32, bit: u8, metric: u64) -> Verdict
    requires { bit < 2 }
{
    let mut before = [1_000_000; 64];
    before[0] = 0;
    let mut after = [127; 64];
    after[0] = sum;
    let mut check = Check::new(Rate::R12, true, 0, Starts::One(0), &SOFT);
    check.column(&before);
    check.column(&after);
    check.finish(&[bit], 0, metric)
}

#[test]
fn one_step(rt: HostRuntime) {
    let verdicts = [
        verdict(127, 1, 127),
        verdict(127, 0, 127),
        verdict(384, 1, 127),
        verdict(127, 1, 128),
    ];
    assert!(rt;
        verdicts
            == [
                Verdict::Yes,
                Verdict::Sum(383),
                Verdict::No(1, 0),
                Verdict::No(1, 0)
            ]
    );
}
