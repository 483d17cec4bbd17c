// The check symbols of the one information symbol 1, by both forms.
use crate::generators::{OF_8, OF_16};
use std::process::Abort;
use tm_gf256::Gf;
use tm_rs::{checks, plain_checks};
use tm_rs_code::Params;

#[test]
fn one_symbol(rt: HostRuntime) {
    check(&rt, 16, &OF_16[1..]);
    check(&rt, 8, &OF_8[1..]);
}

fn check(rt: &impl Abort, e: u64, wanted: &[u8]) {
    let count = wanted.len();
    let params = Params::new(e, count as u64 + 1).expect(rt, "a code");
    assert!(rt; params.n() == count as u64 + 1 && 2 * params.e() == count as u64);
    let (mut fast, mut plain) = ([Gf(0); 32], [Gf(0); 32]);
    checks(&params, &[Gf(1)], &mut fast[..count]);
    plain_checks(&params, &[Gf(1)], &mut plain[..count]);
    for i in 0..count {
        assert!(rt; [fast[i], plain[i]] == [Gf(wanted[i]); 2]);
    }
}
