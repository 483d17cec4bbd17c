// The draws of generated frames, by `tests/soak_draws.py`.
use rand_pcg::Lcg64Xsh32;
use tm_base::MARKER;
use tm_channel::{Config, Raw, cadu};
use tm_cli::generate_unit;

#[test]
fn draws_frames(rt: HostRuntime) {
    let raw = Raw {
        code: 0,
        length: Some(6),
        randomize: 0,
        ..Raw::default()
    };
    let config = Config::check(&raw).expect(&rt, "a configuration");
    let mut draws = Lcg64Xsh32::new(42, 0);
    let mut unit = [0; 10];
    assert!(rt; config.length() == 6 && config.word_length() == 6 && config.depth() == 1);
    for frame in [
        [0xEE, 0x50, 0xBD, 0x8D, 0x49, 0x7F],
        [0xD2, 0x46, 0x10, 0x1E, 0x59, 0x81],
        [0x5E, 0x15, 0xA6, 0x37, 0x79, 0x24],
    ] {
        generate_unit(&mut draws, &config, 0, &mut unit);
        assert!(rt; &unit[..4] == MARKER.as_slice());
        assert!(rt; &unit[4..] == frame.as_slice());
    }
}

#[test]
fn changes_each_column(rt: HostRuntime) {
    let raw = Raw {
        code: 8,
        depth: 2,
        length: Some(4),
        ..Raw::default()
    };
    let config = Config::check(&raw).expect(&rt, "a configuration");
    let mut draws = Lcg64Xsh32::new(1, 0);
    let (mut unit, mut sent) = ([0; 40], [0; 40]);
    for (frame, changes) in [
        (
            [0x51, 0x35, 0x35, 0x4A],
            [
                (0, 0x1A),
                (23, 0x75),
                (25, 0xBF),
                (27, 0x45),
                (32, 0x37),
                (34, 0x69),
            ],
        ),
        (
            [0x24, 0xD2, 0xEC, 0xE8],
            [
                (2, 0x48),
                (4, 0x93),
                (6, 0xD9),
                (27, 0xE2),
                (29, 0x8A),
                (31, 0x07),
            ],
        ),
    ] {
        generate_unit(&mut draws, &config, 3, &mut unit);
        cadu(&config, &frame, &mut sent);
        for (place, change) in changes {
            sent[4 + place] ^= change;
        }
        assert!(rt; unit == sent);
    }
}
