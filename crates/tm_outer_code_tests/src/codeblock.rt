// A column of a codeblock, and the sequence of the randomizer.
use tm_codeblock::{mask, put_word, take_word};

#[test]
fn takes_and_puts_a_column(rt: HostRuntime) {
    let mut block = [0, 1, 2, 10, 11, 12];
    let mut word = [0; 2];
    take_word(&block, 3, 1, &mut word);
    put_word(&mut block, 3, 2, &[7, 8]);
    assert!(rt; word == [1, 11] && block == [0, 1, 7, 10, 11, 8]);
}

#[test]
fn sequence_begins_and_repeats(rt: HostRuntime) {
    let mut block = [0; 600];
    mask(&mut block);
    for start in [0, 255, 510] {
        assert!(rt; &block[start..start + 5] == [0xFF, 0x48, 0x0E, 0xC0, 0x9A].as_slice());
    }
}
