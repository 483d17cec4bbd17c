// Elements and indices as two hexadecimal digits each.
ghost use Rattle.std.specs.Prelude.{◌≡◌, ◌<◌, ◌+◌, ◌*◌, length};

fn digit(letter: u8) -> u8
    ensures { result < 16 }
{
    match letter {
        b'0'..=b'9' => letter - b'0',
        b'a'..=b'f' => letter - b'a' + 10,
        _ => 0,
    }
}

/// The number of two digits at an index of a text.
pub fn number_at(text: &[u8], index: usize) -> u8
    requires { 2 * index + 1 < length text.now }
{
    16 * digit(text[2 * index]) + digit(text[2 * index + 1])
}

/// The number that a text has in decimal digits.
pub fn number_of(text: &str) -> Option<u64> {
    text.parse::<u64>().ok()
}

/// A flag at each index that a text names.
pub fn flags_of(text: &[u8]) -> [bool; 255]
    ensures { length result ≡ 255 }
{
    let mut flags = [false; 255];
    for i in 0..text.len() / 2 {
        flags[usize::from(number_at(text, i)).min(254)] = true;
    }
    flags
}
