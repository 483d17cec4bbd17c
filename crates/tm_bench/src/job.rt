// What is to be decoded.
use tm_conv::Rate;

/// Which decoder takes the words.
#[derive(Clone, Copy, PartialEq, Eq)]
pub enum Form {
    Fast,
    Plain,

    /// None: the words are only made.
    None,
}

/// Words, each with `wrong` wrong symbols and `erased` erased places.
#[derive(Clone, Copy)]
pub struct Words {
    pub form: Form,
    pub e: u64,
    pub wrong: u8,
    pub erased: u8,
    pub count: u32,
}

/// Symbols of one rate, which are fed `rounds` times.
#[derive(Clone, Copy)]
pub struct Stream {
    pub rounds: u32,
    pub is_noisy: bool,
    pub rate: Rate,
}

/// The words that the program's arguments name; none where they name none.
pub fn read_words(given: &[String]) -> Option<Words> {
    if given.len() != 7 || given[1].as_str() != "reed-solomon" {
        return None;
    }
    let form = match given[2].as_str() {
        "fast" => Form::Fast,
        "plain" => Form::Plain,
        "none" => Form::None,
        _ => return None,
    };
    let e = given[3].parse::<u64>().ok()?;
    let wrong = given[4].parse::<u8>().ok()?;
    let erased = given[5].parse::<u8>().ok()?;
    let count = given[6].parse::<u32>().ok()?;
    Some(Words {
        form,
        e,
        wrong: wrong.min(36),
        erased: erased.min(36),
        count,
    })
}

/// The stream that the program's arguments name; none where they name none.
pub fn read_stream(given: &[String]) -> Option<Stream> {
    if given.len() != 5 || given[1].as_str() != "viterbi" {
        return None;
    }
    let rounds = given[2].parse::<u32>().ok()?;
    let rate = match given[4].as_str() {
        "1/2" => Rate::R12,
        "2/3" => Rate::R23,
        "3/4" => Rate::R34,
        "5/6" => Rate::R56,
        "7/8" => Rate::R78,
        _ => return None,
    };
    Some(Stream {
        rounds,
        is_noisy: given[3].as_str() == "noisy",
        rate,
    })
}
