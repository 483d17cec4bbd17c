// What answers mean, in words.
ghost use Rattle.std.specs.Prelude.{◌≡◌, ◌≤◌, ◌<◌, ◌++◌, ◌∷◌, [], get_or, length, map, pos};
ghost use Rattle.tm_buffers.specs.Buffer.{over};
ghost use Rattle.tmchan_c.specs.Refusal.{refused};
ghost use Rattle.tmchan_c.specs.Texts.{no_text, text_of, text_room};
ghost use Rattle.tmchan_c.specs.declared.refusal.Refusal.TheVariants.{Room};

use crate::refusal::Refusal;

// Of the answers below 0: of -1 first.
static TEXTS: [&str; 38] = [
    "no codeword lies within the repair bound",
    "an array is too long or too short, or does not fit the others",
    "there are not as many flags as symbols",
    "the index of the column is not below the depth",
    "the stream is closed, or one of another kind is open",
    "the stream is open already",
    "there is not enough memory",
    "a number behind the options that this library has is not 0",
    "no such answer",
    "no such answer",
    "no such answer",
    "no such answer",
    "no such answer",
    "no such answer",
    "no such answer",
    "the code is none of rs16, rs8 and none",
    "the depth is none of 1, 2, 3, 4, 5 and 8, or it is not 1 and there is no code",
    "no word, or no frame, of this code and depth is so long",
    "the rate is none of none, 1/2, 2/3, 3/4, 5/6 and 7/8",
    "invert or randomize is neither on nor off",
    "the basis is neither dual nor poly",
    "the tolerance is not from 0 to 8",
    "the repair bound is not from 0 to the most that the code repairs",
    "the soft form is neither u8 nor i8",
    "the start is neither zero nor any",
    "not from 0 to 15 symbols are skipped",
    "not from 1 to 64 workers",
    "the limit is not from 1 to 2^40",
    "not from 0 to 15 markers in a row may be missing",
    "not from 64 to 65536 steps of a window are kept",
    "not from 0 to 4096 steps follow those that are kept",
    "the phase is none of given, find and follow",
    "the polarity is neither given nor find",
    "not from 1 to 4096 codeblocks are handed over at once",
    "pack is neither on nor off",
    "not from 0 to 7 further markers are to match",
    "rescan is neither on nor off",
    "bad is neither drop nor pass",
];

/// Writes what an answer means to the start of `text`, a sentence and an octet 0. Returns how many octets the sentence
/// has; or that there is not the room, and writes nothing then.
#[unsafe(no_mangle)]
pub extern "C" fn tmchan_text(answer: i64, text: &mut [u8]) -> i32
    ensures short { length (text_of answer) < text_room }
    ensures text { length (text_of answer) < length text.old → (result ≡ pos (length (text_of answer)))
        × (text.new ≡ over (text_of answer ++ 0 ∷ []) text.old) }
    ensures refused { length text.old ≤ length (text_of answer) → (result ≡ refused Room) × (text.new ≡ text.old) }
{
    let sentence = sentence(answer);
    let count = sentence.len();
    if count >= text.len() {
        return Refusal::Room.answer();
    }
    text[..count].copy_from_slice(sentence.as_bytes());
    text[count] = 0;
    count as i32
}

// What an answer means.
fn sentence(answer: i64) -> &'static str
    ensures text { result.now ≡ text_of answer }
    ensures short { length result.now < text_room }
{
    if answer >= 0 {
        return "done";
    }
    let depth = answer.unsigned_abs() as usize;
    if depth <= TEXTS.len() {
        text_at(&TEXTS, depth - 1)
    } else {
        "no such answer"
    }
}

// A text of a table.
fn text_at(texts: &'static [&'static str], index: usize) -> &'static str
    requires { index < length texts.now }
    ensures { result.now ≡ get_or (map (λ text. text.now) texts.now) index no_text }
{
    texts[index]
}
