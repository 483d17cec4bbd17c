//! Decodes words of the Reed-Solomon code, or windows of the convolutional code, so that the instructions of one can be
//! counted: two runs that differ in their number alone differ by those between.
//!
//! After `reed-solomon` its words are the form of the decoder (`fast`, `plain`, or `none` to prepare the words alone), the
//! code (16 or 8 symbols a word), how many symbols are wrong, how many places are erased (at most 36 each), and the number
//! of words. It writes how many became codewords, and how many symbols were wrong.
//!
//! After `viterbi` they are how often the same symbols are fed, in pieces of 4,096, whether these are `clean` or `noisy`,
//! and the rate. It writes what the blocks come to.
//!
//! Without words it decodes a few of either.
#![tactic(auto)]

mod job;
mod symbols;
mod words;

use job::{Form, Stream, Words, read_stream, read_words};
use std::marker::Brand;
use std::process::ExitCode;
use std::sync::ledger::Blank;
use std::{env, io};
use symbols::decode_stream;
use tm_conv::Rate;
use words::decode_words;

const FEW_WORDS: Words = Words {
    form: Form::Fast,
    e: 16,
    wrong: 16,
    erased: 0,
    count: 4,
};

const SHORT_STREAM: Stream = Stream {
    rounds: 3,
    is_noisy: true,
    rate: Rate::R12,
};

fn main(rt: HostRuntime) -> io::Result<ExitCode> {
    let alloc = rt.alloc();
    let given: Vec<String> = env::args(&rt)?.collect(alloc)?;
    let (words, stream) = if given.len() < 2 {
        (Some(FEW_WORDS), Some(SHORT_STREAM))
    } else {
        (read_words(&given), read_stream(&given))
    };
    if let Some(words) = words {
        let outcome = decode_words::<Brand>(Blank::new(1), &words);
        println!(rt;
            "{} of {} words are codewords, {} symbols were wrong",
            outcome.fixed, words.count, outcome.symbols
        )?;
    }
    if let Some(stream) = stream {
        let Some(sum) = decode_stream(alloc, &stream) else {
            return Ok(ExitCode::from(5));
        };
        println!(rt;
            "blocks {} bits {} metric {} registers {} left {}",
            sum.blocks, sum.bits, sum.metric, sum.registers, sum.left
        )?;
    }
    Ok(ExitCode::from(0))
}
