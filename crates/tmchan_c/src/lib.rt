//! The codec as a library for C: `include/tmchan.h` says what a program in C is to know. Each call is thin: it tests
//! what C passed, makes the public calls of the crates below, and states their clauses again. The calls that open a
//! stream take its memory, and no others take any.
//!
//! A call that is refused returns the number of the first reason, and has written nothing.
#![tactic(auto)]

mod codeblock;
mod config;
mod decoder;
mod handle;
mod kept;
mod parts;
mod phase;
mod receiver;
mod reed_solomon;
mod refusal;
mod search;
mod sender;
mod stream;
mod text;
mod totals;
mod unit;
mod version;
mod written;

pub use refusal::Refusal;
