//! Tests that cross crates, and of what is around the codec, that are no worked rows of the program (those are in
//! tm_rows): the octets that go in and out, the command line and the configuration, the forms of the lines, drawn frames,
//! and calls of the whole program over octets that are made in a loop. Beside its tests it has no code of its own. The
//! expected values are worked by hand from CCSDS 131.0-B, stand in its tables, or come of a program that shares nothing
//! with this one.
#![tactic(auto)]

#[cfg(test)]
mod certificates;
#[cfg(test)]
mod config;
#[cfg(test)]
mod faults;
#[cfg(test)]
mod generated;
#[cfg(test)]
mod laws;
#[cfg(test)]
mod lines;
#[cfg(test)]
mod octets;
#[cfg(test)]
mod runs;
#[cfg(test)]
mod values;
#[cfg(test)]
mod words;
