//! Tests of the inner code through its public calls: the convolutional code, its soft decoder, the symbol phase and slips,
//! certificates, and the inner code of a configuration. Beside its tests it has no code of its own.
#![tactic(auto)]

#[cfg(test)]
mod cert_file;
#[cfg(test)]
mod conv;
#[cfg(test)]
mod inner;
#[cfg(test)]
mod path_cert;
#[cfg(test)]
mod phase;
#[cfg(test)]
mod takers;
#[cfg(test)]
mod viterbi;
