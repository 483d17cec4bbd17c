//! Tests of the search for markers, of senders and of receivers, through their public calls. Beside its tests it has no
//! code of its own.
#![tactic(auto)]

#[cfg(test)]
mod places;
#[cfg(test)]
mod receivers;
#[cfg(test)]
mod senders;
#[cfg(test)]
mod sync;
#[cfg(test)]
mod units;
