//! Tests of the workers that need memory: gates that hold a worker until others have come as far, and rows of the
//! tickets. A batch gives the same words where memory is refused, but its workers then have fixed parts of them, and
//! a gate would hold one for all its spins. So runs in which allocations are refused leave this crate out.
//! Beside its tests it has no code of its own.
#![tactic(auto)]

#[cfg(test)]
mod draws;
#[cfg(test)]
mod gates;
#[cfg(test)]
mod shares;
#[cfg(test)]
mod windows;
