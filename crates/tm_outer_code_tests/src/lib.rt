//! Tests of the outer code: of the columns and the randomizer of codeblocks, and of the Reed-Solomon code, from its field
//! to the workers that decode batches of its words. Beside its tests it has no code of its own.
#![tactic(auto)]

#[cfg(test)]
mod codeblock;
#[cfg(test)]
mod digits;
#[cfg(test)]
mod dual;
#[cfg(test)]
mod generators;
#[cfg(test)]
mod gf256;
#[cfg(test)]
mod records;
#[cfg(test)]
mod rs_code;
#[cfg(test)]
mod rs_encode;
#[cfg(test)]
mod rs_locator;
#[cfg(test)]
mod rs_solve;
#[cfg(test)]
mod workers;
