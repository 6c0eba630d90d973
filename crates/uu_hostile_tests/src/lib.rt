//! Hostile use of the library: every allocation of every public call is refused in turn, and
//! readers never end, break off or are interrupted. `tests/refused-memory` runs these tests with a
//! library before the C library that refuses memory.
#![tactic(auto)]

#[cfg(test)]
mod acts;
#[cfg(test)]
mod files;
#[cfg(test)]
mod leaves;
#[cfg(test)]
mod library;
#[cfg(test)]
mod none;
#[cfg(test)]
mod readers;
#[cfg(test)]
mod refusing;
#[cfg(test)]
mod spools;
#[cfg(test)]
mod trials;
#[cfg(test)]
mod values;
