//! Tests of the spool over disks and databases in memory:
//!
//! - stops at each call of a disk, and syncs that are left out
//! - worked rows compared with the plain machine, the bytes of jobs, and the cost of a listing
//! - stretches of work over a file
//! - jobs that are handed on under keys, and bundles that are taken whole
//! - databases of an earlier version, and databases that are handed over
#![tactic(auto)]

#[cfg(test)]
mod asking;
#[cfg(test)]
mod bodies;
#[cfg(test)]
mod bundles;
#[cfg(test)]
mod closing;
#[cfg(test)]
mod definitions;
#[cfg(test)]
mod disk;
#[cfg(test)]
mod files;
#[cfg(test)]
mod handing_over;
#[cfg(test)]
mod keys;
#[cfg(test)]
mod kinds;
#[cfg(test)]
mod listing;
#[cfg(test)]
mod migrating;
#[cfg(test)]
mod order;
#[cfg(test)]
mod questions;
#[cfg(test)]
mod reopening;
#[cfg(test)]
mod rows;
#[cfg(test)]
mod runs;
#[cfg(test)]
mod scripts;
#[cfg(test)]
mod stops;
#[cfg(test)]
mod syncs;
#[cfg(test)]
mod texts;
#[cfg(test)]
mod visitors;
#[cfg(test)]
mod worked;
