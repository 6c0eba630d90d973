//! Tests of the leaf crates: names and mail, times and sys files, map entries, bundles, and the
//! decisions of the spool.
#![tactic(auto)]

#[cfg(test)]
mod bundles;
#[cfg(test)]
mod decisions;
#[cfg(test)]
mod entries;
#[cfg(test)]
mod expecting;
#[cfg(test)]
mod fronts;
#[cfg(test)]
mod mail;
#[cfg(test)]
mod names;
#[cfg(test)]
mod paths;
#[cfg(test)]
mod sealing;
#[cfg(test)]
mod sys_files;
#[cfg(test)]
mod taking;
#[cfg(test)]
mod times;
#[cfg(test)]
mod values;
