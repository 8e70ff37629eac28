//! Tests of values, rows, bytes, kept Dones, workloads, streams and hosts, and of words, trees, lines and reports. There
//! is nothing else here.
#![tactic(auto)]

#[cfg(test)]
mod audit;
#[cfg(test)]
mod bytes;
#[cfg(test)]
mod host;
#[cfg(test)]
mod io;
#[cfg(test)]
mod kept;
#[cfg(test)]
mod lines;
#[cfg(test)]
mod made;
#[cfg(test)]
mod rows;
#[cfg(test)]
mod trees;
#[cfg(test)]
mod types;
#[cfg(test)]
mod words;
#[cfg(test)]
mod workload;
