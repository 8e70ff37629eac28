//! Tests of a store's bytes: entries, logs, new stores, stores that are opened, and what is had of one in memory. There is
//! nothing else here.
#![tactic(auto)]

#[cfg(test)]
mod compacts;
#[cfg(test)]
mod entries;
#[cfg(test)]
mod epochs;
#[cfg(test)]
mod loads;
#[cfg(test)]
mod logs;
#[cfg(test)]
mod made;
#[cfg(test)]
mod makes;
#[cfg(test)]
mod rebuilds;
#[cfg(test)]
mod recovery;
