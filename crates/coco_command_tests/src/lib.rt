//! Tests of turns of the cluster, of the endings of a call, and of the commands on hosts in memory. There is nothing else
//! here.
#![tactic(auto)]

#[cfg(test)]
mod bank;
#[cfg(test)]
mod calls;
#[cfg(test)]
mod compact;
#[cfg(test)]
mod copies;
#[cfg(test)]
mod ending;
#[cfg(test)]
mod init;
#[cfg(test)]
mod made;
#[cfg(test)]
mod migrate;
#[cfg(test)]
mod nodes;
#[cfg(test)]
mod one_lost;
#[cfg(test)]
mod query;
#[cfg(test)]
mod rebuild;
#[cfg(test)]
mod tells;
#[cfg(test)]
mod turns;
#[cfg(test)]
mod workload;
