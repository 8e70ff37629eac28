//! Tests of copies, messages, the cores of nodes and coordinator, and of nets and what goes over them.
//! There is nothing else here.
#![tactic(auto)]

#[cfg(test)]
mod chief;
#[cfg(test)]
mod copies;
#[cfg(test)]
mod letters;
#[cfg(test)]
mod lost;
#[cfg(test)]
mod messages;
#[cfg(test)]
mod net;
#[cfg(test)]
mod node;
#[cfg(test)]
mod power;
#[cfg(test)]
mod ship;
#[cfg(test)]
mod votes;
