//! Tests of shards, their locks and gates, and of epochs: run alone, by one worker, side by side, their tails, the
//! order of Dones and what an epoch writes. There is nothing else here.
#![tactic(auto)]

#[cfg(test)]
mod alone;
#[cfg(test)]
mod attempts;
#[cfg(test)]
mod gate;
#[cfg(test)]
mod made;
#[cfg(test)]
mod order;
#[cfg(test)]
mod parallel;
#[cfg(test)]
mod prepared;
#[cfg(test)]
mod reads;
#[cfg(test)]
mod seen;
#[cfg(test)]
mod shard;
#[cfg(test)]
mod standing;
#[cfg(test)]
mod tail;
#[cfg(test)]
mod worker;
