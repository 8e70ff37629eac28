//! A cluster of one or more nodes: the store in hand, and its turns, each of which commits an epoch.
#![tactic(auto)]

mod attempt;
mod cluster;
mod deciding;
mod ending;
mod laws;
mod open;
mod rows;
mod running;
mod stop;
mod trying;

pub use cluster::Cluster;
pub use laws::turns_are_steps_of_the_agreement;
pub use open::cluster_of;
pub use stop::Stop;
