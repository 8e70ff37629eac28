//! The ship phase: the pieces of an epoch go to the copies over a net, until each copy has said that it has all.
#![tactic(auto)]

mod answer;
mod ask;
mod line;
mod mail;
mod places;
pub mod ring;
pub mod ship;
mod take;

pub use ring::Ring;
pub use ship::{ShipFault, ship_epoch};
