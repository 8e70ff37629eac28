//! Letters between places, by nets that may lose, repeat and reorder them: a net fixes in each round what is given.
#![tactic(auto)]

pub mod flood;
mod fresh_post;
pub mod letter;
mod moving;
pub mod net;
mod post;
pub mod quiet;
mod quiet_post;
pub mod script;
pub mod seeded;

pub use flood::FloodNet;
pub use letter::{Letter, Posted};
pub use net::Net;
pub use quiet::QuietNet;
pub use script::{Lose, ScriptNet};
pub use seeded::SeededNet;
