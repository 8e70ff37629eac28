//! One executor on one map: the plain meaning of calls, in order.
#![tactic(auto)]

mod call_on_map;
mod executor;

pub use executor::Executor;
