//! Worlds of a coordinator and its nodes: what holds over every list of steps.
#![tactic(auto)]

pub mod laws;

pub use laws::{
    agreement, each_step_keeps, entries_begin_a_world, finished_nodes_have_finished, invariant,
    nothing_is_forgotten,
};
