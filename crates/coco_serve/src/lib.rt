//! Request lines answered on a store in hand, batch by batch: each batch is committed to the files before it is answered.
#![tactic(auto)]

mod all_batches;
mod bounds;
pub mod laws;
mod one_batch;

pub use all_batches::answer_lines;
pub use bounds::RunBounds;
