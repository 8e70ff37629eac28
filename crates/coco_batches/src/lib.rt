//! A batch of request lines: read, each line taken in by its class, and answered once the new requests are committed.
#![tactic(auto)]

pub mod answer;
pub mod batch;
pub mod classify;
pub mod lines;
pub mod new_requests;

pub use answer::{LineAnswer, texts_of};
pub use batch::{Batch, read_batch};
pub use lines::read_lines;
pub use new_requests::NewRequests;
