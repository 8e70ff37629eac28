//! What a line is to the history and to the lines before it.

use crate::LineError;
use coco_types::Request;

/// What a line is to the history before its batch and to the earlier lines of its batch.
#[derive(Debug, Drop)]
pub enum Class {
    /// It is refused.
    Refused(LineError),
    /// Its id is known with an equal call.
    Same(u64),
    /// It is a new request.
    New(Request),
}
