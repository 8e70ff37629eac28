//! A request of an epoch.

use coco_types::Request;

/// A request with its place in its epoch, counted from 0.
#[derive(Drop)]
pub struct PlacedRequest {
    pub place: u32,
    pub request: Request,
}
