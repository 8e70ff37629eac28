//! How request lines are worked off.

/// At most how many lines a batch has, how many workers run its epoch, and how often they try a request.
#[derive(Clone, Copy, Debug, PartialEq, Eq)]
pub struct RunBounds {
    pub size: u32,
    pub workers: u8,
    pub attempts: u8,
}
