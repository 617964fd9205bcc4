//! The key by which elements are ordered.

/// What orders elements: a given `executionOrderId` from 1 on comes before none, then the place on the sheet counts
/// from the top and from the left, in millionths, and then the localId.
#[derive(Clone, Copy, Debug, PartialEq, Eq)]
pub struct Key {
    pub order: Option<u64>,
    pub y: i64,
    pub x: i64,
    pub local_id: u64,
}
