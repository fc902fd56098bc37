//! What sorting gives.

/// What sorting the places gave.
#[derive(Drop)]
pub enum Sorted {
    /// The least order.
    Order(Vec<usize>),
    /// Which places reach no cycle, where some place does.
    Stuck(Vec<bool>),
}
