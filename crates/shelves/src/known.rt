//! What the passes of a deque know.

/// Whether the number of nodes was told, and that number. No value of it is made.
pub struct Known {
    /// Whether the number was told.
    pub told: bool,
    /// How many nodes the graph has, once it was told.
    pub nodes: u64,
}
