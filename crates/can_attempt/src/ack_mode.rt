/// The nodes that acknowledge the frames of a bus.
#[derive(Debug, Clone, Copy, PartialEq, Eq)]
pub enum AckMode {
    /// Every frame that is not destroyed is acknowledged, as if another node were always present.
    Always,
    /// Only the receivers acknowledge. A frame that no receiver got without a fault is not acknowledged.
    Peers,
}
