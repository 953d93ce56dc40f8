/// The role of an interface in an attempt, which decides its fault frame.
#[derive(Debug, Clone, Copy, PartialEq, Eq)]
pub enum Role {
    /// The interface that sends the frame.
    Winner,
    /// A receiver that the verdict's local fault names.
    Named,
    /// Any other receiver.
    Other,
}
