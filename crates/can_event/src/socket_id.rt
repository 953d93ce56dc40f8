/// The number of a socket. The sockets of a bus get the numbers 0, 1, 2 and so on as they are opened. No number is used twice.
#[derive(Debug, Clone, Copy, PartialEq, Eq)]
pub struct SocketId(pub u32);
