//! The structs that C programs pass and receive. They consist of numbers and are declared in canbusd.h.

/// A frame, with the layout of struct canfd_frame in linux/can.h. `id` is the identifier with CAN_EFF_FLAG and CAN_RTR_FLAG, `len`
/// is the number of bytes, and `flags` contains CANFD_BRS, CANFD_ESI and CANFD_FDF.
#[repr(C)]
#[derive(Debug, Clone, Copy, Drop)]
pub struct CFrame {
    pub id: u32,
    pub len: u8,
    pub flags: u8,
    pub unused: u16,
    pub bytes: [u8; 64],
}

/// A frame or error message frame that a socket received, with the sending interface, its number at that interface and its moment.
#[repr(C)]
#[derive(Debug, Clone, Copy, Drop)]
pub struct CItem {
    pub frame: CFrame,
    pub iface: u32,
    pub number: u64,
    pub moment: u64,
}

/// The configuration of a bus.
#[repr(C)]
#[derive(Debug, Clone, Copy, Drop)]
pub struct CConfig {
    /// 0 if every frame is acknowledged, or 1 if a frame is acknowledged only if a receiver gets it completely.
    pub ack: u32,
    /// The interfaces whose sockets receive a frame for each fault. There is one bit for each interface.
    pub reporting: u32,
    pub tx_capacity: u32,
    pub limit: u32,
    pub auto_restart: u32,
    /// The nominal bit rate, or 0 for a bus on which frames take no time.
    pub bitrate: u32,
    /// The data bit rate, or 0 if it is the nominal bit rate.
    pub data_bitrate: u32,
}

/// A filter, with the layout of struct can_filter in linux/can.h.
#[repr(C)]
#[derive(Debug, Clone, Copy, Drop)]
pub struct CFilter {
    pub id: u32,
    pub mask: u32,
}

/// The counts of a closed socket: items that were never taken, and items that were dropped because the queue was full.
#[repr(C)]
#[derive(Debug, Clone, Copy, Drop)]
pub struct CClosed {
    pub unread: u64,
    pub dropped: u64,
}

/// The result of an attempt. If no frame was tried, `class` and all other fields except `restarted` are 0.
#[repr(C)]
#[derive(Debug, Clone, Copy, Drop)]
pub struct CTried {
    pub frame: CFrame,
    pub class: u32,
    pub iface: u32,
    pub number: u64,
    pub moment: u64,
    pub accepted: u32,
    pub off: u32,
    pub restarted: u32,
    pub unused: u32,
}

/// The frame counts, the error counters and the state of an interface.
#[repr(C)]
#[derive(Debug, Clone, Copy, Drop)]
pub struct CStatus {
    pub state: u32,
    pub tec: u32,
    pub rec: u32,
    pub unused: u32,
    pub sent: u64,
    pub done: u64,
    pub waiting: u64,
    pub lost: u64,
    pub refused: u64,
}

/// The counts of the items that were offered to a socket.
#[repr(C)]
#[derive(Debug, Clone, Copy, Drop)]
pub struct CStats {
    pub queued: u64,
    pub dropped: u64,
    pub taken: u64,
}

/// The load of the wire.
#[repr(C)]
#[derive(Debug, Clone, Copy, Drop)]
pub struct CLoad {
    pub permille: u32,
    pub bitrate: u32,
    pub data_bitrate: u32,
    pub unused: u32,
    pub micros: u64,
}
