ghost use Rattle.std.specs.Prelude.{◌≡◌, ◌<◌};
ghost use Rattle.can_frame.specs.Arbitration.{key_of};

use crate::frame::Frame;

impl Frame {
    /// Returns the frame's arbitration bits as one number, highest bit first. The frame with the lower key wins arbitration. Two
    /// frames have the same key exactly if all their arbitration bits are equal.
    pub fn arbitration_key(self) -> u32
        ensures { result ≡ key_of self }
    {
        let number = self.id().number();
        let rtr = u32::from(self.is_remote());
        if self.id().is_extended() {
            ((number >> 18) << 21) + (0b11 << 19) + ((number & 0x3_FFFF) << 1) + rtr
        } else {
            (number << 21) + (rtr << 20)
        }
    }
}
