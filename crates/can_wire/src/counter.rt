ghost use Rattle.std.specs.Prelude.{◌≡◌, ◌≤◌, ◌<◌, ◌+◌, ◌*◌, ◌^◌, length};
ghost use Rattle.can_wire.specs.FrameBits.{byte_bits};
ghost use Rattle.can_wire.specs.inner.Sending.{bits_of, nothing_sent, flushed, added, sent_all};

use crate::bits::Bits;
use std::marker::Model;

/// Counts the bits that are sent, including stuff bits. The stuff bit that is due after five equal bits is counted together with
/// the bit that follows it.
#[derive(Drop)]
pub(crate) struct Counter {
    last: u8,
    run: u8,
    count: u32,
}

impl Model for Counter {
    ghost use Rattle.std.specs.Prelude.{◌≤◌, ◌<◌};
    ghost use Rattle.can_wire.specs.inner.Sending.{Sent};

    ghost Value = { Sent };

    ghost view = { λ s. record { last = s.last; run = s.run; count = s.count } };

    ghost invariant = { λ s. (s.run ≤ 5) × (0 < s.run → s.last ≤ 1) };
}

impl Counter {
    /// Returns a counter before the first bit.
    pub fn new() -> Counter
        ensures { result ≡ nothing_sent }
    {
        Counter {
            last: 2,
            run: 0,
            count: 0,
        }
    }

    /// The number of bits that were sent, without a stuff bit that is still due.
    pub fn count(&self) -> u32
        ensures { result ≡ self.now.count }
    {
        self.count
    }

    /// Returns the number of bits that were sent, including a stuff bit that is still due.
    pub fn finish(mut self) -> u32
        requires { self.count + 1 < 2 ^ 32 }
        ensures bits { result ≡ (flushed self).count }
        ensures few { result ≤ self.count + 1 }
    {
        self.flush();
        self.count
    }

    /// Sends the stuff bit if one is due.
    fn flush(&mut self)
        requires { self.old.count + 1 < 2 ^ 32 }
        ensures sent { self.new ≡ flushed self.old }
        ensures rises { self.old.count ≤ self.new.count }
        ensures short { self.new.run ≤ 4 }
        ensures few { self.new.count ≤ self.old.count + 1 }
    {
        if self.run == 5 {
            self.last = 1 - self.last;
            self.run = 1;
            self.count += 1;
        }
    }

    /// Sends a bit, after the stuff bit if one is due.
    fn send_bit(&mut self, bit: u8)
        requires bit { bit < 2 }
        requires room { self.old.count + 2 < 2 ^ 32 }
        ensures sent { self.new ≡ added bit (flushed self.old) }
        ensures rises { self.old.count ≤ self.new.count }
        ensures few { self.new.count ≤ self.old.count + 2 }
    {
        self.flush();
        self.run = if bit == self.last { self.run + 1 } else { 1 };
        self.last = bit;
        self.count += 1;
    }

    /// Sends bits.
    pub fn send(&mut self, bits: Bits)
        requires whole { bits.count ≤ 64 }
        requires room { self.old.count + 2 * bits.count < 2 ^ 32 }
        ensures sent { self.new ≡ sent_all (bits_of bits) self.old }
        ensures rises { self.old.count ≤ self.new.count }
        ensures few { self.new.count ≤ self.old.count + 2 * bits.count }
    {
        for place in (0..bits.count).rev() {
            self.send_bit(bits.bit(place));
        }
    }

    /// Sends bytes.
    pub fn send_bytes(&mut self, bytes: &[u8])
        requires { self.old.count + 16 * length bytes.now < 2 ^ 32 }
        ensures sent { self.new ≡ sent_all (byte_bits bytes.now) self.old }
        ensures rises { self.old.count ≤ self.new.count }
        ensures few { self.new.count ≤ self.old.count + 16 * length bytes.now }
    {
        for byte in bytes {
            self.send(Bits::none().then(8, u32::from(*byte)));
        }
    }
}
