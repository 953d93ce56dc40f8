ghost use Rattle.std.specs.Prelude.{◌≡◌, ◌≤◌, ◌++◌, [], OnOk};
ghost use Rattle.can_bits.specs.inner.Sending.{due, flushed, last_after, nothing_sent, sent, sent_all, sent_fixed};

use crate::bit::Bit;
use crate::run::{Run, stuff_bit};
use std::alloc::{AllocError, Global};

/// The number of other bits between two fixed stuff bits.
const BETWEEN_FIXED: u8 = 4;

/// The bits sent so far, including their stuff bits. A stuff bit that is due after five equal bits is sent just before the next
/// bit.
#[derive(Drop)]
pub(crate) struct Sender {
    pub bits: Vec<Bit>,
    run: Run,
}

impl Sender {
    /// Returns a sender that has sent nothing.
    pub fn new(alloc: Global) -> Sender
        ensures bits { result.bits.items ≡ [] }
        ensures run { result.run ≡ nothing_sent }
    {
        Sender {
            bits: Vec::new(alloc),
            run: Run::new(),
        }
    }

    /// Sends the stuff bit if one is due.
    pub fn flush(&mut self, is_fast: bool) -> Result<(), AllocError>
        ensures bits { OnOk result (self.new.bits.items
            ≡ self.old.bits.items ++ due is_fast self.old.run) }
        ensures run { OnOk result (self.new.run ≡ flushed self.old.run) }
        ensures short { OnOk result (self.new.run.count ≤ 4) }
    {
        if self.run.is_full() {
            self.bits.push(self.run.stuff_bit(is_fast))?;
            self.run = self.run.flushed();
        }
        Ok(())
    }

    /// Sends bits. Before each bit, it sends the stuff bit if one is due.
    pub fn send(&mut self, bits: &[Bit], is_fast: bool) -> Result<(), AllocError>
        ensures bits { OnOk result (self.new.bits.items
            ≡ self.old.bits.items ++ sent_all is_fast bits.now self.old.run) }
        ensures run { OnOk result (self.new.run ≡ last_after bits.now self.old.run) }
    {
        for bit in bits {
            self.flush(is_fast)?;
            self.bits.push(sent(bit, is_fast))?;
            self.run = self.run.then(*bit);
        }
        Ok(())
    }
    /// Sends bits, with a fixed stuff bit before every group of four bits.
    pub fn send_fixed(&mut self, bits: &[Bit], is_fast: bool) -> Result<(), AllocError>
        ensures { OnOk result (self.new.bits.items ≡ self.old.bits.items
            ++ sent_fixed is_fast self.old.run.is_recessive 0 bits.now) }
    {
        let mut due = 0;
        let mut last = self.run.is_recessive();
        for bit in bits {
            if due == 0 {
                self.bits.push(stuff_bit(bit.field, last, is_fast))?;
                due = BETWEEN_FIXED;
            }
            due -= 1;
            self.bits.push(sent(bit, is_fast))?;
            last = bit.is_recessive;
        }
        Ok(())
    }
}

/// Returns a bit as it is sent, at the data bit rate if `is_fast` is true.
fn sent(bit: &Bit, is_fast: bool) -> Bit
    ensures { result ≡ sent is_fast bit.now }
{
    Bit {
        field: bit.field,
        is_recessive: bit.is_recessive,
        is_stuff: false,
        is_fast,
    }
}
