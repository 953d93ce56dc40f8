ghost use Rattle.std.specs.Prelude.{◌≡◌, Option, length};

use crate::arbiter::Arbiter;
use can_frame::Iface;

/// An arbiter that looks at all 16 interfaces each time the winner is requested.
#[derive(Debug, Drop)]
pub struct ScanArbiter {
    keys: [Option<u32>; 16],
    ghost places: { length keys ≡ 16 },
}

impl Arbiter for ScanArbiter {
    ghost keys_of = { λ arbiter. arbiter.keys };

    fn new() -> Self {
        ScanArbiter { keys: [None; 16] }
    }

    fn set(&mut self, iface: Iface, key: u32) {
        self.keys[iface.number() as usize] = Some(key);
    }

    fn clear(&mut self, iface: Iface) {
        self.keys[iface.number() as usize] = None;
    }

    fn winner(&self) -> Option<Iface> {
        let mut first: Option<(u8, u32)> = None;
        for number in 0..16u8 {
            let Some(key) = self.keys[number as usize] else {
                continue;
            };
            match first {
                Some((_, least)) if least <= key => {}
                _ => first = Some((number, key)),
            }
        }
        let (number, _) = first?;
        Iface::new(number)
    }

    ghost places = { λ arbiter. arbiter.places };
}
