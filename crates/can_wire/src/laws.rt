ghost use Rattle.std.specs.Prelude.{◌≡◌, ◌≤◌, ◌<◌, ◌+◌, ◌-◌, ◌*◌, ◌/◌, ◌^◌, ◌++◌, min};
ghost use Rattle.std.specs.Prelude.{ℕ, List, Option, length, replicate, nat_le, true, false, if◌then◌else◌};
ghost use Rattle.can_frame.specs.Frames.{CanFrame, payload_bytes, is_fd};
ghost use Rattle.can_wire.specs.Stuffing.{stuffed, stuffed_inside, unstuffed};
ghost use Rattle.can_frame.specs.Arbitration.{low_bits};
ghost use Rattle.can_wire.specs.Division.{check_of, remainder, generator_15, generator_17, generator_21};
ghost use Rattle.can_wire.specs.FrameBits.{byte_bits, covered_bits, checked_bits, wire_of, frame_bits_of};
ghost use Rattle.can_wire.specs.Known.{known_bytes, known_classic, known_short_fd, known_long_fd};
ghost use Rattle.can_wire.specs.Times.{BitRates, AreBitRates, nanos_of, billionths};
ghost use Rattle.can_wire.specs.Wires.{later};
ghost use Rattle.can_wire.specs.Loads.{Taken, AreInOrder, busy, busy_in, load_of, over_at, permille_at, recent_of};
ghost use Rattle.can_wire.specs.Schedules.{Schedule, attempted, next_begin, next_moment};
ghost use Rattle.can_wire.specs.declared.wire_bits.WireBits.{WireBits};

/// The numbers of bits that are counted at the two bit rates add up to the number of bits of the frame.
pub fn every_bit_is_counted()
    ensures { (f : CanFrame) →
        (frame_bits_of f).nominal + (frame_bits_of f).fast
        ≡ length (wire_of f) }
{}

/// The check sequences of the bytes of "123456789" are the check values that catalogues of CRCs list for CRC-15/CAN, CRC-17/CAN-FD
/// and CRC-21/CAN-FD. The registers of these CRCs begin with zeros.
pub fn check_values_are_known()
    ensures classic { check_of generator_15 (byte_bits known_bytes) ≡ low_bits 15 0x059E }
    ensures short { check_of generator_17 (byte_bits known_bytes) ≡ low_bits 17 0x04F03 }
    ensures long { check_of generator_21 (byte_bits known_bytes) ≡ low_bits 21 0x0ED841 }
{}

/// If the bits of a classic frame are divided together with their CRC, the remainder is zero. A receiver uses this to check that
/// the bits are intact.
pub fn the_crc_leaves_nothing()
    ensures { (f : CanFrame) →
        remainder generator_15 (length (covered_bits f)) (checked_bits f) ≡ replicate 15 0 }
{}

/// For three frames the bits are equal to those of a model that was written independently (tests/wire_model.py).
pub fn known_frames_have_their_bits()
    ensures classic { wire_of known_classic ≡ low_bits 77 0x2461062446688476AFF }
    ensures short_crc { wire_of known_short_fd
        ≡ low_bits 108 0x6AFA6F783660820C15AE7D676FF }
    ensures long_crc { wire_of known_long_fd
        ≡ low_bits 230 0x1554AB04104104115555555555555555555555555555555558E7D1B6FF }
{}

/// In the part of a frame that is stuffed, no six bits in a row are equal.
pub fn no_six_equal_bits_are_sent()
    ensures all { (bits before after : List ℕ) (b : ℕ) →
        stuffed bits ≡ before ++ replicate 6 b ++ after → ⊥ }
    ensures inside { (bits before after : List ℕ) (b : ℕ) →
        stuffed_inside bits ≡ before ++ replicate 6 b ++ after → ⊥ }
{}

/// If the bit after each five equal bits is dropped, the result is the bits before stuffing.
pub fn unstuffing_gives_the_bits_back()
    ensures all { (bits : List ℕ) → unstuffed (stuffed bits) ≡ bits }
    ensures inside { (bits : List ℕ) → unstuffed (stuffed_inside bits) ≡ bits }
{}

/// The minimum and maximum number of bits of a classic frame with n data bytes, with intermission. The minimum counts the bits of
/// the fields. The maximum adds one stuff bit for every four stuffed bits after the first.
pub fn classic_frames_have_bounds()
    ensures standard { (f : CanFrame) (n : ℕ) →
        is_fd f.payload ≡ false → f.id.extended ≡ false → length (payload_bytes f.payload) ≡ n →
        (47 + 8 * n ≤ length (wire_of f) + 3)
        × (length (wire_of f) + 3 ≤ 47 + 8 * n + (34 + 8 * n - 1) / 4) }
    ensures extended { (f : CanFrame) (n : ℕ) →
        is_fd f.payload ≡ false → f.id.extended ≡ true → length (payload_bytes f.payload) ≡ n →
        (67 + 8 * n ≤ length (wire_of f) + 3)
        × (length (wire_of f) + 3 ≤ 67 + 8 * n + (54 + 8 * n - 1) / 4) }
    ensures one_rate { (f : CanFrame) →
        is_fd f.payload ≡ false → (frame_bits_of f).fast ≡ 0 }
{}

/// The minimum and maximum number of bits of an FD frame with n data bytes, with intermission. In the part that is stuffed, no
/// stuff bit follows the last bit. The part after it has a fixed length.
pub fn fd_frames_have_bounds()
    ensures standard { (f : CanFrame) (n : ℕ) →
        is_fd f.payload ≡ true → f.id.extended ≡ false → length (payload_bytes f.payload) ≡ n →
        let few = 35 + 8 * n + (if nat_le n 16 then 27 else 32) in
        (few ≤ length (wire_of f) + 3)
        × (length (wire_of f) + 3 ≤ few + (20 + 8 * n) / 4) }
    ensures extended { (f : CanFrame) (n : ℕ) →
        is_fd f.payload ≡ true → f.id.extended ≡ true → length (payload_bytes f.payload) ≡ n →
        let few = 54 + 8 * n + (if nat_le n 16 then 27 else 32) in
        (few ≤ length (wire_of f) + 3)
        × (length (wire_of f) + 3 ≤ few + (39 + 8 * n) / 4) }
{}

/// The time of a number of bits in nanoseconds is rounded up: it is never too short, and it is too long by less than one
/// nanosecond.
pub fn times_are_rounded_up()
    ensures { (bits : WireBits) (rates : BitRates) → AreBitRates rates →
        (billionths bits rates ≤ nanos_of bits rates * (rates.nominal * rates.fast))
        × (nanos_of bits rates * (rates.nominal * rates.fast)
        < billionths bits rates + rates.nominal * rates.fast) }
{}

/// Whatever is attempted, and from whatever moment on, an attempt never begins before there is something to attempt, or before the
/// previous attempt has ended. Its moment is never before the previous attempt's moment.
pub fn attempts_come_one_after_another()
    ensures waits { (s : Schedule) → s.since * 1000 ≤ next_begin s }
    ensures apart { (s : Schedule) (frame : Option CanFrame) (nanos since : ℕ) →
        later (next_begin s) nanos
        ≤ next_begin (record (attempted frame nanos s) { since = since }) }
    ensures rising { (s : Schedule) (one other : Option CanFrame) (nanos since : ℕ) →
        next_moment one s ≤ next_moment other (record (attempted one nanos s) { since = since }) }
{}

/// For attempts that come one after another, each shorter than a second, the load of the last whole second is the time for which
/// they took the wire, in thousandths and rounded down. No second has more than a second of busy time. The total is the busy time
/// of all attempts.
pub fn loads_are_what_attempts_took()
    ensures shown { (taken : List Taken) (now second : ℕ) →
        AreInOrder taken → now / 10 ^ 6 ≡ second + 1 → over_at taken < (second + 3) * 10 ^ 9 →
        permille_at now (recent_of (load_of taken)) ≡ busy_in second taken / 10 ^ 6 }
    ensures within { (second : ℕ) (taken : List Taken) →
        AreInOrder taken → busy_in second taken ≤ 10 ^ 9 }
    ensures total { (taken : List Taken) → AreInOrder taken →
        (load_of taken).total ≡ min (busy taken) (2 ^ 64 - 1) }
{}
