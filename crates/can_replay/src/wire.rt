ghost use Rattle.std.specs.Prelude.{◌≡◌, ◌++◌, ◌∷◌, [], codes, decimal, OnOk};
ghost use Rattle.can_replay.specs.EventsText.{wire_part};
ghost use Rattle.can_replay.specs.Words.{part, wire_words};
ghost use Rattle.can_wire.specs.FrameBits.{frame_bits_of};
ghost use Rattle.can_wire.specs.Timings.{attempt_nanos_of, frame_nanos_of};

use can_event::{Attempt, Entry, Event, Reply, Tried};
use can_fault::Verdict;
use can_frame::Text;
use can_wire::{Timing, frame_bits};
use std::alloc::AllocError;

/// A buffer for the part that describes the wire: its name and four numbers.
type WireText = Text<96>;

/// Writes the part with the times and the bits of the frame that an attempt tried. It writes nothing if no frame was tried or no
/// timing is given.
#[tactic(auto, unfolding(crate::specs::EventsText::wire_part))]
pub(crate) fn put_wire(
    out: &mut Vec<u8>,
    timing: Option<Timing>,
    entry: &Entry,
) -> Result<(), AllocError>
    ensures { OnOk result (out.new.items ≡ out.old.items ++ wire_part timing entry.now) }
{
    let Some(timing) = timing else {
        return Ok(());
    };
    let Event::Attempt(_, verdict) = &entry.event else {
        return Ok(());
    };
    let Reply::Attempted(Attempt::Tried(tried)) = &entry.reply else {
        return Ok(());
    };
    put_tried(out, timing, tried, *verdict)
}

/// Writes the same part as `put_wire`, for a frame that was tried.
#[tactic(auto, unfolding(crate::specs::Words::parted))]
fn put_tried(
    out: &mut Vec<u8>,
    timing: Timing,
    tried: &Tried,
    verdict: Verdict,
) -> Result<(), AllocError>
    ensures { OnOk result (out.new.items ≡ out.old.items ++
        part (wire_words timing tried.now.frame tried.now.class verdict)) }
{
    let mut part: WireText = Text::new();
    push_wire(&mut part, timing, tried, verdict);
    out.extend_from_slice(part.as_bytes())
}

/// Appends the part that `put_tried` writes to a buffer.
fn push_wire(part: &mut WireText, timing: Timing, tried: &Tried, verdict: Verdict)
    requires { part.old ≡ [] }
    ensures { part.new ≡ codes "; wire " ++ decimal (frame_nanos_of timing tried.now.frame) ++
        32 ∷ decimal (attempt_nanos_of timing tried.now.frame tried.now.class verdict) ++
        32 ∷ decimal (frame_bits_of tried.now.frame).nominal ++
        32 ∷ decimal (frame_bits_of tried.now.frame).fast }
{
    let bits = frame_bits(&tried.frame);
    part.push_all(b"; wire ");
    part.push_count(timing.frame_nanos(&tried.frame));
    part.push(b' ');
    part.push_count(timing.attempt_nanos(&tried.frame, tried.class, verdict));
    part.push(b' ');
    part.push_count(u64::from(bits.nominal));
    part.push(b' ');
    part.push_count(u64::from(bits.fast));
}
