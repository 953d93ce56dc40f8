ghost use Rattle.std.specs.Prelude.{◌≡◌};
ghost use Rattle.can_replay.specs.EventsText.{events_version};

/// Returns the first line of the text of events, which names the format and its version.
pub fn first_line() -> &'static [u8]
    ensures { result.now ≡ events_version }
{
    b"canbus events 1\n"
}
