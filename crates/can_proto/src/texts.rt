ghost use Rattle.std.specs.Prelude.{◌≡◌, ◌≤◌, ◌+◌, ◌++◌, length, codes};
ghost use Rattle.std.specs.Fmt.{decimal};

/// The buffer for the text of a reply. The longest text, that of `stats`, has 177 bytes.
pub type Text = can_frame::Text<256>;

/// The buffer for the text of an item or of a refusal. The longest text, an FD frame of 64 bytes with its origin, has 197 bytes.
pub type ItemText = can_frame::Text<200>;

/// Adds a space and a decimal number.
pub(crate) fn push_next(text: &mut Text, number: u64)
    requires { length text.old + 21 ≤ 256 }
    ensures text { text.new ≡ text.old ++ codes " " ++ decimal number }
    ensures len { length text.new ≤ length text.old + 21 }
{
    text.push(b' ');
    text.push_count(number);
}
