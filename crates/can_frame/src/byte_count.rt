ghost use Rattle.std.specs.Prelude.{◌≡◌, ◌≤◌, ◌==◌, length, count_by};

/// The size of a block of bytes. The count of a whole block has to fit a `u8`.
const BLOCK: usize = 128;

/// Returns how often the byte `mark` occurs in a text.
#[tactic(auto, using(crate::proofs::Counts::counted_parts, crate::proofs::Counts::counted_few))]
pub fn count_of(text: &[u8], mark: u8) -> usize
    ensures { result ≡ count_by (λ b. b == mark) text.now }
{
    let mut count = 0;
    let mut rest = text;
    while !rest.is_empty() {
        let (block, after) = rest.split_at(rest.len().min(BLOCK));
        count += usize::from(count_in_block(block, mark));
        rest = after;
    }
    count
}

/// Returns how often the byte `mark` occurs in a block of at most 128 bytes. The loop has no branch, so the compiler can vectorise
/// it.
#[tactic(auto, using(crate::proofs::Counts::counted_more))]
fn count_in_block(block: &[u8], mark: u8) -> u8
    requires { length block.now ≤ 128 }
    ensures { result ≡ count_by (λ b. b == mark) block.now }
{
    let mut count = 0;
    for byte in block {
        count += u8::from(*byte == mark);
    }
    count
}
