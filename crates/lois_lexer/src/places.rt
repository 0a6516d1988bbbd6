//! Lines and columns.

ghost use Rattle.std.specs.Prelude.{◌≡◌, ◌+◌, ◌≤◌, ◌==◌, length, take, not, count_by};
ghost use Rattle.std.specs.List.{suffix_len};

use crate::Place;

/// The line and the column of the byte at `offset`. It may be the length of the text, for its end.
pub fn place_of(text: &[u8], offset: usize) -> Place
    requires { offset ≤ length text.now }
    // One more than the LFs (10) before it.
    ensures line { result.line ≡ 1 + count_by (λ b. b == 10) (take offset text.now) }
    // One more than the bytes since the last of them, or since the start.
    ensures column { result.column ≡ 1 + suffix_len (λ b. not (b == 10)) (take offset text.now) }
{
    let before = &text[..offset];
    let line = 1 + before.iter().filter(|b| **b == b'\n').count();
    Place {
        line,
        column: 1 + last_line_len(before),
    }
}

/// How many bytes follow the last LF, or all of them where there is none.
fn last_line_len(bytes: &[u8]) -> usize
    ensures { result ≡ suffix_len (λ b. not (b == 10)) bytes.now }
{
    bytes.iter().rev().take_while(|b| **b != b'\n').count()
}
