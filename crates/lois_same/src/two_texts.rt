//! Two results texts, one behind the other.

ghost use Rattle.std.specs.Prelude.{◌≡◌, ◌≤◌, length};
ghost use Rattle.lois_same.specs.TwoTexts.{first_length};

/// How many bytes the first of the two texts has: it ends behind its first line `end`, and where there is no such line it is all.
pub fn first_length(text: &[u8]) -> usize
    ensures length { result ≡ first_length text.now }
    ensures within { result ≤ length text.now }
{
    for i in 0..text.len() {
        if text[i..].starts_with(b"\nend\n") {
            return i + 5;
        }
    }
    text.len()
}
