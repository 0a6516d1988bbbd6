//! Places in texts.

ghost use Rattle.lois_command.specs.Places.{IsPlaceOf};

use lois_lexer::{Place, place_of};

/// The place of an offset in the text, as a line and a column from 1. An offset behind the end stands for the end.
pub fn place_at(text: &[u8], offset: usize) -> Place
    ensures { IsPlaceOf text.now offset result }
{
    place_of(text, offset.min(text.len()))
}
