//! How long, wide, deep and many things may be, each named once.

/// The most bytes of a name, a tag or a word.
pub const LONGEST_NAME: usize = 64;

/// The fewest parts of a tuple.
pub const LEAST_WIDTH: usize = 2;

/// The most parts of a tuple.
pub const GREATEST_WIDTH: usize = 8;

/// The greatest depth of a value.
pub const GREATEST_DEPTH: usize = 64;

/// The most brackets of a script that are open at one place.
pub const MOST_OPEN_BRACKETS: usize = 64;

/// The most bytes of a script, or of a text of results.
pub const LONGEST_TEXT: usize = 1_048_576;

/// The greatest number of turns of a `while`.
pub const MOST_TURNS: u32 = 1_000_000;

/// The most digits of a number.
pub const MOST_DIGITS: usize = 9;
