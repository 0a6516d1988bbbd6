//! One token, and the byte behind it.

ghost use Rattle.std.specs.Prelude.{◌≡◌, ◌∷◌, ◌++◌, OnOk};
ghost use Rattle.lois_lexer.specs.declared.TokenKind.{TokenKind};
ghost use Rattle.lois_lexer.specs.declared.TokenKind.TheVariants.{Tag};
ghost use Rattle.lois_script_printer.specs.Appended.{Appends, between};
ghost use Rattle.lois_script_printer.specs.Printed.{followed_by_blank, ends_line, number};

use lois_base::{Name, NoMemory};

fn append(out: &mut Vec<u8>, bytes: &[u8]) -> Result<(), NoMemory>
    ensures { OnOk result (out.new.items ≡ out.old.items ++ bytes.now) }
{
    out.extend_from_slice(bytes).map_err(|_| NoMemory)
}

/// Writes a token, and a space behind it.
pub(crate) fn put(out: &mut Vec<u8>, bytes: &[u8]) -> Result<(), NoMemory>
    ensures { (kind : TokenKind) → OnOk result (Appends out.old.items (followed_by_blank kind bytes.now) out.new.items) }
{
    append(out, bytes)?;
    append(out, b" ")
}

/// Writes a symbol that ends its line.
pub(crate) fn put_line_end(out: &mut Vec<u8>, symbol: &[u8]) -> Result<(), NoMemory>
    ensures { OnOk result (Appends out.old.items (ends_line symbol.now) out.new.items) }
{
    append(out, symbol)?;
    append(out, b"\n")
}

pub(crate) fn put_tag(out: &mut Vec<u8>, name: &Name) -> Result<(), NoMemory>
    ensures { OnOk result (Appends out.old.items (followed_by_blank Tag (39 ∷ name.now)) out.new.items) }
{
    append(out, b"'")?;
    put(out, name.bytes())
}

pub(crate) fn put_number(out: &mut Vec<u8>, n: u32) -> Result<(), NoMemory>
    ensures { OnOk result (Appends out.old.items (number n) out.new.items) }
{
    let digits = n.to_string(*out.allocator())?;
    put(out, digits.as_bytes())
}

/// Writes a separator, but not before the first part.
pub(crate) fn put_separator(
    out: &mut Vec<u8>,
    index: usize,
    separator: &[u8],
) -> Result<(), NoMemory>
    ensures { (kind : TokenKind) → OnOk result (Appends out.old.items (between index (followed_by_blank kind separator.now)) out.new.items) }
{
    if index == 0 {
        return Ok(());
    }
    put(out, separator)
}
