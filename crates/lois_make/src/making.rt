//! The script that `make` runs.

ghost use Rattle.std.specs.Prelude.{◌≡◌, ◌++◌, ◌+◌, ◌*◌, ◌≤◌, length, IfOk, OnOk};
ghost use Rattle.lois_make.specs.MadeScript.{made_loop, made_script};

use lois_base::NoMemory;
use std::alloc::Global;

/// A script of so many loops over pairs of different atoms, each of which adds its pairs to one set, with a tag before them.
/// There are seven tags.
pub fn make_script(alloc: Global, count: u32) -> Result<Vec<u8>, NoMemory>
    requires some { 1 ≤ count }
    requires few { count ≤ 10000 }
    ensures text { IfOk result (λ text. text.items ≡ made_script count) }
    ensures bytes { IfOk result (λ text. length text.items ≡ 37 + 74 * count) }
{
    let mut text = Vec::new(alloc);
    text.extend_from_slice(b"atoms equality;\nlet s = {};\n")?;
    for number in 0..count {
        append_loop(&mut text, number)?;
    }
    text.extend_from_slice(b"print s;\n")?;
    Ok(text)
}

fn append_loop(text: &mut Vec<u8>, number: u32) -> Result<(), NoMemory>
    ensures { OnOk result (text.new.items ≡ text.old.items ++ made_loop number) }
{
    text.extend_from_slice(b"for x in atoms { for y in atoms { if x != y { add ('k")?;
    text.extend_from_slice(&[b'0' + (number % 7) as u8])?;
    text.extend_from_slice(b", x, y) to s; } } }\n")?;
    Ok(())
}
