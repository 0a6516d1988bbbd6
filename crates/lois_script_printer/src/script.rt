//! The whole script.

ghost use Rattle.std.specs.Prelude.{◌≡◌, OnOk, IfOk};
ghost use Rattle.lois_script.specs.Grammar.{structure_word};
ghost use Rattle.lois_script.specs.View.{params_list, script_tree};
ghost use Rattle.lois_script_printer.specs.Appended.{Appends, written_names};
ghost use Rattle.lois_script_printer.specs.Printed.{written_parameters, printed_script};
ghost use Rattle.lois_script_printer.specs.Unplaced.{IsSpelled, SpellsUnplaced};

use crate::statements::put_stmts;
use crate::tokens::{put, put_line_end, put_separator};
use lois_base::NoMemory;
use lois_script::{Params, Script};
use std::alloc::Global;

fn put_names(out: &mut Vec<u8>, parameters: &Params) -> Result<(), NoMemory>
    ensures { OnOk result (Appends out.old.items (written_names (params_list parameters.now)) out.new.items) }
{
    for (i, parameter) in parameters.as_slice().iter().enumerate() {
        put_separator(out, i, b",")?;
        put(out, parameter.name.bytes())?;
    }
    Ok(())
}

fn put_parameters(out: &mut Vec<u8>, parameters: &Params) -> Result<(), NoMemory>
    ensures { OnOk result (Appends out.old.items (written_parameters (params_list parameters.now)) out.new.items) }
{
    if parameters.len() == 0 {
        return Ok(());
    }
    put(out, b"parameter")?;
    put_names(out, parameters)?;
    put_line_end(out, b";")
}

fn structure_word(ordered: bool) -> &'static [u8]
    ensures { result.now ≡ structure_word ordered }
{
    if ordered { b"order" } else { b"equality" }
}

/// The printed form of a script that some text spells: its tokens, each with a byte behind it. LF stands behind `;` and the
/// two braces of a block, and a space behind every other token.
pub fn print_script(alloc: Global, script: &Script) -> Result<Vec<u8>, NoMemory>
    requires { IsSpelled (script_tree script.now) }
    ensures printed { IfOk result (λ text. text.items ≡ printed_script (script_tree script.now)) }
    ensures read_again { IfOk result (λ text. SpellsUnplaced text.items (script_tree script.now)) }
{
    let mut out = Vec::new(alloc);
    put(&mut out, b"atoms")?;
    put(&mut out, structure_word(script.order))?;
    put_line_end(&mut out, b";")?;
    put_parameters(&mut out, &script.parameters)?;
    put_stmts(&mut out, &script.body)?;
    Ok(out)
}
