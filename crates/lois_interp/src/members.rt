//! Sets that get members.

ghost use Rattle.std.specs.Prelude.{IfOk};
ghost use Rattle.lois_base.specs.Tree.{tree};
ghost use Rattle.lois_interp.specs.Members.{IsExtended};

use lois_base::{Comp, Constraint, NoMemory, Term};
use lois_context::Content;
use std::alloc::Global;

/// The set with one member more, or `None` where the term is no set.
pub(crate) fn with_member(
    alloc: Global,
    term: Content,
    item: Term,
) -> Result<Option<Content>, NoMemory>
    ensures { IfOk result (IsExtended (tree term) (tree item)) }
{
    let comp = Comp {
        binders: 0,
        guard: Constraint::always(alloc)?,
        item,
    };
    if !term.is_set() {
        return Ok(None);
    }
    Ok(Some(term.put_once(alloc, comp)?))
}
