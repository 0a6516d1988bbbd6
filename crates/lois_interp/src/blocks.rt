//! Lists of contexts, and the ends of blocks.

ghost use Rattle.std.specs.Prelude.{◌≡◌, [], ◌∷◌, ◌++◌, IfOk, OnOk};
ghost use Rattle.lois_interp.specs.Decided.{listed_context};
ghost use Rattle.lois_interp.specs.Merged.{AreTruncatedContexts, IsTruncatedContext};

use lois_base::NoMemory;
use lois_context::Context;
use std::alloc::Global;

/// One context alone.
pub(crate) fn one(alloc: Global, context: Context) -> Result<Vec<Context>, NoMemory>
    ensures { IfOk result (λ r. r.items ≡ context ∷ []) }
{
    let mut contexts = Vec::new(alloc);
    contexts.push(context)?;
    Ok(contexts)
}

/// Puts a context that may be missing behind others.
pub(crate) fn put(contexts: &mut Vec<Context>, context: Option<Context>) -> Result<(), NoMemory>
    ensures { OnOk result (contexts.new.items ≡ contexts.old.items ++ listed_context context) }
{
    if let Some(context) = context {
        contexts.push(context)?;
    }
    Ok(())
}

/// Puts contexts behind others.
pub(crate) fn append(contexts: &mut Vec<Context>, more: Vec<Context>) -> Result<(), NoMemory>
    ensures { OnOk result (contexts.new.items ≡ contexts.old.items ++ more.items) }
{
    for context in more {
        contexts.push(context)?;
    }
    Ok(())
}

/// Removes the names that were made in a block: the first `outside` stay.
pub(crate) fn cut_all(
    alloc: Global,
    contexts: Vec<Context>,
    outside: usize,
) -> Result<Vec<Context>, NoMemory>
    ensures { IfOk result (λ r. AreTruncatedContexts outside contexts.items r.items) }
{
    let mut cut = Vec::new(alloc);
    for context in contexts {
        cut.push(cut_one(context, outside))?;
    }
    Ok(cut)
}

fn cut_one(context: Context, outside: usize) -> Context
    ensures { IsTruncatedContext outside context result }
{
    let Context {
        size,
        when,
        sample,
        mut store,
        lines,
    } = context;
    store.truncate(outside);
    Context {
        size,
        when,
        sample,
        store,
        lines,
    }
}
