//! Blocks, and the contexts that they come to.

ghost use Rattle.std.specs.Prelude.{◌≡◌, ◌≤◌, true, List, [], ◌∷◌, ℕ, IfOk, IfSome};
ghost use Rattle.lois_base.specs.Fits.{Fits};
ghost use Rattle.lois_base.specs.Tree.{tree};
ghost use Rattle.lois_context.specs.ItemCounts.{comps_in};
ghost use Rattle.lois_script.specs.Limits.{Spells};
ghost use Rattle.lois_script.specs.Tree.{ExprD, CondD, StmtsD, «let», if};
ghost use Rattle.lois_script.specs.View.{params_list, script_tree, stmts_of, stmts_list};
ghost use Rattle.lois_script.specs.Lists.{stmt_tree};
ghost use Rattle.lois_interp.specs.Opened.{IsOpening};

use crate::making::{chosen, script_of};
use lois_answers::Lines;
use lois_base::{Comp, Comps, Constraint, Name, NoMemory, Numbers, Term, is_name};
use lois_context::{Context, Shared, Slot, Store};
use lois_deciders::Chosen;
use lois_interp::run_block;
use lois_meaning::Stop;
use lois_order::OrderAtoms;
use lois_scope::Scoped;
use lois_script::{Params, Stmt, Stmts};
use std::alloc::Global;
use std::process::Abort;
use std::test::Fail;

// The context in which a script with two parameters begins.
fn opening(alloc: Global, parameters: &Params) -> Result<Option<Context>, NoMemory>
    ensures { IfOk result (λ o. IfSome o (IsOpening (params_list parameters.now))) }
{
    let [a, b] = parameters.as_slice() else {
        return Ok(None);
    };
    if a.name == b.name {
        return Ok(None);
    }
    let mut sample = Numbers::new(alloc);
    sample.push(0)?;
    sample.push(0)?;
    let mut store = Store::new(alloc);
    let first = Slot::new(alloc, a.name.copy(alloc)?, Term::Var(0), 0)?;
    store.push(first)?;
    let second = Slot::new(alloc, b.name.copy(alloc)?, Term::Var(1), 0)?;
    store.push(second)?;
    let lines = Shared::new(alloc, Lines::new(alloc))?;
    Ok(Some(Context {
        size: 2,
        when: Constraint::always(alloc)?,
        sample,
        store,
        lines,
    }))
}

// Runs the body of a script with two parameters.
fn body_ran(
    alloc: Global,
    script: &Scoped,
    chosen: &mut Chosen,
) -> Result<Option<Vec<Context>>, Stop>
    requires spelled { (text : List ℕ) × Spells text (script_tree script.now) }
    requires structure { (script_tree script.now).ordered ≡ true }
{
    let script = script.script();
    let Some(context) = opening(alloc, &script.parameters)? else {
        return Ok(None);
    };
    Ok(Some(run_block::<OrderAtoms>(alloc, &script.body, context, chosen)?))
}

// The name of a `let`.
fn let_name(stmt: &Stmt) -> Option<&Name>
    ensures { IfSome result (λ x. (p : ℕ) × (e : ExprD) × (stmt_tree stmt.now ≡ «let» p x.now e)) }
{
    match stmt {
        Stmt::Let(_pos, name, _given) => Some(name),
        _ => None,
    }
}

// The first side of an `if`.
fn if_side(stmt: &Stmt) -> Option<&Stmts>
    ensures { IfSome result (λ l. (c : CondD) × (other : StmtsD) × (stmt_tree stmt.now ≡ (if) c (stmts_of (stmts_list l.now)) other)) }
{
    match stmt {
        Stmt::If(_condition, side, _other) => Some(side),
        _ => None,
    }
}

// The context of one name, which holds a set, of which so many comprehensions are from outside of a loop.
fn context_of(alloc: Global, name: &Name, set: Term, from: usize) -> Result<Context, NoMemory>
    requires levels { Fits 0 (tree set) }
    requires from { from ≤ comps_in (tree set) }
    ensures size { IfOk result (λ k. k.size ≡ 0) }
    ensures always { IfOk result (λ k. k.when ≡ [] ∷ []) }
    ensures store { IfOk result (λ k. k.store ≡ record { name = name.now; term = tree set; from = from } ∷ []) }
    ensures lines { IfOk result (λ k. k.lines ≡ []) }
{
    let mut store = Store::new(alloc);
    let slot = Slot::new(alloc, name.copy(alloc)?, set, from)?;
    store.push(slot)?;
    let lines = Shared::new(alloc, Lines::new(alloc))?;
    Ok(Context {
        size: 0,
        when: Constraint::always(alloc)?,
        sample: Numbers::new(alloc),
        store,
        lines,
    })
}

// How many comprehensions a set has.
fn count_of(set: &Term) -> usize
    ensures { result ≡ comps_in (tree set.now) }
{
    match set {
        Term::Coll(comps) => comps.len(),
        _ => 0,
    }
}

// Runs the first side of the `if` of a script `let NAME = ..; if .. { .. }` without parameters, where the name holds a set from
// outside of a loop.
fn side_ran(
    alloc: Global,
    script: &Scoped,
    set: Term,
    chosen: &mut Chosen,
) -> Result<Option<Vec<Context>>, Stop>
    requires spelled { (text : List ℕ) × Spells text (script_tree script.now) }
    requires structure { (script_tree script.now).ordered ≡ true }
    requires levels { Fits 0 (tree set) }
{
    let script = script.script();
    if script.parameters.len() > 0 {
        return Ok(None);
    }
    let (Some(first), Some(second)) = (script.body.get(0), script.body.get(1)) else {
        return Ok(None);
    };
    let (Some(name), Some(side)) = (let_name(first), if_side(second)) else {
        return Ok(None);
    };
    let from = count_of(&set);
    let context = context_of(alloc, name, set, from)?;
    Ok(Some(run_block::<OrderAtoms>(alloc, side, context, chosen)?))
}

// `{'a, 'b}`
fn two_tags(rt: &impl Abort, alloc: Global) -> Result<Term, NoMemory> {
    let mut comps = Comps::new(alloc);
    for letter in [b"a", b"b"] {
        assert!(rt; is_name(letter));
        comps.push(Comp {
            binders: 0,
            guard: Constraint::always(alloc)?,
            item: Term::Tag(Name::from_bytes(alloc, letter)?),
        })?;
    }
    Ok(Term::Coll(comps))
}

// The comprehensions of the only slot, in the only context.
fn kept_comprehensions(
    alloc: Global,
    contexts: &[Context],
    from: usize,
) -> Result<Option<Comps>, NoMemory> {
    let [context] = contexts else {
        return Ok(None);
    };
    let [slot] = context.store.as_slice() else {
        return Ok(None);
    };
    if slot.from != from {
        return Ok(None);
    }
    match slot.term.copy(alloc)? {
        Term::Coll(comps) => Ok(Some(comps)),
        _ => Ok(None),
    }
}

fn contexts_of(alloc: Global, text: &str, chosen: &mut Chosen) -> Result<Vec<Context>, Fail> {
    let Some(script) = script_of(alloc, text.as_bytes()) else {
        return Err("no script".into());
    };
    if !script.script().order {
        return Err("no order".into());
    }
    match body_ran(alloc, &script, chosen) {
        Ok(Some(contexts)) => Ok(contexts),
        Ok(None) => Err("not two parameters".into()),
        Err(_) => Err("it failed".into()),
    }
}

// No two contexts of the answer hold the same, also after the names of the block are cut: the parameters alone are left.
#[test]
fn blocks_end_in_different_contexts(rt: HostRuntime) -> Result<(), Fail> {
    let alloc = rt.alloc();
    let mut chosen = chosen(alloc)?;
    // how many contexts there are, and how many lines each has
    let rows = [
        ("", 1, 0),
        ("if a < b { let t = 'x; } else { let t = 'y; }", 1, 0),
        ("if a < b { print a; } else { print b; }", 2, 1),
        ("let v = 'no; if a < b { v := 'yes; } print v;", 2, 1),
        (
            "let v = 'no; if a < b { v := 'yes; } if v = 'no { print a; print b; } else { print b; print a; }",
            2,
            2,
        ),
        (
            "let s = {}; for x in atoms { if x < a { add x to s; } } let t = s;",
            1,
            0,
        ),
    ];
    for (statements, contexts, lines) in rows {
        let text = format!(in alloc; "atoms order; parameter a, b; {statements}")?;
        let ends = contexts_of(alloc, &text, &mut chosen)?;
        assert_eq!(rt; ends.len(), contexts, "{statements}");
        for end in &ends {
            assert_eq!(rt; end.size, 2, "{statements}");
            assert_eq!(rt; end.store.len(), 2, "{statements}");
            assert_eq!(rt; end.lines.get().len(), lines, "{statements}");
        }
    }
    Ok(())
}

// A set from outside of a loop keeps its first comprehensions, and how many they are, also through loops inside.
#[test]
fn slots_keep_what_stood_outside(rt: HostRuntime) -> Result<(), Fail> {
    let alloc = rt.alloc();
    let mut chosen = chosen(alloc)?;
    // how many comprehensions are added
    let rows = [
        ("add 'c to s;", 1),
        (
            "for x in atoms { add x to s; for y in atoms where x < y { add (x, y) to s; } }",
            2,
        ),
        (
            "for x in atoms { let t = {}; for y in atoms { add y to t; } add t to s; }",
            1,
        ),
        (
            "let v = 'a; while v = 'a turns 2 { for x in atoms { add x to s; } v := 'b; }",
            1,
        ),
    ];
    for (statements, more) in rows {
        let text = format!(in alloc; "atoms order; let s = {}; if true {{ {statements} }}", "{}")?;
        let Some(script) = script_of(alloc, text.as_bytes()) else {
            return Err("no script".into());
        };
        let set = two_tags(&rt, alloc)?;
        assert!(rt; script.script().order && set.fits(0));
        let Ok(Some(contexts)) = side_ran(alloc, &script, set, &mut chosen) else {
            return Err("it didn't run".into());
        };
        let Some(comps) = kept_comprehensions(alloc, &contexts, 2)? else {
            panic!(rt; "not one set from outside: {statements}");
        };
        assert_eq!(rt; comps.len(), 2 + more, "{statements}");
        for (comp, letter) in comps.as_slice().iter().zip([b"a", b"b"]) {
            assert!(rt;
                matches!(&comp.item, Term::Tag(name) if name.bytes() == letter.as_slice()),
                "{statements}"
            );
        }
    }
    Ok(())
}
