//! The values of expressions.

use crate::making::{Answer, chosen, constraint_of, opening, same_where, term_of, tried};
use std::alloc::Global;
use std::process::Abort;
use std::test::Fail;

// Whether the expression has the value at each choice of `a` and `b`.
fn has_value(rt: &impl Abort, alloc: Global, expression: &str, value: &str) -> Result<bool, Fail> {
    let mut chosen = chosen(alloc)?;
    let context = opening(rt, alloc, &mut chosen)?;
    let text = format!(in alloc; "atoms order; let v = {expression};")?;
    match tried(alloc, &text, &context, &mut chosen)? {
        Answer::Value(found) => same_where(
            rt,
            alloc,
            &constraint_of(alloc, "true")?,
            &found,
            &term_of(alloc, value)?,
            &mut chosen,
        ),
        _ => Ok(false),
    }
}

#[test]
fn expressions_have_their_values(rt: HostRuntime) -> Result<(), Fail> {
    let cases = [
        ("atoms", "{$2 for $2}"),
        ("a", "a"),
        ("'t", "'t"),
        ("(b, 't, a)", "(b, 't, a)"),
        ("{}", "{}"),
        ("{a, b}", "{b, a}"),
        ("{a, a, {b, a}}", "{{a, b}, a}"),
        ("part((a, b), 2)", "b"),
        ("union({a}, {b})", "{a, b}"),
        ("inter({a, 't}, {b, 't})", "{'t, a if a=b}"),
        ("minus({a, 't}, {b})", "{'t, a if a!=b}"),
        ("flatten({{a}, {}, {b}})", "{a, b}"),
    ];
    for (expression, value) in cases {
        assert!(rt;
            has_value(&rt, rt.alloc(), expression, value)?,
            "{expression}"
        );
    }
    Ok(())
}

#[test]
fn comprehensions_have_their_values(rt: HostRuntime) -> Result<(), Fail> {
    let cases = [
        (
            "{x for x in atoms where a < x and x < b}",
            "{$2 for $2 if a<$2 and $2<b}",
        ),
        (
            "{(x, y) for x in atoms, y in atoms where x != y}",
            "{($2, $3) for $2 $3 if $2!=$3}",
        ),
        (
            "{{y for y in atoms where x < y} for x in atoms}",
            "{{$3 for $3 if $2<$3} for $2}",
        ),
        // a set for each member that the binder before it gives
        (
            "{(x, y) for x in {{a}, {b, 't}}, y in x}",
            "{({a}, a), ({b, 't}, b), ({b, 't}, 't)}",
        ),
        (
            "union({{(x, x)} for x in atoms}, {{(x, y) for y in atoms where x != y} for x in atoms})",
            "{{($2, $2)} for $2, {($2, $3) for $3 if $2!=$3} for $2}",
        ),
        (
            "flatten({{y for y in atoms where x < y} for x in {a, b}})",
            "{$2 for $2 if a<$2 or b<$2}",
        ),
        (
            "minus(atoms, {x for x in atoms where x < a})",
            "{a, $2 for $2 if a<$2}",
        ),
        // what has no members doesn't fail
        (
            "{part(x, 1) for x in atoms, y in atoms, z in atoms where x < y and y < z and z < x}",
            "{}",
        ),
        ("{part(x, 1) for x in {}}", "{}"),
        ("{'t for x in {}, y in x where y < 't}", "{}"),
    ];
    for (expression, value) in cases {
        assert!(rt;
            has_value(&rt, rt.alloc(), expression, value)?,
            "{expression}"
        );
    }
    Ok(())
}
