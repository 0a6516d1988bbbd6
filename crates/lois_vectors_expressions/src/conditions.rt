//! Where conditions are true.

use crate::making::{Answer, chosen, constraint_of, entails, opening, tried};
use std::alloc::Global;
use std::process::Abort;
use std::test::Fail;

// Whether the condition is true exactly at those choices of `a` and `b` at which the constraint holds.
fn has_truth(
    rt: &impl Abort,
    alloc: Global,
    condition: &str,
    constraint: &str,
) -> Result<bool, Fail> {
    let mut chosen = chosen(alloc)?;
    let context = opening(rt, alloc, &mut chosen)?;
    let text = format!(in alloc; "atoms order; assert {condition};")?;
    let wanted = constraint_of(alloc, constraint)?;
    match tried(alloc, &text, &context, &mut chosen)? {
        Answer::Truth(found) => {
            let sound = entails(rt, alloc, &found, &wanted, &mut chosen)?;
            let complete = entails(rt, alloc, &wanted, &found, &mut chosen)?;
            Ok(sound && complete)
        }
        _ => Ok(false),
    }
}

#[test]
fn conditions_have_their_truths(rt: HostRuntime) -> Result<(), Fail> {
    let cases = [
        ("true", "true"),
        ("false", "false"),
        ("a = b", "a=b"),
        ("a != b", "a!=b"),
        ("a < b", "a<b"),
        ("{a, b} = {b}", "a=b"),
        ("(a, {b}) != (b, {a})", "a!=b"),
        // of different kinds
        ("a = 't", "false"),
        ("{a} = (a, b)", "false"),
        ("a in {b, 't}", "a=b"),
        ("{a} in {{x} for x in atoms where x < b}", "a<b"),
        ("{a} subset {b}", "a=b"),
        (
            "{x for x in atoms where a < x} subset {x for x in atoms where b < x}",
            "b<a or a=b",
        ),
        ("not a < b", "b<a or a=b"),
        ("a < b or b < a", "a!=b"),
        ("a = b and a < b", "false"),
        ("[a < b or a = b] and not a = b", "a<b"),
    ];
    for (condition, constraint) in cases {
        assert!(rt;
            has_truth(&rt, rt.alloc(), condition, constraint)?,
            "{condition}"
        );
    }
    Ok(())
}

#[test]
fn quantifiers_have_their_truths(rt: HostRuntime) -> Result<(), Fail> {
    let cases = [
        ("exists x in atoms: [a < x and x < b]", "a<b"),
        ("forall x in atoms: [a < x or x < b]", "a<b"),
        ("forall x in {a, b}: x = a", "a=b"),
        ("exists x in {a, 't}: x = b", "a=b"),
        ("exists x in {y for y in atoms where y < y}: true", "false"),
        ("forall x in {}: x < 't", "true"),
        ("forall x in atoms: [exists y in atoms: y < x]", "true"),
        (
            "atoms = {y for y in atoms where [exists z in atoms: z < y]}",
            "true",
        ),
        (
            "forall x in {y for y in atoms where y < b}: x < a",
            "a=b or b<a",
        ),
    ];
    for (condition, constraint) in cases {
        assert!(rt;
            has_truth(&rt, rt.alloc(), condition, constraint)?,
            "{condition}"
        );
    }
    Ok(())
}
