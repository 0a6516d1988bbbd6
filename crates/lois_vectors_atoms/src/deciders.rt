//! The deciders on worked cubes, and which of them is asked.

use crate::making::{Comparison, constraint_of, cube_of, lit};
use lois_base::Op::{self, Eq, Lt, Ne};
use lois_base::{Constraint, Cube, Decider, Kind, NoMemory};
use lois_deciders::{Chosen, GraphDecider, MemoDecider, PlainDecider, SampledConstraint};
use std::alloc::Global;
use std::process::Abort;
use std::test::Fail;

// Each of the first levels stands in the relation to the next one, and at last one literal more.
fn chain(alloc: Global, op: Op, steps: usize, last: Comparison) -> Result<Cube, NoMemory> {
    let mut cube = Cube::new(alloc);
    for left in 0..steps {
        cube.push(lit((left, op, left.saturating_add(1))))?;
    }
    cube.push(lit(last))?;
    Ok(cube)
}

// Whether the decider finds a sample, at which the cube then holds.
fn is_met<D: Decider>(
    rt: &impl Abort,
    alloc: Global,
    decider: &mut D,
    cube: &Cube,
    size: usize,
) -> Result<bool, NoMemory> {
    assert!(rt; cube.fits(size));
    let before = decider.asked();
    let found = decider.satisfiable(alloc, cube, size)?;
    assert_eq!(rt; decider.asked(), before.saturating_add(1));
    let Some(sample) = found else {
        return Ok(false);
    };
    assert_eq!(rt; sample.len(), size);
    assert!(rt; cube.at(&sample));
    Ok(true)
}

// The memo decider says so twice.
fn memo_says(
    rt: &impl Abort,
    alloc: Global,
    memo: MemoDecider,
    cube: &Cube,
    size: usize,
    met: bool,
) -> Result<(), NoMemory> {
    let mut memo = memo;
    for _ in 0..2 {
        assert_eq!(rt; is_met(rt, alloc, &mut memo, cube, size)?, met);
    }
    Ok(())
}

fn says<D: Decider>(
    rt: &impl Abort,
    alloc: Global,
    decider: D,
    cube: &Cube,
    size: usize,
    met: bool,
) -> Result<(), NoMemory> {
    let mut decider = decider;
    assert_eq!(rt; is_met(rt, alloc, &mut decider, cube, size)?, met);
    Ok(())
}

// Each decider says so.
fn all_say(
    rt: &impl Abort,
    alloc: Global,
    cube: &Cube,
    size: usize,
    met: bool,
) -> Result<(), NoMemory> {
    memo_says(rt, alloc, MemoDecider::new(alloc, 2)?, cube, size, met)?;
    says(rt, alloc, GraphDecider::new(), cube, size, met)?;
    says(rt, alloc, PlainDecider::new(), cube, size, met)
}

#[test]
fn short_cubes_are_decided(rt: HostRuntime) -> Result<(), Fail> {
    let alloc = rt.alloc();
    let rows: [(&[Comparison], usize, bool); 4] = [
        (&[(0, Lt, 1), (1, Lt, 2), (0, Ne, 3)], 4, true),
        (&[(0, Lt, 1), (1, Eq, 2), (2, Lt, 0)], 3, false),
        (&[(0, Eq, 1), (1, Ne, 0)], 2, false),
        (&[], 0, true),
    ];
    for (literals, size, met) in rows {
        let cube = cube_of(alloc, literals)?;
        all_say(&rt, alloc, &cube, size, met)?;
    }
    Ok(())
}

#[test]
fn long_chains_are_decided(rt: HostRuntime) -> Result<(), Fail> {
    let alloc = rt.alloc();
    let rows = [
        (Lt, (0, Ne, 199), true),
        (Lt, (199, Lt, 0), false),
        (Eq, (199, Eq, 0), true),
        // the one fault: the first of the equal levels is apart from the last
        (Eq, (0, Ne, 199), false),
    ];
    for (op, last, met) in rows {
        let cube = chain(alloc, op, 199, last)?;
        all_say(&rt, alloc, &cube, 200, met)?;
    }
    Ok(())
}

// Each two of so many levels are apart.
fn all_apart(alloc: Global, levels: usize) -> Result<Cube, NoMemory> {
    let mut apart = Cube::new(alloc);
    for right in 0..levels {
        for left in 0..right {
            apart.push(lit((left, Ne, right)))?;
        }
    }
    Ok(apart)
}

// A chain of 500 levels, and 1500 literals that compare levels with the last one.
fn wide(alloc: Global) -> Result<Cube, NoMemory> {
    let mut wide = chain(alloc, Lt, 499, (0, Ne, 499))?;
    for left in 0..1500 {
        wide.push(lit((left / 4, Lt, 499)))?;
    }
    Ok(wide)
}

#[test]
fn many_literals_are_decided(rt: HostRuntime) -> Result<(), Fail> {
    let alloc = rt.alloc();
    all_say(&rt, alloc, &all_apart(alloc, 60)?, 60, true)?;
    let wide = wide(alloc)?;
    assert_eq!(rt; wide.len(), 2000);
    let memo = MemoDecider::new(alloc, 1)?;
    Ok(memo_says(&rt, alloc, memo, &wide, 500, true)?)
}

// Two questions, of which the memo decider can keep one.
#[test]
fn kept_answers_are_those_of_the_graph_decider(rt: HostRuntime) -> Result<(), Fail> {
    let alloc = rt.alloc();
    let up = cube_of(alloc, &[(0, Lt, 1), (2, Ne, 1)])?;
    let round = cube_of(alloc, &[(0, Lt, 1), (1, Lt, 0)])?;
    assert!(rt; up.fits(3) && round.fits(3));
    let mut memo = MemoDecider::new(alloc, 1)?;
    let mut graph = GraphDecider::new();
    for _ in 0..3 {
        for cube in [&up, &round] {
            let kept = memo.satisfiable(alloc, cube, 3)?;
            assert_eq!(rt; kept, graph.satisfiable(alloc, cube, 3)?);
        }
    }
    assert_eq!(rt; memo.asked(), 6);
    Ok(())
}

fn chosen_of(
    alloc: Global,
    graph: Box<dyn Decider>,
    kind: Option<Kind>,
) -> Result<Option<Chosen>, NoMemory> {
    let mut deciders = Vec::new(alloc);
    deciders.push(graph)?;
    Ok(Chosen::choose(deciders, kind))
}

// The graph decider alone.
fn chosen(alloc: Global) -> Result<Chosen, Fail> {
    let graph: Box<dyn Decider> = Box::new(alloc, GraphDecider::new())?;
    Ok(chosen_of(alloc, graph, None)?.ok_or("no decider")?)
}

#[test]
fn one_is_chosen(rt: HostRuntime) -> Result<(), Fail> {
    let alloc = rt.alloc();
    assert!(rt; Chosen::choose(Vec::new(alloc), None).is_none());
    let rows = [
        (Some(Kind::Memo), false),
        (Some(Kind::Graph), true),
        (None, true),
    ];
    for (kind, found) in rows {
        let graph: Box<dyn Decider> = Box::new(alloc, GraphDecider::new())?;
        assert_eq!(rt; graph.name(), Kind::Graph);
        assert_eq!(rt; chosen_of(alloc, graph, kind)?.is_some(), found, "{kind:?}");
    }
    Ok(())
}

// The first cube can't be met, the second can.
#[test]
fn the_chosen_one_is_asked(rt: HostRuntime) -> Result<(), Fail> {
    let alloc = rt.alloc();
    let mut chosen = chosen(alloc)?;
    let either = constraint_of(alloc, &[&[(0, Lt, 1), (1, Lt, 0)], &[(1, Lt, 0)]])?;
    assert!(rt; either.fits(2));
    let sample = chosen.ask(alloc, &either, 2)?.ok_or("no sample")?;
    assert_eq!(rt; sample.as_slice(), [1, 0].as_slice());
    assert_eq!(rt; chosen.asked(), 2);
    Ok(())
}

// Where the first constraint holds and the second doesn't.
fn counterexample(
    rt: &impl Abort,
    alloc: Global,
    chosen: &mut Chosen,
    first: Comparison,
    second: Comparison,
) -> Result<Option<Vec<u64>>, NoMemory> {
    let c = constraint_of(alloc, &[&[first]])?;
    let d = constraint_of(alloc, &[&[second]])?;
    assert!(rt; c.fits(2) && d.fits(2));
    chosen.entails(alloc, &c, &d, 2)
}

#[test]
fn one_constraint_entails_another(rt: HostRuntime) -> Result<(), Fail> {
    let alloc = rt.alloc();
    let mut chosen = chosen(alloc)?;
    let below = (0, Lt, 1);
    let apart = (0, Ne, 1);
    let none = counterexample(&rt, alloc, &mut chosen, below, apart)?;
    assert!(rt; none.is_none());
    let other = counterexample(&rt, alloc, &mut chosen, apart, below)?;
    assert_eq!(rt;
        other.ok_or("no counterexample")?.as_slice(),
        [1, 0].as_slice()
    );
    assert_eq!(rt; chosen.asked(), 1);
    Ok(())
}

// Taken off one after another, they leave 32 cubes.
const STEPS: [&[Comparison]; 5] = [
    &[(0, Lt, 1), (1, Lt, 2)],
    &[(3, Lt, 4), (4, Lt, 5)],
    &[(6, Lt, 7), (7, Lt, 8)],
    &[(9, Lt, 10), (10, Lt, 11)],
    &[(12, Lt, 13), (13, Lt, 14)],
];

#[test]
fn a_counterexample_is_found_in_a_part(rt: HostRuntime) -> Result<(), Fail> {
    let alloc = rt.alloc();
    let mut chosen = chosen(alloc)?;
    let everywhere = constraint_of(alloc, &[&[]])?;
    let mut steps = constraint_of(alloc, &STEPS)?;
    assert!(rt; everywhere.fits(15) && steps.fits(15));
    let sample = chosen
        .entails(alloc, &everywhere, &steps, 15)?
        .ok_or("no counterexample")?;
    assert!(rt; !steps.at(sample.as_slice()));
    assert_eq!(rt; chosen.asked(), 1);

    // there is none in what is dropped either
    steps.push(Cube::new(alloc))?;
    assert!(rt; steps.fits(15));
    let none = chosen.entails(alloc, &everywhere, &steps, 15)?;
    assert!(rt; none.is_none());
    Ok(())
}

fn meeting(
    rt: &impl Abort,
    alloc: Global,
    chosen: &mut Chosen,
    first: Comparison,
    second: Comparison,
) -> Result<Option<SampledConstraint>, NoMemory> {
    let c = constraint_of(alloc, &[&[first]])?;
    let d = constraint_of(alloc, &[&[second]])?;
    assert!(rt; c.fits(3) && d.fits(3));
    chosen.meet(alloc, &c, &d, 3)
}

// `$0<$1` with `$0!=$2`, and with `$1<$0`
#[test]
fn two_constraints_are_met_at_once(rt: HostRuntime) -> Result<(), Fail> {
    let alloc = rt.alloc();
    let mut chosen = chosen(alloc)?;
    let below = (0, Lt, 1);
    let met = meeting(&rt, alloc, &mut chosen, below, (0, Ne, 2))?.ok_or("the two can be met")?;
    assert_eq!(rt; met.sample.len(), 3);
    assert!(rt; met.constraint.fits(3) && met.constraint.at(met.sample.as_slice()));
    assert!(rt; met.constraint.at(&[0, 1, 2]));
    assert!(rt; !met.constraint.at(&[0, 1, 0]) && !met.constraint.at(&[1, 0, 2]));

    // the contradiction is asked too
    let none = meeting(&rt, alloc, &mut chosen, below, (1, Lt, 0))?;
    assert!(rt; none.is_none());
    assert_eq!(rt; chosen.asked(), 2);
    Ok(())
}
