//! Each call once with ample memory, on worked texts.

use crate::making::{guard, lines, lit, name, names, numbers, set};
use lois_answers::{Case, Cases, FaultKind, Line, Lines, Results, Trace};
use lois_base::{Lit, Names, NoMemory, Op, Term};
use lois_printer::{print_results, print_trace};
use std::alloc::Global;
use std::process::Abort;
use std::test::Fail;

fn below(left: usize, right: usize) -> Lit {
    lit(Op::Lt, left, right)
}

// the atoms at level 2 between those at levels 0 and 1
fn interval(alloc: Global) -> Result<Term, NoMemory> {
    set(alloc, 1, &[below(0, 2), below(2, 1)], Term::Var(2))
}

fn one_case(rt: &impl Abort, alloc: Global) -> Result<Cases, NoMemory> {
    let mut cases = Cases::new(alloc);
    cases.push(Case {
        when: guard(alloc, &[])?,
        lines: lines(rt, alloc, b"i", interval(alloc)?)?,
    })?;
    Ok(cases)
}

#[test]
fn an_interval_is_printed(rt: HostRuntime) -> Result<(), Fail> {
    let alloc = rt.alloc();
    let results = Results {
        order: true,
        parameters: names(&rt, alloc, &[b"a", b"b"])?,
        cases: one_case(&rt, alloc)?,
    };
    assert!(rt; results.sound());
    let text = print_results(alloc, &results)?;
    assert_eq!(rt;
        text.as_slice(),
        b"lois results 1\natoms order\nparameters a b\ncase when true\ni = {$2 for $2 if a<$2 and $2<b}\nend\n".as_slice()
    );
    Ok(())
}

fn two_elements(rt: &impl Abort, alloc: Global) -> Result<Lines, NoMemory> {
    let mut elements = lines(rt, alloc, b"x", Term::Var(0))?;
    elements.push(Line {
        name: name(rt, alloc, b"y")?,
        term: Term::Var(1),
    })?;
    Ok(elements)
}

#[test]
fn a_failure_in_two_loops_is_printed(rt: HostRuntime) -> Result<(), Fail> {
    let alloc = rt.alloc();
    let trace = Trace {
        order: false,
        parameters: Names::new(alloc),
        line: 1,
        column: 51,
        kind: FaultKind::Assertion,
        sample: numbers(alloc, &[0, 1])?,
        elements: two_elements(&rt, alloc)?,
    };
    assert!(rt; trace.sound());
    let text = print_trace(alloc, &trace)?;
    assert_eq!(rt;
        text.as_slice(),
        b"lois results 2\natoms equality\nparameters\nfailed at 1:51: assertion failed\nchoice 0 1\nfor x = $0\nfor y = $1\nend\n".as_slice()
    );
    Ok(())
}
