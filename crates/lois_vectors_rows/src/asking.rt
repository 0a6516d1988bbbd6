//! Deciders of the tests' own, which give up at some questions: what the run doesn't ask them can't stop it.

ghost use Rattle.lois_base.specs.Fits.{CubeFits};
ghost use Rattle.lois_base.specs.declared.deciding.Kind.{Kind};

use crate::automata::EQUAL_ENDS;
use crate::calling::{asked, called};
use lois_base::{Cube, Decider, Kind, NoMemory};
use lois_deciders::GraphDecider;
use std::alloc::Global;
use std::test::Fail;

const PARTED: &[u8] =
    b"atoms equality; parameter a, b; let s = {}; if a = b { add 'eq to s; } else { add 'ne to s; } print s;";

const ROUND: &[u8] =
    b"atoms order; let s = {part(x, 1) for x in atoms, y in atoms, z in atoms where x < y and y < z and z < x}; print s;";

// At which questions a decider gives up.
#[derive(Clone, Copy)]
enum When {
    Never,
    Always,
    // at a cube of two levels that holds where they are equal alone, or where the first is below the second alone
    Parts,
    // at a cube of three levels that holds nowhere
    Unmet,
    // at its third question
    Third,
}

// Answers as a graph decider does, but gives up at some questions.
#[derive(Drop)]
struct Tired {
    when: When,
    graph: GraphDecider,
    asked: u64,
}

fn gives_up(when: When, asked: u64, cube: &Cube, size: usize, sample: &Option<Vec<u64>>) -> bool
    requires { CubeFits size cube.now }
{
    match when {
        When::Never => false,
        When::Always => true,
        When::Parts => size == 2 && cube.at(&[0, 0]) != cube.at(&[0, 1]),
        When::Unmet => size == 3 && sample.is_none(),
        When::Third => asked == 3,
    }
}

impl Decider for Tired {
    ghost kind_of = { λ _. Kind.Graph };

    ghost questions = { λ d. d.asked };

    fn name(&self) -> Kind {
        Kind::Graph
    }

    fn satisfiable(
        &mut self,
        alloc: Global,
        cube: &Cube,
        size: usize,
    ) -> Result<Option<Vec<u64>>, NoMemory> {
        self.asked = self.asked.saturating_add(1);
        let sample = self.graph.satisfiable(alloc, cube, size)?;
        if gives_up(self.when, self.asked, cube, size, &sample) {
            return Err(NoMemory);
        }
        Ok(sample)
    }

    fn asked(&self) -> u64 {
        self.asked
    }
}

// The only decider.
fn only_tired(alloc: Global, when: When) -> Result<Vec<Box<dyn Decider>>, NoMemory> {
    let decider: Box<dyn Decider> = Box::new(
        alloc,
        Tired {
            when,
            graph: GraphDecider::new(),
            asked: 0,
        },
    )?;
    let mut deciders = Vec::new(alloc);
    deciders.push(decider)?;
    Ok(deciders)
}

#[test]
fn the_question_on_which_a_run_turns_is_asked(rt: HostRuntime) -> Result<(), Fail> {
    let alloc = rt.alloc();
    let rows: [(When, &[&str], &[u8]); 6] = [
        (When::Parts, &["run"], PARTED),
        (When::Unmet, &["run"], ROUND),
        (When::Always, &["run"], PARTED),
        (When::Always, &["run"], ROUND),
        (When::Always, &["make", "3"], b""),
        (When::Third, &["run"], EQUAL_ENDS.as_bytes()),
    ];
    for (when, words, text) in rows {
        let told = called(alloc, words, text, &[], only_tired(alloc, when)?)?;
        assert_eq!(rt; told.status, 8);
        assert!(rt; told.held.is_empty());
    }
    Ok(())
}

// A decider that never gives up stops none of them.
#[test]
fn a_run_whose_questions_are_answered_completes(rt: HostRuntime) -> Result<(), Fail> {
    let alloc = rt.alloc();
    let rows: [(&[&str], &[u8]); 4] = [
        (&["run"], PARTED),
        (&["run"], ROUND),
        (&["make", "3"], b""),
        (&["run"], EQUAL_ENDS.as_bytes()),
    ];
    for (words, text) in rows {
        let told = called(alloc, words, text, &[], only_tired(alloc, When::Never)?)?;
        let usual = asked(alloc, words, text)?;
        assert_eq!(rt; told.status, 0);
        assert_eq!(rt; told.held.as_slice(), usual.held.as_slice());
    }
    Ok(())
}
