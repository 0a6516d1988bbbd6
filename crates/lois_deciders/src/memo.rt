//! The decider that keeps its answers.

ghost use Rattle.std.specs.Prelude.{◌≡◌, ◌≤◌, ◌⊎◌, ◌↔◌, [], IfOk, IfSome, IsNone};
ghost use Rattle.std.specs.List.{All};
ghost use Rattle.std.specs.Option.{option_map};
ghost use Rattle.lois_base.specs.Fits.{CubeFits};
ghost use Rattle.lois_base.specs.Theory.{IsSampleOf, risen};
ghost use Rattle.lois_base.specs.declared.deciding.Kind.{Kind};
ghost use Rattle.lois_deciders.specs.Kept.{IsRightEntry, Answers};
ghost use Rattle.lois_deciders.specs.Labels.{IsUnmet};
ghost use Rattle.lois_deciders.specs.Remembering.{HasPut, KeepsAnswers};

use crate::graph::GraphDecider;
use crate::questions::Question;
use lois_base::{Cube, Decider, Kind, NoMemory};
use lru::LruCache;
use std::alloc::Global;
use std::num::NonZeroUsize;

/// Keeps the answers that were used last, and asks a graph decider for the others.
#[derive(Drop)]
pub struct MemoDecider {
    answers: LruCache<Question, Option<Vec<u64>>>,
    graph: GraphDecider,
    asked: u64,
    ghost right: { All IsRightEntry answers.entries },
}

impl MemoDecider {
    /// A decider that was asked nothing yet, and that will keep at most `capacity` answers. Errors: `NoMemory`.
    pub fn new(alloc: Global, capacity: usize) -> Result<Self, NoMemory>
        requires { 1 ≤ capacity }
        ensures asked { IfOk result (λ d. d.asked ≡ 0) }
        ensures empty { IfOk result (λ d. d.answers.entries ≡ []) }
        ensures capacity { IfOk result (λ d. d.answers.cap ≡ capacity) }
    {
        Ok(MemoDecider {
            answers: LruCache::sparse(alloc, NonZeroUsize::new(capacity).unwrap())?,
            graph: GraphDecider::new(),
            asked: 0,
        })
    }
}

fn copied(alloc: Global, answer: &Option<Vec<u64>>) -> Result<Option<Vec<u64>>, NoMemory>
    ensures { IfOk result (λ o. option_map (λ v. v.items) o ≡ option_map (λ v. v.items) answer.now) }
{
    match answer {
        None => Ok(None),
        Some(sample) => Ok(Some(Vec::from_slice(alloc, sample.as_slice())?)),
    }
}

// Without memory for one more answer, those that are kept stay as they are.
fn keep(
    answers: &mut LruCache<Question, Option<Vec<u64>>>,
    alloc: Global,
    question: Question,
    answer: &Option<Vec<u64>>,
)
    requires kept { All IsRightEntry answers.old.entries }
    requires answer { Answers question answer.now }
    ensures right { All IsRightEntry answers.new.entries }
    ensures entries { (answers.new ≡ answers.old) ⊎ HasPut question answer.now answers.old answers.new }
{
    if let Ok(copy) = copied(alloc, answer) {
        let _ = answers.put(question, copy);
    }
}

impl Decider for MemoDecider {
    ghost kind_of = { λ _. Kind.Memo };

    ghost questions = { λ d. d.asked };

    fn name(&self) -> Kind {
        Kind::Memo
    }

    fn satisfiable(
        &mut self,
        alloc: Global,
        cube: &Cube,
        size: usize,
    ) -> Result<Option<Vec<u64>>, NoMemory>
        requires { CubeFits size cube.now }
        ensures sample { IfOk result (λ o. IfSome o (λ s. IsSampleOf size cube.now s.items)) }
        ensures none { IfOk result (λ o. IsNone o ↔ IsUnmet size cube.now) }
        ensures asked { self.new.asked ≡ risen self.old.asked }

        // No answer is lost but for the one that another pushes out of a full list.
        ensures kept { KeepsAnswers size cube.now self.old.answers self.new.answers }
    {
        self.asked = self.asked.saturating_add(1);
        let question = Question::new(alloc, cube, size)?;
        if let Some(kept) = self.answers.peek(&question) {
            let answer = copied(alloc, kept)?;
            self.answers.promote(&question);
            return Ok(answer);
        }
        let answer = self.graph.satisfiable(alloc, cube, size)?;
        keep(&mut self.answers, alloc, question, &answer);
        Ok(answer)
    }

    fn asked(&self) -> u64 {
        self.asked
    }
}
