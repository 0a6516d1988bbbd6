//! Automata: whether a value is one, its reachable states, whether it accepts a word, products and complements.
#![tactic(auto)]

mod checks;
mod conditions;
mod frontier;
mod joining;
mod keys;
mod memberships;
mod operations;
mod pairing;
mod parts;
mod projections;
mod reaching;
mod unmatched;
mod verdicts;

pub use checks::{check_automaton, check_complete, check_deterministic};
pub use conditions::where_same;
pub use frontier::targets_from;
pub use memberships::{insert_levels, membership};
pub use operations::{complement, empty, product, reach};
pub use pairing::{PairedComp, pair_comps, pair_steps, pairs};
pub use parts::{
    FiveSets, Step, StepTerms, five, into_step, of_five, pair, pair_of_terms, pair_parts,
    step_parts, triple, triple_of_terms,
};
pub use projections::{Projection, non_triples, project_steps};
pub use reaching::reachable_set;
pub use verdicts::Verdict;
