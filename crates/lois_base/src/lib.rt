//! The vocabulary of LOIS: literals, cubes, constraints, formulas, names and terms.
#![tactic(auto)]

mod deciding;
mod guards;
pub mod laws;
pub mod limits;
mod logic;
mod memory;
mod numbers;
mod theory;
mod values;
mod words;

pub use deciding::{Decider, Kind};
pub use guards::{Constraint, Cube, Lit, Op};
pub use logic::{Formula, Formulas};
pub use memory::NoMemory;
pub use numbers::Numbers;
pub use theory::Structure;
pub use values::{Comp, Comps, Term, Terms};
pub use words::{Name, Names, is_name};
