//! What LOIS scripts mean: stores, values, failures and runs, with the laws. What scripts are stands in `lois_script`, what
//! runs answer in `lois_answers`; their names are reachable here too.
#![tactic(auto)]

mod faults;
pub mod laws;

pub use faults::{Fault, Stop};
pub use lois_answers::{
    Answer, Case, Cases, FaultKind, Line, Lines, Results, Trace, is_sound_term, tags_are_names,
    texts,
};
pub use lois_script::{
    Binding, Bindings, Cond, Conds, Expr, Exprs, Operation, Param, Params, Pos, Script, Stmt, Stmts,
};
