//! Results from the contexts in which a script ends.

ghost use Rattle.std.specs.Prelude.{◌≡◌, map, IfOk};
ghost use Rattle.std.specs.List.{AllZip};
ghost use Rattle.lois_answers.specs.CaseView.{case_of};
ghost use Rattle.lois_script.specs.View.{params_list, script_tree};
ghost use Rattle.lois_interp.specs.Interpreted.{parameter_name};
ghost use Rattle.lois_interp.specs.Printed.{IsCaseOf};

use lois_answers::{Case, Cases, Results};
use lois_base::{Constraint, Names, NoMemory};
use lois_context::Context;
use lois_script::{Params, Script};
use lois_simplify::shortest;
use std::alloc::Global;

/// A case for each context.
pub(crate) fn results(
    alloc: Global,
    script: &Script,
    contexts: Vec<Context>,
) -> Result<Results, NoMemory>
    ensures order { IfOk result (λ r. r.order ≡ (script_tree script.now).ordered) }
    ensures parameters { IfOk result (λ r. r.parameters ≡ map parameter_name (script_tree script.now).parameters) }
    ensures cases { IfOk result (λ r. AllZip IsCaseOf contexts.items r.cases) }
{
    Ok(Results {
        order: script.order,
        parameters: parameter_names(alloc, &script.parameters)?,
        cases: cases(alloc, contexts)?,
    })
}

/// The names of a script's parameters. Errors: `NoMemory`.
pub fn parameter_names(alloc: Global, parameters: &Params) -> Result<Names, NoMemory>
    ensures names { IfOk result (λ r. r ≡ map parameter_name (params_list parameters.now)) }
{
    let mut names = Names::new(alloc);
    for parameter in parameters.as_slice() {
        names.push(parameter.name.copy(alloc)?)?;
    }
    Ok(names)
}

fn cases(alloc: Global, contexts: Vec<Context>) -> Result<Cases, NoMemory>
    ensures { IfOk result (λ r. AllZip IsCaseOf contexts.items r) }
{
    let mut cases = Cases::new(alloc);
    for context in contexts {
        cases.push(one_case(alloc, context)?)?;
    }
    Ok(cases)
}

fn one_case(alloc: Global, context: Context) -> Result<Case, NoMemory>
    ensures { IfOk result (λ r. IsCaseOf context (case_of r)) }
{
    let anywhere = Constraint::always(alloc)?;
    let when = shortest(alloc, &context.when, &anywhere)?;
    let Context { lines, .. } = context;
    Ok(Case {
        when,
        lines: lines.into_lines(alloc)?,
    })
}
