//! The literal that denies another one.

ghost use Rattle.std.specs.Prelude.{◌≡◌};
ghost use Rattle.lois_constraint.specs.Alternatives.{denial};

use lois_base::{Lit, Op};

/// The literal that holds exactly where the given one doesn't. `<` and `<=` come from one another alone.
#[inline(always)]
pub(crate) fn denial(lit: Lit) -> Lit
    ensures { result ≡ denial lit }
{
    let Lit { op, left, right } = lit;
    match op {
        Op::Eq => Lit {
            op: Op::Ne,
            left,
            right,
        },
        Op::Ne => Lit {
            op: Op::Eq,
            left,
            right,
        },
        Op::Lt => Lit {
            op: Op::AtMost,
            left: right,
            right: left,
        },
        Op::AtMost => Lit {
            op: Op::Lt,
            left: right,
            right: left,
        },
    }
}
