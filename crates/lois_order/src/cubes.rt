//! Cubes that hold no literal twice.

ghost use Rattle.std.specs.Prelude.{◌≡◌, OnOk, OnErr};
ghost use Rattle.std.specs.List.{list_any};
ghost use Rattle.lois_order.specs.Cubes.{is_apart, is_absurd, IsWith};

use lois_base::{Cube, Lit, NoMemory, Op};

fn is_apart(op: Op) -> bool
    ensures { result ≡ is_apart op }
{
    match op {
        Op::Ne | Op::Lt => true,
        Op::Eq | Op::AtMost => false,
    }
}

/// Whether a literal sets a level below itself or apart from itself.
pub fn contradicts(cube: &Cube) -> bool
    ensures { result ≡ list_any is_absurd cube.now }
{
    cube.as_slice()
        .iter()
        .any(|lit| lit.left == lit.right && is_apart(lit.op))
}

/// Adds the literal, unless it stands there or says of a level that it equals itself or is at most itself.
pub fn add(cube: &mut Cube, lit: Lit) -> Result<(), NoMemory>
    ensures added { OnOk result (IsWith cube.old cube.new lit) }
    ensures unchanged { OnErr result (cube.new ≡ cube.old) }
{
    if !is_apart(lit.op) && lit.left == lit.right || cube.as_slice().contains(&lit) {
        return Ok(());
    }
    cube.push(lit)
}
