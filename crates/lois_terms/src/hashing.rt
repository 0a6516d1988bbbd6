//! Hashes and shapes of terms: numbers by which terms that differ are told apart without a look at both of them.

ghost use Rattle.std.specs.Prelude.{◌≡◌, List};
ghost use Rattle.lois_base.specs.Atom.{Atom};
ghost use Rattle.lois_base.specs.Data.{TermD, terms_of, comps_of};
ghost use Rattle.lois_base.specs.Tree.{tree, comp_of};
ghost use Rattle.lois_base.specs.Values.{point, IsSame};
ghost use Rattle.lois_terms.specs.Hash.{mixed, op_number, lit_hash, cube_hash, guard_hash, name_hash, term_hash, parts_hash, comp_hash, items_hash, written_hash};
ghost use Rattle.lois_terms.specs.Shapes.{shape_of, parts_shape};

use lois_base::{Comp, Comps, Constraint, Cube, Lit, Name, Op, Term, Terms};

// odd, so that no two numbers have one product
const FACTOR: u64 = 0x9E37_79B9_7F4A_7C15;

/// The shape of a term: a number that each term of the same value has too, at any two choices. So terms of different shapes are never the
/// same. An atom has one shape, a set another one, a tag its name's, and a tuple that of its parts' shapes.
#[tactic(auto, using(crate::proofs::Shapes::one_shape))]
pub fn shape(t: &Term) -> u64
    ensures exact { result ≡ shape_of (tree t.now) }
    ensures same { (s : TermD) (c d : List Atom) → IsSame (point (tree t.now) c) (point s d) → result ≡ shape_of s }
{
    shape_of_term(t)
}

#[cycle(shapes)]
fn shape_of_term(t: &Term) -> u64
    ensures { result ≡ shape_of (tree t.now) }
{
    match t {
        Term::Var(_) => 1,
        Term::Tag(name) => hash_name(2, name),
        Term::Tup(parts) => shape_of_parts(parts),
        Term::Coll(_) => 4,
    }
}

#[cycle(shapes)]
fn shape_of_parts(parts: &Terms) -> u64
    ensures { result ≡ parts_shape 3 (terms_of parts.now) }
{
    let mut folded = 3;
    for part in parts.as_slice() {
        folded = mix(folded, shape_of_term(part));
    }
    folded
}

/// The hash of a comprehension as it is written: the same where binders, guard and item are.
pub fn hash_written(comp: &Comp) -> u64
    ensures { result ≡ written_hash (comp_of comp.now) }
{
    hash_comp(0, comp)
}

/// The hash of the term as it is written, which follows from `seed` and the whole tree.
// A tuple and a set have a number for their end too, since nested ones are to differ from those beside one another.
#[cycle(hashes)]
pub fn hash_term(seed: u64, term: &Term) -> u64
    ensures { result ≡ term_hash seed (tree term.now) }
{
    match term {
        Term::Var(level) => mix(seed, *level as u64),
        Term::Tag(name) => hash_name(seed, name),
        Term::Tup(parts) => mix(hash_parts(mix(seed, 2), parts), 6),
        Term::Coll(comps) => mix(hash_items(mix(seed, 3), comps), 7),
    }
}

#[cycle(hashes)]
fn hash_parts(seed: u64, parts: &Terms) -> u64
    ensures { result ≡ parts_hash seed (terms_of parts.now) }
{
    let mut hash = seed;
    for part in parts.as_slice() {
        hash = hash_term(hash, part);
    }
    hash
}

#[cycle(hashes)]
fn hash_items(seed: u64, comps: &Comps) -> u64
    ensures { result ≡ items_hash seed (comps_of comps.now) }
{
    let mut hash = seed;
    for comp in comps.as_slice() {
        hash = hash_comp(hash, comp);
    }
    hash
}

#[cycle(hashes)]
fn hash_comp(seed: u64, comp: &Comp) -> u64
    ensures { result ≡ comp_hash seed (comp_of comp.now) }
{
    let guarded = hash_guard(mix(seed, comp.binders as u64), &comp.guard);
    hash_term(guarded, &comp.item)
}

fn hash_guard(seed: u64, guard: &Constraint) -> u64
    ensures { result ≡ guard_hash seed guard.now }
{
    let mut hash = mix(seed, 4);
    for cube in guard.as_slice() {
        hash = hash_cube(hash, cube);
    }
    hash
}

fn hash_cube(seed: u64, cube: &Cube) -> u64
    ensures { result ≡ cube_hash seed cube.now }
{
    let mut hash = mix(seed, 5);
    for lit in cube.as_slice() {
        hash = hash_lit(hash, *lit);
    }
    hash
}

fn hash_lit(seed: u64, lit: Lit) -> u64
    ensures { result ≡ lit_hash seed lit }
{
    let compared = mix(seed, number_of(lit.op));
    let left = mix(compared, lit.left as u64);
    mix(left, lit.right as u64)
}

fn number_of(op: Op) -> u64
    ensures { result ≡ op_number op }
{
    match op {
        Op::Eq => 0,
        Op::Ne => 1,
        Op::Lt => 2,
        Op::AtMost => 3,
    }
}

/// The hash of a name, which follows from `seed` and its bytes.
pub fn hash_name(seed: u64, name: &Name) -> u64
    ensures { result ≡ name_hash seed name.now }
{
    let mut hash = mix(seed, 1);
    for byte in name.bytes() {
        hash = mix(hash, *byte as u64);
    }
    hash
}

fn mix(hash: u64, number: u64) -> u64
    ensures { result ≡ mixed hash number }
{
    hash.wrapping_mul(FACTOR).wrapping_add(number)
}
