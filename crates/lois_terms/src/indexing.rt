//! Indexes: where in a list of comprehensions those stand that have a shape or a hash.

ghost use Rattle.std.specs.Prelude.{◌≡◌, ℕ, ◌<◌, nat_eq, false, [], ◌∷◌, ◌++◌, map, length, slice_get, Some, IfOk, OnOk, IsTrue, ◌↔◌, Contains};
ghost use Rattle.std.specs.HashMap.{get};
ghost use Rattle.std.specs.List.{All};
ghost use Rattle.lois_base.specs.Tree.{comp_of};
ghost use Rattle.lois_terms.specs.Hash.{written_hash};
ghost use Rattle.lois_terms.specs.Positions.{positions_of, listed};
ghost use Rattle.lois_terms.specs.Shapes.{item_shape};

use crate::hashing::{hash_written, shape};
use lois_base::{Comp, NoMemory};
use smallvec::SmallVec;
use std::alloc::Global;
use std::collections::HashMap;
use std::hash::{BuildHasherDefault, Hasher};
use std::marker::Model;
use std::mem;

// Most numbers stand at one position, which needs no allocation.
type Positions = SmallVec<usize, 1>;

type Hashing = BuildHasherDefault<ByteHasher>;

// The numbers are hashes already, so little is to be done with them: each byte takes a round of FNV-1a.
#[derive(Clone, Copy)]
struct ByteHasher {
    state: u64,
}

impl Default for ByteHasher {
    ghost use Rattle.std.specs.Prelude.{◌≡◌};

    ghost is_default = { λ h. h.state ≡ 0xCBF29CE484222325 };

    fn default() -> ByteHasher {
        ByteHasher {
            state: 0xCBF2_9CE4_8422_2325,
        }
    }
}

impl Hasher for ByteHasher {
    ghost use Rattle.lois_terms.specs.Hash.{after_bytes};

    ghost write = { λ h bytes. record { state = after_bytes h.state bytes } };

    ghost finish = { λ h. h.state };

    fn finish(&self) -> u64 {
        self.state
    }

    #[inline(always)]
    fn write(&mut self, bytes: &[u8]) {
        let mut state = self.state;
        for byte in bytes {
            state = (state ^ u64::from(*byte)).wrapping_mul(0x100_0000_01B3);
        }
        self.state = state;
    }
}

/// A list of numbers that tells where it has a number.
#[derive(Drop)]
pub struct Index {
    numbers: Vec<u64>,
    places: HashMap<u64, Positions, Hashing>,
}

impl Model for Index {
    ghost use Rattle.std.specs.Prelude.{◌≡◌, ℕ, nat_eq, List};
    ghost use Rattle.std.specs.HashMap.{get};
    ghost use Rattle.lois_terms.specs.Positions.{positions_of, listed};

    ghost Value = { List ℕ };

    ghost view = { λ i. i.numbers.items };

    ghost invariant = { λ i. (x : ℕ) → listed (get nat_eq i.places x) ≡ positions_of x i.numbers.items };
}

impl Index {
    /// A list without numbers.
    pub fn new(alloc: Global) -> Index
        ensures { result ≡ [] }
    {
        Index {
            numbers: Vec::new(alloc),
            places: HashMap::with_hasher(alloc, BuildHasherDefault::new()),
        }
    }

    /// Puts a number at the end. After an error the list has no numbers.
    pub fn push(&mut self, alloc: Global, number: u64) -> Result<(), NoMemory>
        ensures { OnOk result (self.new ≡ self.old ++ number ∷ []) }
    {
        let Index {
            mut numbers,
            mut places,
        } = mem::replace(self, Index::new(alloc));
        add_place(alloc, &mut places, number, numbers.len())?;
        numbers.push(number)?;
        *self = Index { numbers, places };
        Ok(())
    }

    /// The positions of the number, ascending.
    pub fn positions(&self, number: u64) -> &[usize]
        ensures exact { result.now ≡ positions_of number self.now }
        ensures found { (i : ℕ) → slice_get self.now i ≡ Some number → Contains result.now i }
        ensures within { All (λ i. i < length self.now) result.now }
    {
        match self.places.get(&number) {
            Some(positions) => positions.as_slice(),
            None => &[],
        }
    }
}

// Puts a position at the end of those that the table has for the number.
fn add_place(
    alloc: Global,
    places: &mut HashMap<u64, Positions, Hashing>,
    number: u64,
    position: usize,
) -> Result<(), NoMemory>
    ensures number { OnOk result (listed (get nat_eq places.new number) ≡ listed (get nat_eq places.old number) ++ position ∷ []) }
    ensures others { OnOk result ((q : ℕ) → nat_eq number q ≡ false → get nat_eq places.new q ≡ get nat_eq places.old q) }
{
    let positions = places.entry(number)?.or_insert(SmallVec::new(alloc));
    positions.push(position)?;
    Ok(())
}

/// Where the comprehensions stand by the shapes of their items.
pub fn index_by_shape(alloc: Global, comps: &[Comp]) -> Result<Index, NoMemory>
    ensures { IfOk result (λ r. r ≡ map item_shape (map comp_of comps.now)) }
{
    let mut index = Index::new(alloc);
    for comp in comps {
        index.push(alloc, shape(&comp.item))?;
    }
    Ok(index)
}

/// Where the comprehensions stand by their hashes as they are written.
pub fn index_as_written(alloc: Global, comps: &[Comp]) -> Result<Index, NoMemory>
    ensures { IfOk result (λ r. r ≡ map written_hash (map comp_of comps.now)) }
{
    let mut index = Index::new(alloc);
    for comp in comps {
        index.push(alloc, hash_written(comp))?;
    }
    Ok(index)
}

/// Whether the comprehension is written among those of the index.
pub fn is_written_in(comp: &Comp, comps: &[Comp], index: &Index) -> bool
    requires { index.now ≡ map written_hash (map comp_of comps.now) }
    ensures { IsTrue result ↔ Contains (map comp_of comps.now) (comp_of comp.now) }
{
    for position in index.positions(hash_written(comp)) {
        if is_written_at(comp, comps, *position) {
            return true;
        }
    }
    false
}

fn is_written_at(comp: &Comp, comps: &[Comp], position: usize) -> bool
    ensures { IsTrue result ↔ slice_get (map comp_of comps.now) position ≡ Some (comp_of comp.now) }
{
    match comps.get(position) {
        Some(other) => comp.is_equal(other),
        None => false,
    }
}
