//! Ranks of numbers: under an order by their size, else by where they first stand.

ghost use Rattle.std.specs.Prelude.{ℕ, ◌<◌, List, length, IfOk, Contains};
ghost use Rattle.std.specs.List.{All};
ghost use Rattle.lois_base.specs.Patterns.{AreAlike};
ghost use Rattle.lois_base.specs.Truth.{sampled};
ghost use Rattle.lois_ranks.specs.Numberings.{ArePlaces, AreSortedValues, IsNumbering, IsPlacedIn, IsPlaceIn};
ghost use Rattle.lois_ranks.specs.Ranks.{AreRanks};

use lois_base::{NoMemory, Numbers, Op, Structure};
use std::alloc::Global;

/// The numbers of a sample as ranks, which stand to one another as its numbers do: with an order each is the number of different
/// smaller ones, else the number of different ones before its first place. Errors: `NoMemory`.
pub fn rank_sample<T: Structure>(alloc: Global, sample: &[u64]) -> Result<Numbers, NoMemory>
    ensures alike { IfOk result (λ r. AreAlike T.ordered (sampled sample.now) (sampled r)) }
    ensures ranked { IfOk result (AreRanks T.ordered) }
    ensures small { IfOk result (All (λ n. n < length sample.now)) }
{
    if T::admits(Op::Lt) {
        let values = sorted_values(alloc, sample)?;
        return places_among(alloc, &values, sample);
    }
    places_in_turn(alloc, sample)
}

// The different numbers of the sample, in order.
fn sorted_values(alloc: Global, sample: &[u64]) -> Result<Vec<u64>, NoMemory>
    ensures { IfOk result (λ r. AreSortedValues sample.now r.items) }
{
    let mut values = Vec::from_slice(alloc, sample)?;
    values.sort_unstable();
    values.dedup();
    Ok(values)
}

// Where the number stands among the values.
fn find_place(values: &[u64], number: u64) -> Option<usize>
    ensures { IsPlaceIn values.now number result }
{
    for (place, value) in values.iter().enumerate() {
        if *value == number {
            return Some(place);
        }
    }
    None
}

// For each number of the sample where it stands among the values, which have all of them.
fn places_among(alloc: Global, values: &[u64], sample: &[u64]) -> Result<Numbers, NoMemory>
    requires { (n : ℕ) → Contains sample.now n → Contains values.now n }
    ensures { IfOk result (ArePlaces values.now sample.now) }
{
    let mut places = Numbers::new(alloc);
    for number in sample {
        let Some(place) = find_place(values, *number) else {
            unreachable!()
        };
        places.push(place as u64)?;
    }
    Ok(places)
}

// The place of the number among the values, behind which it is put where it isn't one of them.
fn place_in_turn(values: &mut Vec<u64>, number: u64) -> Result<usize, NoMemory>
    ensures { IfOk result (IsPlacedIn values.old.items number values.new.items) }
{
    if let Some(place) = find_place(values, number) {
        return Ok(place);
    }
    let place = values.len();
    values.push(number)?;
    Ok(place)
}

// For each number of the sample how many others come before its first place.
fn places_in_turn(alloc: Global, sample: &[u64]) -> Result<Numbers, NoMemory>
    ensures { IfOk result (λ r. (values : List ℕ) × IsNumbering sample.now values r) }
{
    let mut values = Vec::new(alloc);
    let mut places = Numbers::new(alloc);
    for number in sample {
        let place = place_in_turn(&mut values, *number)?;
        places.push(place as u64)?;
    }
    Ok(places)
}
