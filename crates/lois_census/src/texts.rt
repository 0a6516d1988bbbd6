//! The text of censuses.

ghost use Rattle.std.specs.Prelude.{◌≡◌, ◌++◌, IfOk, OnOk};
ghost use Rattle.std.specs.List.{All, flat_map};
ghost use Rattle.lois_census.specs.CensusText.{orbit_text, census_text, censuses_text};
ghost use Rattle.lois_census.specs.CensusView.{entry_of};
ghost use Rattle.lois_census.specs.Censuses.{HaveText};
ghost use Rattle.lois_census.specs.OrbitView.{orbit_of};
ghost use Rattle.lois_census.specs.Orbits.{FitsSample};

use crate::counting::{Census, Censuses};
use crate::orbits::{Orbit, Orbits};
use lois_base::{Names, NoMemory};
use lois_printer::{append_choice, append_count, append_term_line};
use std::alloc::Global;

/// The text of the censuses: for each the number of its case and how many orbits there are, and then of each orbit a member,
/// among as many levels as its choice has numbers, and the choice. Errors: `NoMemory`.
pub fn print_censuses(alloc: Global, censuses: &Censuses) -> Result<Vec<u8>, NoMemory>
    requires { HaveText censuses.now }
    ensures { IfOk result (λ text. text.items ≡ censuses_text censuses.now) }
{
    let mut text = Vec::new(alloc);
    for census in censuses.as_slice() {
        append_census(alloc, &mut text, census)?;
    }
    Ok(text)
}

fn append_census(alloc: Global, text: &mut Vec<u8>, census: &Census) -> Result<(), NoMemory>
    requires { All FitsSample census.now.orbits }
    ensures { OnOk result (text.new.items ≡ text.old.items ++ census_text (entry_of census.now)) }
{
    append_count(alloc, text, b"case ", census.case)?;
    append_count(alloc, text, b"orbits ", census.orbits.len())?;
    append_orbits(alloc, text, &census.orbits)
}

fn append_orbits(alloc: Global, text: &mut Vec<u8>, orbits: &Orbits) -> Result<(), NoMemory>
    requires { All FitsSample orbits.now }
    ensures { OnOk result (text.new.items ≡ text.old.items ++ flat_map orbit_text orbits.now) }
{
    for orbit in orbits.as_slice() {
        append_orbit(alloc, text, orbit)?;
    }
    Ok(())
}

fn append_orbit(alloc: Global, text: &mut Vec<u8>, orbit: &Orbit) -> Result<(), NoMemory>
    requires { FitsSample (orbit_of orbit.now) }
    ensures { OnOk result (text.new.items ≡ text.old.items ++ orbit_text (orbit_of orbit.now)) }
{
    let parameters = Names::new(alloc);
    append_term_line(
        alloc,
        text,
        b"orbit ",
        &parameters,
        orbit.sample.len(),
        &orbit.item,
    )?;
    append_choice(alloc, text, &orbit.sample)
}
