//! Families through each call, and rounds of the tests' own.

ghost use Rattle.std.specs.Prelude.{◌≡◌, ◌↔◌, ⊤, IfOk, IsTrue, length, map, option_map};
ghost use Rattle.lois_base.specs.Fits.{ConstraintFits};
ghost use Rattle.lois_rounds.specs.Families.{FamilyFits, MemberFits};
ghost use Rattle.lois_vectors_rounds.specs.Worked.{AgreeAt, EachAgrees, MembersAgree, chained, joined, linked};

use lois_base::{Constraint, Cube, Lit, NoMemory, Op};
use lois_constraint::{and, or};
use lois_rounds::{Family, Member, Round, grow, shrink};
use std::alloc::Global;
use std::process::Abort;
use std::test::Fail;

// Each member takes from the one before it, where both have one size, of at most 2: it holds where either does, or where both do.
#[derive(Drop)]
struct Chain {
    grows: bool,
    // for so many rounds there is memory
    rounds: u64,
}

impl Round for Chain {
    ghost use Rattle.lois_vectors_rounds.specs.Worked.{Chains};
    ghost use Rattle.lois_vectors_rounds.specs.WorkedLaw.{chains_respect};

    ghost leads = { λ r. Chains r.grows };

    ghost admits = { λ r ordered. ⊤ };

    ghost respects = { λ r. chains_respect r.grows };

    fn next(&mut self, alloc: Global, family: &Family) -> Result<Option<Family>, NoMemory> {
        if self.rounds == 0 {
            return Err(NoMemory);
        }
        self.rounds -= 1;
        let next = linked_family(alloc, self.grows, family)?;
        if agree(family.as_slice(), next.as_slice()) {
            Ok(None)
        } else {
            Ok(Some(next))
        }
    }
}

fn linked_family(alloc: Global, grows: bool, family: &Family) -> Result<Family, NoMemory>
    ensures { IfOk result (λ f. f ≡ chained grows family.now) }
{
    let mut next = Family::new(alloc);
    let mut before = None;
    for member in family.as_slice() {
        next.push(linked_member(alloc, grows, before, member)?)?;
        before = Some(member);
    }
    Ok(next)
}

fn linked_member(
    alloc: Global,
    grows: bool,
    before: Option<&Member>,
    member: &Member,
) -> Result<Member, NoMemory>
    ensures { IfOk result (λ m. m ≡ linked grows (option_map (λ p. p.now) before.entry) member.now) }
{
    match before {
        Some(other) if other.0 == member.0 && member.0 <= 2 => {
            Ok((
                member.0,
                joined_constraint(alloc, grows, &member.1, &other.1)?,
            ))
        }
        _ => Ok((member.0, member.1.copy(alloc)?)),
    }
}

fn joined_constraint(
    alloc: Global,
    grows: bool,
    own: &Constraint,
    other: &Constraint,
) -> Result<Constraint, NoMemory>
    ensures { IfOk result (λ r. r ≡ joined grows own.now other.now) }
{
    if grows {
        or(alloc, own, other)
    } else {
        and(alloc, own, other)
    }
}

// Whether the members agree, one by one, at the samples of their sizes.
fn agree(family: &[Member], others: &[Member]) -> bool
    requires fits { FamilyFits family.now }
    requires others_fit { FamilyFits others.now }
    requires lengths { length family.now ≡ length others.now }
    ensures { IsTrue result ↔ EachAgrees family.now others.now }
{
    for (index, member) in family.iter().enumerate() {
        if !members_agree(member, &others[index]) {
            return false;
        }
    }
    true
}

fn members_agree(member: &Member, other: &Member) -> bool
    requires fits { MemberFits member.now }
    requires other_fits { MemberFits other.now }
    ensures { IsTrue result ↔ MembersAgree member.now other.now }
{
    if member.0 != other.0 {
        return false;
    }
    let (first, second) = (&member.1, &other.1);
    match member.0 {
        0 => agree_at(first, second, &[]),
        1 => agree_at(first, second, &[0]),
        2 => {
            agree_at(first, second, &[0, 0])
                && agree_at(first, second, &[0, 1])
                && agree_at(first, second, &[1, 0])
                && agree_at(first, second, &[1, 1])
        }
        _ => true,
    }
}

fn agree_at(constraint: &Constraint, other: &Constraint, sample: &[u64]) -> bool
    requires fits { ConstraintFits (length sample.now) constraint.now }
    requires other_fits { ConstraintFits (length sample.now) other.now }
    ensures { IsTrue result ↔ AgreeAt sample.now constraint.now other.now }
{
    constraint.at(sample) == other.at(sample)
}

const BELOW: Lit = Lit {
    op: Op::Lt,
    left: 0,
    right: 1,
};

const EQUAL: Lit = Lit {
    op: Op::Eq,
    left: 0,
    right: 1,
};

const DIFFERENT: Lit = Lit {
    op: Op::Ne,
    left: 0,
    right: 1,
};

const ALWAYS: &[&[Lit]] = &[&[]];

const NEVER: &[&[Lit]] = &[];

const WHERE_BELOW: &[&[Lit]] = &[&[BELOW]];

const WHERE_EQUAL: &[&[Lit]] = &[&[EQUAL]];

const WHERE_DIFFERENT: &[&[Lit]] = &[&[DIFFERENT]];

const WHERE_AT_MOST: &[&[Lit]] = &[&[BELOW], &[EQUAL]];

// Where the atoms are equal, where the first is below the second, and where it is above it.
const SAMPLES: [[u64; 2]; 3] = [[0, 0], [0, 1], [1, 0]];

fn constraint_of(alloc: Global, cubes: &[&[Lit]]) -> Result<Constraint, NoMemory> {
    let mut constraint = Constraint::new(alloc);
    for literals in cubes {
        let mut cube = Cube::new(alloc);
        for literal in *literals {
            cube.push(*literal)?;
        }
        constraint.push(cube)?;
    }
    Ok(constraint)
}

fn family_of(
    rt: &impl Abort,
    alloc: Global,
    members: &[(usize, &[&[Lit]])],
) -> Result<Family, NoMemory> {
    let mut family = Family::new(alloc);
    for (size, cubes) in members {
        let constraint = constraint_of(alloc, cubes)?;
        assert!(rt; constraint.fits(*size));
        family.push((*size, constraint))?;
    }
    Ok(family)
}

// Each member's size and number of cubes, and its truth at the samples.
fn expect_members(rt: &impl Abort, family: &Family, expected: &[(usize, usize, [bool; 3])]) {
    assert_eq!(rt; family.len(), expected.len());
    for (member, (size, cubes, truths)) in family.as_slice().iter().zip(expected) {
        assert_eq!(rt; member.0, *size);
        assert_eq!(rt; member.1.len(), *cubes);
        assert!(rt; member.1.fits(2));
        for (sample, truth) in SAMPLES.iter().zip(truths) {
            assert_eq!(rt; member.1.at(sample), *truth, "at {sample:?}");
        }
    }
}

#[test]
fn families_are_lists(rt: HostRuntime) -> Result<(), Fail> {
    let alloc = rt.alloc();
    let family = family_of(&rt, alloc, &[(1, ALWAYS), (2, WHERE_BELOW)])?;
    assert_eq!(rt; family.len(), 2);
    assert_eq!(rt; family.as_slice().len(), 2);
    assert_eq!(rt; family.get(1).map(|member| member.0), Some(2));
    assert!(rt; family.get(2).is_none());
    assert_eq!(rt; Family::new(alloc).len(), 0);
    Ok(())
}

// What growing or shrinking along the chain comes to, and for how many rounds there is memory after that.
fn settled(
    alloc: Global,
    grows: bool,
    rounds: u64,
    start: Family,
) -> Result<(Family, u64), NoMemory> {
    let mut round = Chain { grows, rounds };
    let family = if grows {
        grow(alloc, &mut round, start)?
    } else {
        shrink(alloc, &mut round, start)?
    };
    Ok((family, round.rounds))
}

// The third member of size 2 is reached in the second round. The third round changes nothing.
#[test]
fn members_grow_along_a_chain(rt: HostRuntime) -> Result<(), Fail> {
    let alloc = rt.alloc();
    let start = [
        (1, ALWAYS),
        (1, NEVER),
        (2, WHERE_BELOW),
        (2, NEVER),
        (2, WHERE_EQUAL),
    ];
    let (grown, left) = settled(alloc, true, 9, family_of(&rt, alloc, &start)?)?;
    let expected = [
        (1, 1, [true, true, true]),
        (1, 2, [true, true, true]),
        (2, 1, [false, true, false]),
        (2, 2, [false, true, false]),
        (2, 2, [true, true, false]),
    ];
    expect_members(&rt, &grown, &expected);
    assert_eq!(rt; left, 6);

    // What has grown is left as it is by the first round.
    let (again, left) = settled(alloc, true, 9, grown)?;
    expect_members(&rt, &again, &expected);
    assert_eq!(rt; left, 8);
    Ok(())
}

#[test]
fn members_shrink_along_a_chain(rt: HostRuntime) -> Result<(), Fail> {
    let alloc = rt.alloc();
    let start = [(2, WHERE_AT_MOST), (2, ALWAYS), (2, WHERE_DIFFERENT)];
    let (shrunk, left) = settled(alloc, false, 9, family_of(&rt, alloc, &start)?)?;
    let expected = [
        (2, 2, [true, true, false]),
        (2, 4, [true, true, false]),
        (2, 2, [false, true, false]),
    ];
    expect_members(&rt, &shrunk, &expected);
    assert_eq!(rt; left, 6);
    Ok(())
}

// Members of another size than the one before them, or above 2, take nothing.
#[test]
fn a_round_may_change_nothing(rt: HostRuntime) -> Result<(), Fail> {
    let alloc = rt.alloc();
    let start = [(3, ALWAYS), (3, NEVER), (1, ALWAYS), (2, NEVER)];
    let expected = [
        (3, 1, [true, true, true]),
        (3, 0, [false, false, false]),
        (1, 1, [true, true, true]),
        (2, 0, [false, false, false]),
    ];
    for grows in [true, false] {
        let (family, left) = settled(alloc, grows, 9, family_of(&rt, alloc, &start)?)?;
        expect_members(&rt, &family, &expected);
        assert_eq!(rt; left, 8);
    }
    Ok(())
}

// Two rounds are needed both ways, and there is memory for fewer.
#[test]
fn want_of_memory_is_handed_on(rt: HostRuntime) -> Result<(), Fail> {
    let alloc = rt.alloc();
    for grows in [true, false] {
        for rounds in 0..2 {
            let start = [(2, WHERE_BELOW), (2, WHERE_AT_MOST), (2, WHERE_DIFFERENT)];
            let family = family_of(&rt, alloc, &start)?;
            assert!(rt; matches!(settled(alloc, grows, rounds, family), Err(NoMemory)));
        }
    }
    Ok(())
}
