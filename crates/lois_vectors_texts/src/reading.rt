//! What no clause says: that texts are read with ample memory, and where worked texts are refused.

use lois_reader::{ResultError, read_answer, read_results};
use std::test::Fail;

#[test]
fn results_are_read(rt: HostRuntime) {
    let texts: [&[u8]; 3] = [
        b"lois results 1\natoms equality\nparameters\nend\n",
        b"lois results 1\natoms equality\nparameters a b\ncase when a=b or a!=b\nt = 'end\nu = (a, {}, {b})\nq = {{'start}, {($2, $2)} for $2, {($2, $3) for $3 if $2!=$3} for $2}\nend\n",
        b"lois results 1\natoms order\nparameters tru\ncase when false\ni = {$1 for $1 if tru<$1 and $1!=tru or true}\nend\n",
    ];
    for text in texts {
        assert!(rt; read_results(rt.alloc(), text).is_ok(), "at {text:?}");
        assert!(rt; read_answer(rt.alloc(), text).is_ok(), "at {text:?}");
    }
}

#[test]
fn traces_are_read(rt: HostRuntime) {
    let texts: [&[u8]; 3] = [
        b"lois results 2\natoms equality\nparameters\nfailed at 1:51: assertion failed\nchoice 0 1\nfor x = $0\nfor y = $1\nend\n",
        b"lois results 2\natoms order\nparameters\nfailed at 1048577:1: turn limit\nchoice 18446744073709551615\nend\n",
        b"lois results 2\natoms order\nparameters\nfailed at 2:9: not an automaton\nchoice\nend\n",
    ];
    for text in texts {
        assert!(rt; read_answer(rt.alloc(), text).is_ok(), "at {text:?}");
        assert_eq!(rt;
            read_results(rt.alloc(), text).err(),
            Some(ResultError::NotResults(13)),
            "at {text:?}"
        );
    }
}

#[test]
fn texts_leave_the_shape(rt: HostRuntime) {
    let texts: [(&[u8], usize); 5] = [
        // A second space.
        (b"lois  results 1\n", 5),
        // Nothing more.
        (b"lois results 1\natoms", 20),
        // A byte behind the end.
        (
            b"lois results 1\natoms equality\nparameters\ncase when true\na = {$0 for $0}\nend\n ",
            76,
        ),
        // A word that begins as `true`.
        (
            b"lois results 1\natoms equality\nparameters\ncase when trueX\nb = {}\nend\n",
            56,
        ),
        // No kind.
        (
            b"lois results 2\natoms order\nparameters\nfailed at 1:1: not an atom\nchoice\nend\n",
            61,
        ),
    ];
    for (text, place) in texts {
        assert_eq!(rt;
            read_answer(rt.alloc(), text).err(),
            Some(ResultError::NotResults(place)),
            "at {text:?}"
        );
    }
}

#[test]
fn texts_break_side_rules(rt: HostRuntime) {
    let texts: [(&[u8], usize); 5] = [
        // A parameter twice.
        (
            b"lois results 1\natoms equality\nparameters a b a\nend\n",
            45,
        ),
        // The first of three: a level that isn't bound, a binder's number, and `if true`.
        (
            b"lois results 1\natoms equality\nparameters a\ncase when true\ne = {$7 for $9 if true}\nend\n",
            63,
        ),
        // `if true`.
        (
            b"lois results 1\natoms equality\nparameters\ncase when true\ne = {{} if true}\nend\n",
            67,
        ),
        // Nine parts.
        (
            b"lois results 1\natoms equality\nparameters a\ncase when true\ne = {(a, a, a, a, a, a, a, a, z)}\nend\n",
            63,
        ),
        // A number past u64.
        (
            b"lois results 2\natoms order\nparameters\nfailed at 1:1: not a set\nchoice 0 18446744073709551616\nend\n",
            72,
        ),
    ];
    for (text, place) in texts {
        assert_eq!(rt;
            read_answer(rt.alloc(), text).err(),
            Some(ResultError::NotResults(place)),
            "at {text:?}"
        );
    }
}

#[test]
fn sixty_four_brackets_may_be_open(rt: HostRuntime) -> Result<(), Fail> {
    for (brackets, place) in [(64, None), (65, Some(ResultError::NotResults(124)))] {
        let mut text = Vec::new(rt.alloc());
        text.extend_from_slice(
            b"lois results 1\natoms equality\nparameters\ncase when true\na = ",
        )?;
        for bracket in [b'{', b'}'] {
            for _ in 0..brackets {
                text.push(bracket)?;
            }
        }
        text.extend_from_slice(b"\nend\n")?;
        assert_eq!(rt; read_results(rt.alloc(), &text).err(), place);
    }
    Ok(())
}

#[test]
fn a_mebibyte_is_read(rt: HostRuntime) -> Result<(), Fail> {
    let mut text = Vec::new(rt.alloc());
    text.extend_from_slice(b"lois results 1\natoms order\nparameters a\ncase when true\ns = {a")?;
    for _ in 0..22_790 {
        text.extend_from_slice(b", {(a, $1, 'tag) for $1 $2 if a<$1 and $1!=$2}")?;
    }
    text.extend_from_slice(b"}\nend\n")?;
    assert!(rt; text.len() <= 1_048_576);
    assert!(rt; read_results(rt.alloc(), &text).is_ok());
    Ok(())
}

#[test]
fn a_hundred_thousand_parameters_are_read(rt: HostRuntime) -> Result<(), Fail> {
    let alloc = rt.alloc();
    let mut text = Vec::new(alloc);
    text.extend_from_slice(b"lois results 1\natoms equality\nparameters")?;
    for number in 0..100_000 {
        text.extend_from_slice(format!(in alloc; " p{number}")?.as_bytes())?;
    }
    text.extend_from_slice(b"\ncase when p0=p99999\ns = {p50000}\nend\n")?;
    let results = read_results(alloc, &text).ok();
    assert_eq!(rt;
        results.map(|results| results.parameters.len()),
        Some(100_000)
    );
    Ok(())
}
