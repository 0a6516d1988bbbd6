//! What `make` says, and which words it takes.

use crate::calling::{Told, USAGE, all_deciders, asked, called};
use std::alloc::Global;
use std::test::Fail;

const THREE: &[u8] = b"statements 3\nbytes 259\ncases 1\ncomprehensions 3\n";

// With a source that fails whenever it is asked.
fn unasked(alloc: Global, words: &[&str]) -> Result<Told, Fail> {
    called(alloc, words, b"", &[0], all_deciders(alloc)?)
}

#[test]
fn the_made_script_is_counted(rt: HostRuntime) -> Result<(), Fail> {
    let alloc = rt.alloc();
    let rows: [(&str, &[u8]); 6] = [
        ("1", b"statements 1\nbytes 111\ncases 1\ncomprehensions 1\n"),
        ("3", THREE),
        ("6", b"statements 6\nbytes 481\ncases 1\ncomprehensions 6\n"),
        ("7", b"statements 7\nbytes 555\ncases 1\ncomprehensions 7\n"),
        ("8", b"statements 8\nbytes 629\ncases 1\ncomprehensions 7\n"),
        (
            "100",
            b"statements 100\nbytes 7437\ncases 1\ncomprehensions 7\n",
        ),
    ];
    for (count, text) in rows {
        let told = unasked(alloc, &["make", count])?;
        assert_eq!(rt; told.status, 0, "{count}");
        assert_eq!(rt; told.held.as_slice(), text, "{count}");
    }
    Ok(())
}

const THOUSAND: &[u8] = b"statements 1000\nbytes 74037\ncases 1\ncomprehensions 7\n";

// The same at each run.
#[test]
fn a_thousand_loops_are_made(rt: HostRuntime) -> Result<(), Fail> {
    let told = unasked(rt.alloc(), &["make", "1000"])?;
    assert_eq!(rt; told.status, 0);
    assert_eq!(rt; told.held.as_slice(), THOUSAND);
    Ok(())
}

#[test]
fn a_thousand_loops_are_made_again(rt: HostRuntime) -> Result<(), Fail> {
    let told = unasked(rt.alloc(), &["make", "1000", "--decider=memo"])?;
    assert_eq!(rt; told.status, 0);
    assert_eq!(rt; told.held.as_slice(), THOUSAND);
    Ok(())
}

#[test]
fn the_option_stands_on_both_sides(rt: HostRuntime) -> Result<(), Fail> {
    let alloc = rt.alloc();
    let rows: [&[&str]; 8] = [
        &["make", "3", "--decider", "graph"],
        &["make", "3", "--decider=plain"],
        &["make", "3", "--decider", "memo"],
        &["make", "3", "--decider=memo"],
        &["make", "--decider", "plain", "3"],
        &["make", "--decider=graph", "3"],
        &["make", "--decider", "memo", "3"],
        &["make", "--decider=memo", "3"],
    ];
    for words in rows {
        let told = unasked(alloc, words)?;
        assert_eq!(rt; told.status, 0);
        assert_eq!(rt; told.held.as_slice(), THREE);
    }
    Ok(())
}

#[test]
fn other_numbers_are_usage(rt: HostRuntime) -> Result<(), Fail> {
    let alloc = rt.alloc();
    let rows = [
        "",
        "0",
        "00",
        "007",
        "03",
        "10001",
        "99999",
        "4294967299",
        "18446744073709551619",
        "+3",
        "-3",
        "3.0",
        "3x",
        "0x3",
        "1e3",
        "1_000",
        " 3",
        "3 ",
        "three",
        "--",
    ];
    for count in rows {
        let told = unasked(alloc, &["make", count])?;
        assert_eq!(rt; told.status, 9, "{count}");
        assert_eq!(rt; told.held.as_slice(), USAGE, "{count}");
    }
    Ok(())
}

#[test]
fn other_words_are_usage(rt: HostRuntime) -> Result<(), Fail> {
    let alloc = rt.alloc();
    let rows: [&[&str]; 20] = [
        &[],
        &["make"],
        &["make", "3", "4"],
        &["make", "3", "x"],
        &["make", "--", "3"],
        &["make", "3", "--help"],
        &["make", "3", "--decider"],
        &["make", "--decider", "3"],
        &["make", "--decider=", "3"],
        &["make", "--decider", "plain"],
        &["make", "3", "--decider", "other"],
        &["make", "3", "--decider", "Plain"],
        &["make", "3", "--decider", "plain", "--decider", "plain"],
        &["make", "--decider=plain", "3", "--decider=plain"],
        &["--decider", "plain", "make", "3"],
        &["Make", "3"],
        &["run", "x"],
        &["check", "--decider", "plain"],
        &["run", "--decider", "plain", "--decider=plain"],
        &["reread", "3"],
    ];
    for words in rows {
        let told = unasked(alloc, words)?;
        assert_eq!(rt; told.status, 9);
        assert_eq!(rt; told.held.as_slice(), USAGE);
    }
    Ok(())
}

#[test]
fn without_a_decider_all_is_usage(rt: HostRuntime) -> Result<(), Fail> {
    let alloc = rt.alloc();
    let rows: [&[&str]; 3] = [
        &["make", "3"],
        &["make", "3", "--decider", "graph"],
        &["run"],
    ];
    for words in rows {
        let told = called(alloc, words, b"", &[0], Vec::new(alloc))?;
        assert_eq!(rt; told.status, 9);
        assert_eq!(rt; told.held.as_slice(), USAGE);
    }
    Ok(())
}

// Without a decider that keeps answers none can be named.
#[test]
fn a_decider_that_lacks_is_usage(rt: HostRuntime) -> Result<(), Fail> {
    let alloc = rt.alloc();
    let rows: [&[&str]; 4] = [
        &["make", "3", "--decider", "memo"],
        &["make", "--decider=memo", "3"],
        &["run", "--decider", "memo"],
        &["run", "--decider=memo"],
    ];
    for words in rows {
        let mut deciders = all_deciders(alloc)?;
        let _ = deciders.pop();
        let told = called(alloc, words, b"", &[0], deciders)?;
        assert_eq!(rt; told.status, 9);
        assert_eq!(rt; told.held.as_slice(), USAGE);
    }
    Ok(())
}

// `make` is answered though the source would fail, and what it says isn't the answer to the text of the source.
#[test]
fn the_source_is_left_alone(rt: HostRuntime) -> Result<(), Fail> {
    let alloc = rt.alloc();
    let told = asked(alloc, &["make", "3"], b"atoms order; assert false;")?;
    assert_eq!(rt; told.status, 0);
    assert_eq!(rt; told.held.as_slice(), THREE);
    Ok(())
}
