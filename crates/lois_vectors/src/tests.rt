// Tables of scripts and of failing sources and sinks.
ghost use Rattle.std.specs.Prelude.{◌≤◌};

use lois_base::Decider;
use lois_deciders::{GraphDecider, PlainDecider};
use lois_outside::{MemorySink, MemorySource};
use lois_run::lois;
use std::alloc::{AllocError, Global};
use std::test::Fail;

// A script of 39 bytes, and its output of 76.
const SCRIPT: &[u8] = b"atoms equality; let a = atoms; print a;";

const OUTPUT: &[u8] =
    b"lois results 1\natoms equality\nparameters\ncase when true\na = {$0 for $0}\nend\n";

const TOO_LONG: &[u8] = b"refused: input over 1048576 bytes\n";

const USAGE: &[u8] =
    b"usage: lois run|check|reread|make N|equal A B|registers|census A [--decider plain|graph|memo]\n";

// A source and a sink over memory: how many bytes a call moves, and which calls fail.
#[derive(Clone, Copy)]
struct Edge<'a> {
    step: usize,
    failing: &'a [u64],
}

// What the call answered, and what the sink holds.
#[derive(Drop)]
struct Told {
    status: u8,
    held: Vec<u8>,
}

fn words_of(alloc: Global, words: &[&str]) -> Result<Vec<String>, AllocError> {
    let mut owned = Vec::new(alloc);
    for word in words {
        owned.push(String::from_str(alloc, word)?)?;
    }
    Ok(owned)
}

// No decider that keeps answers is handed in.
fn graph_and_plain(alloc: Global) -> Result<Vec<Box<dyn Decider>>, AllocError> {
    let graph: Box<dyn Decider> = Box::new(alloc, GraphDecider::new())?;
    let plain: Box<dyn Decider> = Box::new(alloc, PlainDecider::new())?;
    let mut deciders = Vec::new(alloc);
    deciders.push(graph)?;
    deciders.push(plain)?;
    Ok(deciders)
}

fn call(
    alloc: Global,
    words: &[&str],
    text: &[u8],
    from: Edge,
    room: usize,
    to: Edge,
) -> Result<Told, Fail>
    requires from { 1 ≤ from.step }
    requires to { 1 ≤ to.step }
{
    let words = words_of(alloc, words)?;
    let mut source = MemorySource::new(text.to_vec(alloc)?, from.step, from.failing.to_vec(alloc)?);
    let mut sink = MemorySink::new(alloc, room, to.step, to.failing.to_vec(alloc)?)?;
    let status = lois(
        alloc,
        &words,
        &mut source,
        &mut sink,
        graph_and_plain(alloc)?,
    );
    Ok(Told {
        status,
        held: sink.held().to_vec(alloc)?,
    })
}

// With a source and a sink that never fail.
fn asked(alloc: Global, words: &[&str], text: &[u8]) -> Result<Told, Fail> {
    call(
        alloc,
        words,
        text,
        Edge {
            step: 4096,
            failing: &[],
        },
        4096,
        Edge {
            step: 4096,
            failing: &[],
        },
    )
}

fn run(alloc: Global, text: &[u8]) -> Result<Told, Fail> {
    asked(alloc, &["run"], text)
}

// The front, so many pieces, and the back.
fn repeated(
    alloc: Global,
    front: &[u8],
    piece: &[u8],
    times: usize,
    back: &[u8],
) -> Result<Vec<u8>, AllocError> {
    let mut text = front.to_vec(alloc)?;
    for _ in 0..times {
        text.extend_from_slice(piece)?;
    }
    text.extend_from_slice(back)?;
    Ok(text)
}

#[test]
fn scripts_complete(rt: HostRuntime) -> Result<(), Fail> {
    let alloc = rt.alloc();
    let rows: [(&str, &[u8], &[u8]); 8] = [
        ("all_atoms", SCRIPT, OUTPUT),
        (
            "empty_set",
            b"atoms equality; let e = {}; print e;",
            b"lois results 1\natoms equality\nparameters\ncase when true\ne = {}\nend\n",
        ),
        (
            "no_statement",
            b"atoms order;",
            b"lois results 1\natoms order\nparameters\ncase when true\nend\n",
        ),
        (
            "name_of_a_name",
            b"atoms equality; let a = atoms; let b = a; print b; print a;",
            b"lois results 1\natoms equality\nparameters\ncase when true\nb = {$0 for $0}\na = {$0 for $0}\nend\n",
        ),
        (
            "printed_twice",
            b"atoms order; let e = {}; print e; print e;",
            b"lois results 1\natoms order\nparameters\ncase when true\ne = {}\ne = {}\nend\n",
        ),
        (
            "blanks_and_comments",
            b"# all atoms\natoms\tequality;\r\n let a=atoms;# a set\nprint a;\n",
            OUTPUT,
        ),
        (
            "listed_set",
            b"atoms equality; let s = {'a, ('b, {})}; print s;",
            b"lois results 1\natoms equality\nparameters\ncase when true\ns = {'a, ('b, {})}\nend\n",
        ),
        (
            "names_in_a_tuple",
            b"atoms order; let a = atoms; let t = (a, 'end, {a, {}}); print t;",
            b"lois results 1\natoms order\nparameters\ncase when true\nt = ({$0 for $0}, 'end, {{$0 for $0}, {}})\nend\n",
        ),
    ];
    for (name, text, output) in rows {
        let told = run(alloc, text)?;
        assert_eq!(rt; told.status, 0, "{name}");
        assert_eq!(rt; told.held.as_slice(), output, "{name}");
    }
    Ok(())
}

#[test]
fn words_that_are_not_taken_are_usage(rt: HostRuntime) -> Result<(), Fail> {
    let alloc = rt.alloc();
    let rows: [&[&str]; 18] = [
        &[],
        &["help"],
        &["help", "run"],
        &["run", "--help"],
        &["run", "--", "x"],
        &["run", "--decider=plain", "x"],
        &["run", "x"],
        &["Run"],
        &["--decider", "graph", "run"],
        &["check", "--decider", "plain"],
        &["make", "0"],
        &["make", "10001"],
        &["make", "007"],
        &["run", "--decider"],
        &["run", "--decider", "other"],
        &["run", "--decider", "plain", "--decider=plain"],
        &["run", "--decider", "memo"],
        &["run", "--decider=memo"],
    ];
    for words in rows {
        let told = call(
            alloc,
            words,
            SCRIPT,
            Edge {
                step: 1,
                failing: &[0],
            },
            4096,
            Edge {
                step: 4096,
                failing: &[],
            },
        )?;
        assert_eq!(rt; told.status, 9);
        assert_eq!(rt; told.held.as_slice(), USAGE);
    }
    Ok(())
}

// With no decider at all `run` is usage too, and a decider that is there is taken in both spellings.
#[test]
fn a_decider_is_named(rt: HostRuntime) -> Result<(), Fail> {
    let alloc = rt.alloc();
    let sure = Edge {
        step: 4096,
        failing: &[],
    };
    let rows: [&[&str]; 4] = [
        &["run", "--decider", "plain"],
        &["run", "--decider=plain"],
        &["run", "--decider", "graph"],
        &["run", "--decider=graph"],
    ];
    for words in rows {
        let told = call(alloc, words, SCRIPT, sure, 4096, sure)?;
        assert_eq!(rt; told.status, 0);
        assert_eq!(rt; told.held.as_slice(), OUTPUT);
    }
    let words = words_of(alloc, &["run"])?;
    let mut source = MemorySource::new(SCRIPT.to_vec(alloc)?, 1, Vec::new(alloc));
    let mut sink = MemorySink::new(alloc, 4096, 4096, Vec::new(alloc))?;
    let status = lois(alloc, &words, &mut source, &mut sink, Vec::new(alloc));
    assert_eq!(rt; status, 9);
    assert_eq!(rt; sink.held(), USAGE);
    Ok(())
}

#[test]
fn a_text_over_the_limit_is_too_long(rt: HostRuntime) -> Result<(), Fail> {
    let alloc = rt.alloc();
    let spaces = vec![in alloc; b' '; 1_048_577]?;
    let told = run(alloc, &spaces)?;
    assert_eq!(rt; told.status, 5);
    assert_eq!(rt; told.held.as_slice(), TOO_LONG);
    Ok(())
}

// Each call of the source fails in turn, the one that would find the end among them. One that is never made can't.
#[test]
fn a_fault_of_the_source_is_told(rt: HostRuntime) -> Result<(), Fail> {
    let alloc = rt.alloc();
    for (step, calls) in [(1, 40), (8, 6), (4096, 2)] {
        for failing in 0..calls {
            let told = call(
                alloc,
                &["run"],
                SCRIPT,
                Edge {
                    step,
                    failing: &[failing],
                },
                4096,
                Edge {
                    step: 4096,
                    failing: &[],
                },
            )?;
            assert_eq!(rt; told.status, 6, "step {step}, call {failing}");
            assert_eq!(rt; told.held.len(), 0, "step {step}, call {failing}");
        }
        let told = call(
            alloc,
            &["run"],
            SCRIPT,
            Edge {
                step,
                failing: &[40],
            },
            4096,
            Edge {
                step: 4096,
                failing: &[],
            },
        )?;
        assert_eq!(rt; told.status, 0, "step {step}");
    }
    Ok(())
}

// A call of the sink that fails leaves what the calls before it took.
#[test]
fn a_fault_of_the_sink_is_told(rt: HostRuntime) -> Result<(), Fail> {
    let alloc = rt.alloc();
    for (step, failing, room, held) in [
        (10, 1, 4096, 10),
        (10, 7, 4096, 70),
        (10, 99, 70, 70),
        (1, 75, 4096, 75),
        (4096, 9, 70, 70),
        (7, 99, 70, 70),
        (4096, 9, 0, 0),
    ] {
        let told = call(
            alloc,
            &["run"],
            SCRIPT,
            Edge {
                step: 4096,
                failing: &[],
            },
            room,
            Edge {
                step,
                failing: &[failing],
            },
        )?;
        assert_eq!(rt; told.status, 7, "step {step}, call {failing}, room {room}");
        assert_eq!(rt;
            told.held.as_slice(),
            &OUTPUT[..held],
            "step {step}, call {failing}, room {room}"
        );
    }
    for step in [1, 7, 10, 75, 76, 4096] {
        let told = call(
            alloc,
            &["run"],
            SCRIPT,
            Edge {
                step: 4096,
                failing: &[],
            },
            76,
            Edge {
                step,
                failing: &[76],
            },
        )?;
        assert_eq!(rt; told.status, 0, "step {step}");
        assert_eq!(rt; told.held.as_slice(), OUTPUT, "step {step}");
    }
    Ok(())
}

// Each call in turn of a sink that takes ten bytes a call.
#[test]
fn each_call_of_the_sink_can_fail(rt: HostRuntime) -> Result<(), Fail> {
    let alloc = rt.alloc();
    let rows = [
        (0, 0),
        (1, 10),
        (2, 20),
        (3, 30),
        (4, 40),
        (5, 50),
        (6, 60),
        (7, 70),
    ];
    for (failing, held) in rows {
        let told = call(
            alloc,
            &["run"],
            SCRIPT,
            Edge {
                step: 4096,
                failing: &[],
            },
            76,
            Edge {
                step: 10,
                failing: &[failing],
            },
        )?;
        assert_eq!(rt; told.status, 7, "call {failing}");
        assert_eq!(rt; told.held.len(), held, "call {failing}");
        assert!(rt; OUTPUT.starts_with(told.held.as_slice()), "call {failing}");
    }
    Ok(())
}

// Each text after `atoms equality; `, with the place in its line and the cause.
#[test]
fn texts_are_refused(rt: HostRuntime) -> Result<(), Fail> {
    let alloc = rt.alloc();
    let rows: [(&str, usize, &str); 15] = [
        ("let a = @;", 25, "bad byte"),
        ("while true turns 007 { }", 34, "bad number"),
        ("let a = ;", 25, "not a script"),
        (
            "let a = ('t, 't, 't, 't, 't, 't, 't, 't, 't);",
            56,
            "tuple over 8",
        ),
        ("while true turns 1000001 { }", 34, "turns over 1000000"),
        ("print b;", 23, "unknown name"),
        ("let a = {}; let a = {};", 33, "name declared again"),
        ("for x in atoms { print x; }", 34, "print in a loop"),
        ("assert 'a < 'b;", 27, "order in an equality script"),
        (
            "let s = {}; for x in atoms { s := {x}; }",
            46,
            "assignment to outer variable",
        ),
        ("let a = atoms", 30, "not a script"),
        ("print a b;", 25, "not a script"),
        ("parameter a; parameter b;", 30, "not a script"),
        ("let a = ; while true turns 1000001 { }", 25, "not a script"),
        ("while true turns 1000001 { } ;", 34, "turns over 1000000"),
    ];
    for (rest, column, cause) in rows {
        let text = format!(in alloc; "atoms equality; {rest}")?;
        let line = format!(in alloc; "refused at 1:{column}: {cause}\n")?;
        for word in ["run", "check"] {
            let told = asked(alloc, &[word], text.as_bytes())?;
            assert_eq!(rt; told.status, 5, "{word}: {rest}");
            assert_eq!(rt; told.held.as_slice(), line.as_bytes(), "{word}: {rest}");
        }
    }
    Ok(())
}

#[test]
fn long_texts_are_refused(rt: HostRuntime) -> Result<(), Fail> {
    let alloc = rt.alloc();
    let name = repeated(alloc, b"atoms equality; let ", b"a", 65, b"")?;
    let nested = repeated(alloc, b"atoms equality; let a = ", b"{", 65, b"")?;
    let spaces = vec![in alloc; b' '; 1_048_576]?;
    let rows: [(&[u8], &[u8]); 4] = [
        (&name, b"refused at 1:21: long name\n"),
        (&nested, b"refused at 1:89: nesting over 64\n"),
        (&spaces, b"refused at 1:1048577: not a script\n"),
        (b"", b"refused at 1:1: not a script\n"),
    ];
    for (text, line) in rows {
        let told = run(alloc, text)?;
        assert_eq!(rt; told.status, 5);
        assert_eq!(rt; told.held.as_slice(), line);
    }
    Ok(())
}

// The choice and the elements are the run's own.
#[test]
fn scripts_fail(rt: HostRuntime) -> Result<(), Fail> {
    let alloc = rt.alloc();
    let rows: [(&str, u8, &str); 4] = [
        (
            "atoms order; for x in atoms { for y in x { } }",
            2,
            "lois results 2\natoms order\nparameters\nfailed at 1:40: not a set\n",
        ),
        (
            "atoms equality; for x in atoms { for y in atoms { assert x = y; } }",
            1,
            "lois results 2\natoms equality\nparameters\nfailed at 1:51: assertion failed\n",
        ),
        (
            "atoms equality; while true turns 3 { }",
            3,
            "lois results 2\natoms equality\nparameters\nfailed at 1:17: turn limit\nchoice\nend\n",
        ),
        (
            "atoms order; parameter a, b; assert a < b;",
            1,
            "lois results 2\natoms order\nparameters a b\nfailed at 1:30: assertion failed\n",
        ),
    ];
    for (text, status, front) in rows {
        let told = run(alloc, text.as_bytes())?;
        assert_eq!(rt; told.status, status, "{text}");
        assert!(rt;
            told.held.as_slice().starts_with(front.as_bytes()),
            "{text}"
        );
    }
    Ok(())
}

// The printed forms are those that the independent reference prints.
#[test]
fn scripts_are_checked(rt: HostRuntime) -> Result<(), Fail> {
    let alloc = rt.alloc();
    let rows: [(&str, &str); 6] = [
        // What fails in a run is a script all the same.
        (
            "atoms equality; let r = reach({});",
            "atoms equality ;\nlet r = reach ( { } ) ;\n",
        ),
        (
            "atoms equality; # one\nif empty({}) { }",
            "atoms equality ;\nif empty ( { } ) {\n}\n",
        ),
        (
            "atoms order; let m = {minimise(x) for x in atoms};",
            "atoms order ;\nlet m = { minimise ( x ) for x in atoms } ;\n",
        ),
        // LF stands behind `;` and the two braces of a block alone, and an empty `else` is left out.
        (
            "atoms order; parameter p, q; let s = {}; print p; if p < q { s := {p}; } else {} if true {} else { s := {}; }",
            "atoms order ;\nparameter p , q ;\nlet s = { } ;\nprint p ;\nif p < q {\ns := { p } ;\n}\nif true {\n}\nelse {\ns := { } ;\n}\n",
        ),
        (
            "atoms order;parameter a,b;let s={};while a in{b}turns 10{add part(('or,{a,b}),2)to s;}for x in union({a},{b})where x!=a{}",
            "atoms order ;\nparameter a , b ;\nlet s = { } ;\nwhile a in { b } turns 10 {\nadd part ( ( 'or , { a , b } ) , 2 ) to s ;\n}\nfor x in union ( { a } , { b } ) where x != a {\n}\n",
        ),
        // Brackets stay where a base is asked for, round an `or` or an `and` beside `and`, and round an `or` beside `or`.
        (
            "atoms equality; parameter a, b, c; assert not [a = b and c = a] and [b = c or [a = c]] and [a = b and b = c] or [true or false] or [empty({}) and exists x in {a}: [not x = b]];",
            "atoms equality ;\nparameter a , b , c ;\nassert not [ a = b and c = a ] and [ b = c or a = c ] and [ a = b and b = c ] or [ true or false ] or empty ( { } ) and exists x in { a } : [ not x = b ] ;\n",
        ),
    ];
    for (text, printed) in rows {
        let told = asked(alloc, &["check"], text.as_bytes())?;
        assert_eq!(rt; told.status, 0, "{text}");
        assert_eq!(rt; told.held.as_slice(), printed.as_bytes(), "{text}");
    }
    Ok(())
}

// 64 brackets at one place run, and so do 20,000 statements; a 65th set around a value is too deep.
#[test]
fn deep_and_long_scripts_run(rt: HostRuntime) -> Result<(), Fail> {
    let alloc = rt.alloc();
    let front = repeated(alloc, b"atoms equality; let a = ", b"{", 64, b"")?;
    let mut deep = repeated(alloc, &front, b"}", 64, b"; ")?;
    assert_eq!(rt; run(alloc, &deep)?.status, 0);
    deep.extend_from_slice(b"let b = {a};")?;
    assert_eq!(rt; run(alloc, &deep)?.status, 4);
    let mut long = b"atoms order;".to_vec(alloc)?;
    for index in 0..20_000u32 {
        let line = format!(in alloc; "let n{index} = {{}};")?;
        long.extend_from_slice(line.as_bytes())?;
    }
    assert_eq!(rt; run(alloc, &long)?.status, 0);
    Ok(())
}

// The first bytes of the script, up to each length.
#[test]
fn truncated_scripts(rt: HostRuntime) -> Result<(), Fail> {
    let alloc = rt.alloc();
    let whole = [15, 16, 30, 31, 39];
    for len in 0..=SCRIPT.len() {
        let told = run(alloc, &SCRIPT[..len])?;
        let status = if whole.contains(&len) { 0 } else { 5 };
        assert_eq!(rt; told.status, status, "{len}");
    }
    Ok(())
}

#[test]
fn answers_are_read_again(rt: HostRuntime) -> Result<(), Fail> {
    let alloc = rt.alloc();
    let rows: [&[u8]; 4] = [
        OUTPUT,
        b"lois results 1\natoms order\nparameters\ncase when true\ns = {($0, $1) for $0 $1 if $0<$1}\nend\n",
        b"lois results 2\natoms order\nparameters\nfailed at 1:40: not a set\nchoice 0\nfor x = $0\nend\n",
        b"lois results 2\natoms order\nparameters a b\nfailed at 1:30: assertion failed\nchoice 0 0\nend\n",
    ];
    for text in rows {
        let told = asked(alloc, &["reread"], text)?;
        assert_eq!(rt; told.status, 0);
        assert_eq!(rt; told.held.as_slice(), text);
    }
    Ok(())
}

// A second space, another version, and a guard that is left out where it is true.
#[test]
fn other_texts_are_no_results(rt: HostRuntime) -> Result<(), Fail> {
    let alloc = rt.alloc();
    let rows: [(&[u8], &[u8]); 3] = [
        (b"lois  results 1\n", b"refused at 1:6: not results\n"),
        (b"lois results 3\n", b"refused at 1:14: not results\n"),
        (
            b"lois results 1\natoms order\nparameters\ncase when true\na = {$0 for $0 if true}\nend\n",
            b"refused at 5:19: not results\n",
        ),
    ];
    for (text, line) in rows {
        let told = asked(alloc, &["reread"], text)?;
        assert_eq!(rt; told.status, 5);
        assert_eq!(rt; told.held.as_slice(), line);
    }
    Ok(())
}

// The first bytes of the output, up to each length: where each line begins.
#[test]
fn truncated_outputs_are_no_results(rt: HostRuntime) -> Result<(), Fail> {
    let alloc = rt.alloc();
    for (line, begin, end) in [
        (1, 0, 15),
        (2, 15, 30),
        (3, 30, 41),
        (4, 41, 56),
        (5, 56, 72),
        (6, 72, 76),
    ] {
        for len in begin..end {
            let told = asked(alloc, &["reread"], &OUTPUT[..len])?;
            let column = len - begin + 1;
            let refused = format!(in alloc; "refused at {line}:{column}: not results\n")?;
            assert_eq!(rt; told.status, 5, "{len}");
            assert_eq!(rt; told.held.as_slice(), refused.as_bytes(), "{len}");
        }
    }
    Ok(())
}
