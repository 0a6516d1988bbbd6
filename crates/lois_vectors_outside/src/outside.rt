//! Tables over steps, limits, rooms and failing calls, and std's adapters over files and over a reader
//! and a writer that fail once.
ghost use Rattle.std.specs.Prelude.{◌≤◌};

use lois_outside::{
    Failed, MemorySink, MemorySource, ReadError, Sink, Source, StdSink, StdSource, SureSink,
    SureSource, read_all, write_all,
};
use std::alloc::{AllocError, Global};
use std::io::{Read, Write};
use std::test::Fail;
use std::{env, fs, io, process};

// A script of 39 bytes, and its output of 76.
const SCRIPT: &[u8] = b"atoms equality; let a = atoms; print a;";

const OUTPUT: &[u8] =
    b"lois results 1\natoms equality\nparameters\ncase when true\na = {$0 for $0}\nend\n";

fn script_source(alloc: Global, step: usize, failing: &[u64]) -> Result<MemorySource, AllocError>
    requires { 1 ≤ step }
{
    Ok(MemorySource::new(SCRIPT.to_vec(alloc)?, step, failing.to_vec(alloc)?))
}

#[test]
fn reads_to_the_end(rt: HostRuntime) -> Result<(), Fail> {
    let alloc = rt.alloc();
    for step in [1, 8, 38, 39, 4096] {
        for limit in [39, 40, 1_048_576] {
            let mut source = script_source(alloc, step, &[])?;
            let bytes = read_all(alloc, &mut source, limit)?;
            assert_eq!(rt; bytes.as_slice(), SCRIPT, "at step {step}, limit {limit}");
        }
        for limit in [0, 1, 7, 8, 38] {
            let mut source = script_source(alloc, step, &[])?;
            let answer = read_all(alloc, &mut source, limit);
            assert_eq!(rt;
                answer.err(),
                Some(ReadError::TooLong(limit + 1)),
                "at step {step}"
            );

            // The bytes behind those that were taken are left.
            let rest = read_all(alloc, &mut source, 39)?;
            assert_eq!(rt;
                rest.as_slice(),
                &SCRIPT[limit + 1..],
                "at step {step}, limit {limit}"
            );
        }
    }
    let mut nothing = MemorySource::new(Vec::new(alloc), 1, Vec::new(alloc));
    assert_eq!(rt; read_all(alloc, &mut nothing, 0)?.len(), 0);
    Ok(())
}

#[test]
fn tells_a_fault_of_the_source(rt: HostRuntime) -> Result<(), Fail> {
    let alloc = rt.alloc();
    for (failing, taken) in [(0, 0), (1, 8), (2, 16), (3, 24), (4, 32), (5, 39)] {
        let mut source = script_source(alloc, 8, &[failing])?;
        let answer = read_all(alloc, &mut source, 1_048_576);
        assert_eq!(rt;
            answer.err(),
            Some(ReadError::ReadFault),
            "at call {failing}"
        );

        // What was taken stays taken, and the next call doesn't fail again.
        let rest = read_all(alloc, &mut source, 1_048_576)?;
        assert_eq!(rt; rest.as_slice(), &SCRIPT[taken..], "after call {failing}");
    }
    let mut source = script_source(alloc, 8, &[40])?;
    assert_eq!(rt; read_all(alloc, &mut source, 1_048_576)?.as_slice(), SCRIPT);
    Ok(())
}

#[test]
fn writes_as_far_as_the_sink_takes(rt: HostRuntime) -> Result<(), Fail> {
    let alloc = rt.alloc();
    for failing in 0..8usize {
        let list = [failing as u64].to_vec(alloc)?;
        let mut sink = MemorySink::new(alloc, 76, 10, list)?;
        assert_eq!(rt;
            write_all(&mut sink, OUTPUT),
            Err(Failed),
            "at call {failing}"
        );
        assert_eq!(rt; sink.held(), &OUTPUT[..10 * failing], "at call {failing}");
    }
    for (room, is_written) in [
        (0, false),
        (70, false),
        (75, false),
        (76, true),
        (100, true),
    ] {
        for step in [1, 10, 4096] {
            let mut sink = MemorySink::new(alloc, room, step, Vec::new(alloc))?;
            let answer = write_all(&mut sink, OUTPUT);
            assert_eq!(rt; answer.is_ok(), is_written, "at room {room}, step {step}");
            assert_eq!(rt;
                sink.held(),
                &OUTPUT[..room.min(76)],
                "at room {room}, step {step}"
            );

            // Nothing to write is written anywhere.
            assert_eq!(rt; write_all(&mut sink, &[]), Ok(()));
        }
    }
    Ok(())
}

#[test]
fn never_fails_where_it_is_sure(rt: HostRuntime) -> Result<(), Fail> {
    let alloc = rt.alloc();
    let mut source = SureSource::new(SCRIPT.to_vec(alloc)?);
    assert_eq!(rt; read_all(alloc, &mut source, 39)?.as_slice(), SCRIPT);
    let mut sink = SureSink::new();
    assert_eq!(rt; write_all(&mut sink, OUTPUT), Ok(()));
    assert_eq!(rt; sink.put(OUTPUT), Ok(76));
    Ok(())
}

#[test]
fn reads_and_writes_a_file(rt: HostRuntime) -> Result<(), Fail> {
    let alloc = rt.alloc();
    let name = format!(in alloc; "lois_outside_{}", process::id(rt.process()))?;
    let path = env::temp_dir(&rt)?.join(alloc, name.as_str())?;
    let mut sink = StdSink::new(fs::create(&rt, path.as_path())?);
    assert_eq!(rt; write_all(&mut sink, OUTPUT), Ok(()));
    let mut source = StdSource::new(fs::open(&rt, path.as_path())?);
    let bytes = read_all(alloc, &mut source, 76);

    // A file that was opened to be read takes nothing.
    let mut closed = StdSink::new(fs::open(&rt, path.as_path())?);
    let refused = write_all(&mut closed, OUTPUT);
    fs::remove_file(&rt, path.as_path())?;
    assert_eq!(rt; bytes?.as_slice(), OUTPUT);
    assert_eq!(rt; refused, Err(Failed));

    // A folder opens, and gives no bytes.
    let mut folder = StdSource::new(fs::open(&rt, env::temp_dir(&rt)?)?);
    assert_eq!(rt;
        read_all(alloc, &mut folder, 76).err(),
        Some(ReadError::ReadFault)
    );
    Ok(())
}

// Reads or writes 10 bytes at a call, and fails at one of them.
#[derive(Drop)]
struct Breaking<T> {
    inner: T,
    calls: usize,
    breaks_at: usize,
}

impl<T> Breaking<T> {
    fn count_call(&mut self) -> io::Result<()> {
        let breaks = self.calls == self.breaks_at;
        self.calls = self.calls.saturating_add(1);
        if breaks {
            Err(io::Error::other("broken"))
        } else {
            Ok(())
        }
    }
}

impl<R: Read> Read for Breaking<R> {
    fn read(&mut self, buf: &mut [u8]) -> io::Result<usize> {
        self.count_call()?;
        let most = buf.len().min(10);
        self.inner.read(&mut buf[..most])
    }
}

impl<W: Write> Write for Breaking<W> {
    fn write(&mut self, buf: &[u8]) -> io::Result<usize> {
        self.count_call()?;
        self.inner.write(&buf[..buf.len().min(10)])
    }

    fn flush(&mut self) -> io::Result<()> {
        self.inner.flush()
    }
}

#[test]
fn tells_a_fault_in_mid_stream(rt: HostRuntime) -> Result<(), Fail> {
    let alloc = rt.alloc();
    for breaks_at in 0..9usize {
        let mut source = StdSource::new(Breaking {
            inner: OUTPUT,
            calls: 0,
            breaks_at,
        });
        let answer = read_all(alloc, &mut source, 76);
        assert_eq!(rt;
            answer.err(),
            Some(ReadError::ReadFault),
            "at call {breaks_at}"
        );
        let rest = read_all(alloc, &mut source, 76)?;
        assert_eq!(rt; rest.as_slice(), &OUTPUT[(10 * breaks_at).min(76)..]);
    }
    for breaks_at in 0..8usize {
        let mut written = Vec::new(alloc);
        let mut sink = StdSink::new(Breaking {
            inner: &mut written,
            calls: 0,
            breaks_at,
        });
        assert_eq!(rt;
            write_all(&mut sink, OUTPUT),
            Err(Failed),
            "at call {breaks_at}"
        );
        assert_eq!(rt; written.as_slice(), &OUTPUT[..10 * breaks_at]);
    }
    Ok(())
}

// A writer that takes no byte any more.
#[derive(Drop)]
struct Full;

impl Write for Full {
    fn write(&mut self, _buf: &[u8]) -> io::Result<usize> {
        Ok(0)
    }

    fn flush(&mut self) -> io::Result<()> {
        Ok(())
    }
}

#[test]
fn a_write_of_nothing_is_a_fault(rt: HostRuntime) {
    let mut sink = StdSink::new(Full);
    assert_eq!(rt; write_all(&mut sink, OUTPUT), Err(Failed));
    assert_eq!(rt; sink.put(&[]), Ok(0));
}

#[test]
fn reads_a_mebibyte_in_pieces(rt: HostRuntime) -> Result<(), Fail> {
    let alloc = rt.alloc();
    let spaces = vec![in alloc; b' '; 1_048_577]?;
    let all = MemorySource::new(spaces.as_slice()[1..].to_vec(alloc)?, 4096, Vec::new(alloc));
    let mut source = all;
    assert_eq!(rt; read_all(alloc, &mut source, 1_048_576)?.len(), 1_048_576);
    let mut source = MemorySource::new(spaces, 4096, Vec::new(alloc));
    let answer = read_all(alloc, &mut source, 1_048_576);
    assert_eq!(rt; answer.err(), Some(ReadError::TooLong(1_048_577)));
    Ok(())
}
