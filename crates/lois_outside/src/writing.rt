// Writing all bytes to a sink.
ghost use Rattle.std.specs.Prelude.{◌≤◌, [], OnErr, OnOk};
ghost use Rattle.std.specs.Io.KnownBytes.{Appends};
ghost use Rattle.lois_outside.specs.Writing.{Writes, AppendsProperPrefix, FailsWriting};
ghost use Rattle.lois_outside.specs.Faults.{Rose};

use crate::{Failed, Sink};

/// Writes all bytes. Each call of the sink is handed all that aren't appended yet, and the first one
/// that fails is the last.
pub fn write_all<K: Sink>(sink: &mut K, bytes: &[u8]) -> Result<(), Failed>
    ensures whole { OnOk result (Appends (K.held sink.old) (K.held sink.new) bytes.now) }

    ensures fault { OnErr result (Rose (K.faults sink.old) (K.faults sink.new)) }
    ensures proper_prefix { OnErr result (AppendsProperPrefix (K.held sink.old) (K.held sink.new) bytes.now) }
    ensures count_never_falls { K.faults sink.old ≤ K.faults sink.new }

    // The same of the calls, where the sink doesn't tell its bytes.
    ensures calls { OnOk result (Writes K.puts sink.old bytes.now [] sink.new) }
    ensures calls_to_fault { OnErr result (FailsWriting K.puts sink.old bytes.now sink.new) }
{
    let mut rest = bytes;
    while !rest.is_empty() {
        let count = sink.put(rest)?;
        rest = &rest[count..];
    }
    Ok(())
}
