// Reading a source to its end.
ghost use Rattle.std.specs.Prelude.{◌≡◌, ◌+◌, ◌<◌, ◌≤◌, ◌++◌, Err, IfErr, IfOk, OnOk, length, vec_capacity, vec_len};
ghost use Rattle.std.specs.Io.KnownBytes.{Consumes, IsAtEnd};
ghost use Rattle.lois_outside.specs.Faults.{Rose};
ghost use Rattle.lois_outside.specs.Reading.{GivesUp, ReadsToEnd};
ghost use Rattle.lois_outside.specs.Consumed.{HasConsumed};

use crate::{Failed, Source};
use std::alloc::Global;
use thiserror::Error;

/// Why [`read_all`] gave no bytes.
#[derive(Debug, Drop, PartialEq, Eq, Error)]
pub enum ReadError {
    /// A call of the source failed.
    #[error("the input can't be read")]
    ReadFault,

    /// The input has more bytes than the limit. The number is how many were taken.
    #[error("the input is too long: {0} bytes and more")]
    TooLong(usize),

    /// Memory ran out.
    #[error("out of memory")]
    NoMemory,
}

// How many bytes a call asks for at most.
const PIECE: usize = 4096;

/// Reads all bytes up to the end of the input, and asks for at most `limit + 1` bytes in all.
/// Whatever it answers, the bytes that it took stay taken. Room is made before each piece is
/// taken, so that no byte is lost for want of memory.
pub fn read_all<S: Source>(
    alloc: Global,
    source: &mut S,
    limit: usize,
) -> Result<Vec<u8>, ReadError>
    requires { limit < usize.MAX }

    ensures whole { IfOk result (λ v. Consumes (S.left source.old) (S.left source.new) v.items) }
    ensures ended { OnOk result (IsAtEnd (S.left source.new)) }
    ensures fits { IfOk result (λ v. vec_len v ≤ limit) }

    // `TooLong(limit + 1)` where that many bytes were taken. Every other error took at most `limit`.
    ensures stays_taken { IfErr result (HasConsumed limit (S.left source.old) (S.left source.new)) }
    ensures read_fault { result ≡ Err ReadError.ReadFault → Rose (S.faults source.old) (S.faults source.new) }
    ensures count_never_falls { S.faults source.old ≤ S.faults source.new }

    // The same of the calls, where the source doesn't tell its bytes.
    ensures calls_to_end { IfOk result (λ v. ReadsToEnd S.takes (limit + 1) source.old v.items source.new) }
    ensures calls_to_error { IfErr result (λ e. GivesUp S.takes limit source.old e source.new) }
{
    let mut bytes = Vec::new(alloc);
    let mut piece = [0; PIECE];
    while bytes.len() <= limit {
        let asked = PIECE.min(limit + 1 - bytes.len());
        bytes.reserve(asked).map_err(|_| ReadError::NoMemory)?;
        match source.take(&mut piece[..asked]) {
            Ok(0) => return Ok(bytes),
            Ok(count) => append(&mut bytes, &piece[..count]),
            Err(Failed) => return Err(ReadError::ReadFault),
        }
    }
    Err(ReadError::TooLong(bytes.len()))
}

// Appends where room was reserved.
fn append(bytes: &mut Vec<u8>, piece: &[u8])
    requires { vec_len bytes.old + length piece.now ≤ vec_capacity bytes.old }
    ensures items { bytes.new.items ≡ bytes.old.items ++ piece.now }
    ensures len { vec_len bytes.new ≡ vec_len bytes.old + length piece.now }
{
    bytes.extend_from_slice(piece).unwrap();
}
