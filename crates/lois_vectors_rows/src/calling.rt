//! Calls of the program over memory.

use lois_base::{Decider, NoMemory};
use lois_deciders::{GraphDecider, MemoDecider, PlainDecider};
use lois_outside::{MemorySink, MemorySource};
use lois_run::lois;
use std::alloc::{AllocError, Global};
use std::test::Fail;

/// What is written where the words are none that the program takes.
pub(crate) const USAGE: &[u8] =
    b"usage: lois run|check|reread|make N|equal A B|registers|census A [--decider plain|graph|memo]\n";

/// The deciders that can be named.
pub(crate) const KINDS: [&str; 3] = ["graph", "plain", "memo"];

/// What the call answered, and what the sink holds.
#[derive(Drop)]
pub(crate) struct Told {
    pub(crate) status: u8,
    pub(crate) held: Vec<u8>,
}

fn words_of(alloc: Global, words: &[&str]) -> Result<Vec<String>, AllocError> {
    let mut owned = Vec::new(alloc);
    for word in words {
        owned.push(String::from_str(alloc, word)?)?;
    }
    Ok(owned)
}

/// The deciders that the program hands in.
pub(crate) fn all_deciders(alloc: Global) -> Result<Vec<Box<dyn Decider>>, NoMemory> {
    let graph: Box<dyn Decider> = Box::new(alloc, GraphDecider::new())?;
    let plain: Box<dyn Decider> = Box::new(alloc, PlainDecider::new())?;
    let memo: Box<dyn Decider> = Box::new(alloc, MemoDecider::new(alloc, 4096)?)?;
    let mut deciders = Vec::new(alloc);
    deciders.push(graph)?;
    deciders.push(plain)?;
    deciders.push(memo)?;
    Ok(deciders)
}

/// One call with these deciders. The calls of the source that are named fail.
pub(crate) fn called(
    alloc: Global,
    words: &[&str],
    text: &[u8],
    failing: &[u64],
    deciders: Vec<Box<dyn Decider>>,
) -> Result<Told, Fail> {
    let words = words_of(alloc, words)?;
    let mut source = MemorySource::new(text.to_vec(alloc)?, 4096, failing.to_vec(alloc)?);
    let mut sink = MemorySink::new(alloc, 4096, 4096, Vec::new(alloc))?;
    let status = lois(alloc, &words, &mut source, &mut sink, deciders);
    Ok(Told {
        status,
        held: sink.held().to_vec(alloc)?,
    })
}

/// One call with all deciders, whose source doesn't fail.
pub(crate) fn asked(alloc: Global, words: &[&str], text: &[u8]) -> Result<Told, Fail> {
    called(alloc, words, text, &[], all_deciders(alloc)?)
}

/// The front, so many pieces, and the back.
pub(crate) fn repeated(
    alloc: Global,
    front: &[u8],
    piece: &[u8],
    times: usize,
    back: &[u8],
) -> Result<Vec<u8>, AllocError> {
    let mut text = front.to_vec(alloc)?;
    for _ in 0..times {
        text.extend_from_slice(piece)?;
    }
    text.extend_from_slice(back)?;
    Ok(text)
}
