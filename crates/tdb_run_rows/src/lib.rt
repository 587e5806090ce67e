//! Runs over a platform in memory, as tests of whole runs make them, and the script that several of them run.
//!
//! It stands on the run and on the platform and the streams in memory. It carries no promise: a test looks at
//! what a run has come to. The calls have no clause, so that no test's proof has the whole contract of a run
//! before it.
#![tactic(auto)]

use std::alloc::{AllocError, Global};
use tdb_platform::{MemoryPlatform, Platform};
use tdb_run::{Status, Success, run};
use tdb_stream::{MemorySink, MemorySource};

/// A script was carried out.
pub const DONE: Status = Status::Done(Success::Script);

/// The script of a store's first note.
pub const SCRIPT: &[u8] = b"begin 1\nnew 1 note hello\ncommit 1\nquit\n";

/// The replies to that script.
pub const REPLIES: &[u8] = b"begun 1\nmade 1 1\ncommitted 1\nbye\n";

/// What a run over memory leaves.
#[derive(Drop)]
pub struct Outcome<P: Platform> {
    /// How the run ended.
    pub status: Status,
    /// The platform that it was handed.
    pub platform: P,
    /// What it put.
    pub sink: MemorySink,
}

/// Runs words and a script over a fresh device, under a secret of 32 zero bytes. The calls of the platform, of the
/// source and of the sink with these numbers, from 1 on, fail.
pub fn run_over_memory(
    alloc: Global,
    words: &[&str],
    script: &[u8],
    failing: [&[u64]; 3],
) -> Result<Outcome<MemoryPlatform>, AllocError> {
    let [platform, source, sink] = failing;
    let (image, fail) = (Vec::new(alloc), platform.to_vec(alloc)?);
    let platform = MemoryPlatform::new(alloc, image, 0, [0; 32], fail, None)?;
    run_with(alloc, words, script, platform, [source, sink])
}

/// Runs words and a script over a device with these bytes and an anchor of this count and mark.
pub fn run_on(
    alloc: Global,
    words: &[&str],
    script: &[u8],
    image: &[u8],
    anchor: (u64, [u8; 32]),
) -> Result<Outcome<MemoryPlatform>, AllocError> {
    let (image, fail) = (image.to_vec(alloc)?, Vec::new(alloc));
    let platform = MemoryPlatform::new(alloc, image, anchor.0, anchor.1, fail, None)?;
    run_with(alloc, words, script, platform, [&[], &[]])
}

/// Runs words and a script over a platform, where these calls of the source and of the sink fail.
pub fn run_with<P: Platform + Drop>(
    alloc: Global,
    words: &[&str],
    script: &[u8],
    platform: P,
    failing: [&[u64]; 2],
) -> Result<Outcome<P>, AllocError> {
    let [source, sink] = failing;
    let mut source = MemorySource::new(script.to_vec(alloc)?, source.to_vec(alloc)?);
    let mut sink = MemorySink::new(alloc, sink.to_vec(alloc)?);
    let archives = Vec::new(alloc);
    let ended = run(
        alloc,
        words,
        &mut source,
        &mut sink,
        platform,
        &[0; 32],
        archives,
    );
    Ok(Outcome {
        status: ended.status,
        platform: ended.platform,
        sink,
    })
}
