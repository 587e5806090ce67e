//! The start of a log on a device.
ghost use Rattle.std.specs.Prelude.{◌≡◌, ◌≤◌, ◌+◌, [], Err, IfErr, IfOk, IsTrue, None, OnOk, replicate};
ghost use Rattle.tdb_append.specs.Placed.{placed};
ghost use Rattle.tdb_base.specs.Rose.{Rose};
ghost use Rattle.tdb_mark.specs.declared.commit.Commit.{Commit};
ghost use Rattle.tdb_seg.specs.SegmentSpace.{fresh_space, with_bytes};
ghost use Rattle.tdb_overlay.specs.StoreState.{first_place, formatted_state, record_length};
ghost use Rattle.tdb_overlay.specs.Growth.{Added, IsSettled};
ghost use Rattle.tdb_overlay.specs.Ran.{RanStep};
ghost use Rattle.tdb_overlay.specs.SealedOnly.{OnlySealed};
ghost use Rattle.tdb_chunk.specs.declared.format.StoreError.TheVariants.{Fault, Memory};
ghost use Rattle.tdb_overlay.specs.Found.{store_under};
ghost use Rattle.tdb_chunk.specs.Formatting.{Formatted, IsStart, WritesFirstText};
ghost use Rattle.tdb_overlay.specs.Text.{next_commit};
ghost use Rattle.tdb_chunk.specs.Known.{IsAtHead, Knows, store_of};

use crate::open_log::OpenLog;
use std::alloc::Global;
use tdb_append::Head;
use tdb_base::{Digest, Piece, Suite};
use tdb_mark::{CHECKPOINT, Commit};
use tdb_overlay::{BaseTree, Batch, Keys, Overlay, Recovered, put_commit, seal_table};
use tdb_platform::Platform;
use tdb_seg::Segments;
use thiserror::Error;

/// Why no store was formatted.
#[derive(Clone, Copy, Debug, PartialEq, Eq, Error)]
pub enum StoreError {
    /// Memory ran out. Nothing was written.
    #[error("memory ran out")]
    Memory,
    /// The platform failed. The start of the log may stand or not.
    #[error("the platform failed")]
    Fault,
}

/// The start of a log that is laid, and not yet written: its table, and the text that names it.
#[derive(Drop)]
struct Start {
    commit: Commit,
    batch: Batch,
}

/// How many bytes the record of a segment table has.
fn table_record(suite: Suite) -> u32
    ensures { result ≡ record_length suite 528 }
{
    match suite {
        Suite::Plain => 576,
        Suite::Aes128 | Suite::Aes256 => 592,
    }
}

/// The segments behind the table of a fresh device.
fn first_space(suite: Suite, segments: u32) -> Segments
    requires least { 16 ≤ segments }
    requires most { segments ≤ 4096 }
    ensures { result ≡ with_bytes (fresh_space segments) first_place (record_length suite 528) }
{
    let mut space = Segments::new(segments);
    let _place = space.place(table_record(suite), 0);
    space
}

/// No text yet.
fn no_head() -> Head
    ensures count { result.count ≡ 0 }
    ensures mark { result.mark.0 ≡ replicate 32 0 }
    ensures base { result.base ≡ 1 }
{
    Head {
        count: 0,
        mark: Digest([0; 32]),
        base: 1,
    }
}

/// The first text: a checkpoint without partitions.
fn first_commit(head: &Head, suite: Suite, segments: u32, first: Piece) -> Commit
    requires { head.now.count ≡ 0 }
    ensures { result ≡ next_commit suite head.now 2 1 segments first None }
{
    Commit {
        kind: CHECKPOINT,
        suite,
        count: head.count + 1,
        prev: head.mark,
        base: 1,
        segments,
        first,
        root: None,
    }
}

/// Seals and places the table of a fresh device.
fn lay_start(
    alloc: Global,
    keys: &Keys,
    suite: Suite,
    head: &Head,
    segments: u32,
) -> Result<Start, StoreError>
    requires least { 16 ≤ segments }
    requires most { segments ≤ 4096 }
    requires head { head.now.count ≡ 0 }
    ensures start { IfOk result (λ start. IsStart (store_under keys.now suite) head.now segments start.commit
        (placed start.batch.pieces.items) start.batch.segments) }
    ensures memory { IfErr result (λ e. e ≡ Memory) }
{
    let Ok(table) = seal_table(alloc, keys, suite, &first_space(suite, segments).table()) else {
        return Err(StoreError::Memory);
    };
    let mut batch = Batch::new(alloc, Segments::new(segments));
    let Ok(first) = batch.lay(table, 0) else {
        return Err(StoreError::Memory);
    };
    let commit = first_commit(head, suite, segments, first);
    Ok(Start { commit, batch })
}

impl OpenLog {
    /// Lays the start of a log on a device whose anchor has the count 0: the segment table, and the checkpoint that names
    /// it, both in the suite of the store. There are 16 to 4,096 segments. After `Err(Fault)` the start stands or not.
    pub fn format<P: Platform>(
        alloc: Global,
        platform: &mut P,
        keys: Keys,
        suite: Suite,
        segments: u32,
    ) -> Result<OpenLog, StoreError>
        requires first { IsTrue (P.outside platform.old).tells → (P.outside platform.old).anchor.0 ≡ 0 }
        requires settled { IsSettled P.outside P.crash_states platform.old }
        requires least { 16 ≤ segments }
        requires most { segments ≤ 4096 }
        ensures store { IfOk result (λ store. store_of store ≡ store_under keys suite) }
        ensures at_head { IfOk result (λ store. IsAtHead (P.outside platform.new) store) }
        ensures settled { OnOk result (IsSettled P.outside P.crash_states platform.new) }
        // the log has its first text, and no commit
        ensures added { IsTrue (P.outside platform.old).tells
            → Added P.outside P.crash_states (store_under keys suite) platform.old platform.new
            (Formatted (store_under keys suite) segments) result }
        ensures knows { IfOk result (λ store. Knows (P.outside platform.new) store (formatted_state (store_under keys suite) segments)) }
        // nothing is read from the device
        ensures unread { IsTrue (P.outside platform.old).tells → (P.outside platform.new).trace.read ≡ (P.outside platform.old).trace.read }
        // only sealed records and texts go to the device
        ensures sealed { OnlySealed keys (P.outside platform.old) (P.outside platform.new) }
        // no text but the first is written
        ensures texts { WritesFirstText keys (P.outside platform.old) (P.outside platform.new) }
        // it is a step of a run, which adds no commit
        ensures steps { RanStep P.outside P.crash_states (store_under keys suite) [] platform.old platform.new result }
        ensures memory { result ≡ Err Memory → platform.new ≡ platform.old }
        ensures fault { result ≡ Err Fault → Rose (P.outside platform.old).faults (P.outside platform.new).faults }
        // with Ok there was no fault
        ensures quiet { OnOk result ((P.outside platform.new).faults ≡ (P.outside platform.old).faults) }
        ensures tells { (P.outside platform.new).tells ≡ (P.outside platform.old).tells }
        ensures honest { (P.outside platform.new).honest ≡ (P.outside platform.old).honest }
        ensures no_fewer { (P.outside platform.old).faults ≤ (P.outside platform.new).faults }
    {
        let head = no_head();
        let Start { commit, batch } = lay_start(alloc, &keys, suite, &head, segments)?;
        let Ok(head) = put_commit(platform, &keys, &head, &commit, &batch.pieces) else {
            return Err(StoreError::Fault);
        };
        Ok(OpenLog {
            keys,
            log: Recovered {
                suite,
                head,
                segments: batch.segments,
                overlay: Overlay::new(alloc),
                tree: BaseTree {
                    root: None,
                    leaders: Overlay::new(alloc),
                },
            },
        })
    }
}
