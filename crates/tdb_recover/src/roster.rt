//! The roster of a checkpoint and its leaders: the partitions as the checkpoint left them.
ghost use Rattle.std.specs.Prelude.{◌≡◌, ◌≢◌, ◌+◌, ◌<◌, ℕ, Err, IfOk, IfErr, IsTrue};
ghost use Rattle.tdb_map.specs.Tree.{HasAt};
ghost use Rattle.tdb_map.specs.Walk.{Ascends, listed};
ghost use Rattle.tdb_model.specs.State.{State};
ghost use Rattle.tdb_node.specs.declared.leader.Leader.{Leader as NodeLeader};
ghost use Rattle.tdb_overlay.specs.CheckpointState.{IsOfRoster};
ghost use Rattle.tdb_overlay.specs.Found.{in_trace, store_of_text};
ghost use Rattle.tdb_overlay.specs.InRange.{IsInFormat};
ghost use Rattle.tdb_overlay.specs.Reading.{OnlyReads};
ghost use Rattle.tdb_overlay.specs.Roster.{TellsPart, kept_of};
ghost use Rattle.tdb_overlay.specs.Trees.{map_height, nodes_in, roster};
ghost use Rattle.tdb_recover.specs.Explained.{IsCaused, IsExplained};
ghost use Rattle.tdb_recover.specs.Reads.{ReadsAtMost, ReadsOnly};
ghost use Rattle.tdb_recover.specs.Roster.{IsLeaderIn, IsRosterIn};
ghost use Rattle.tdb_recover.specs.declared.error.OpenError.TheVariants.{Fault};

use crate::error::OpenError;
use crate::records::open_record;
use std::alloc::Global;
use tdb_base::{PartId, Piece, Rank, Suite};
use tdb_map::walk_narrow;
use tdb_mark::Commit;
use tdb_node::read_leader;
use tdb_overlay::{DevicePieces, Keys, Leader, Overlay};
use tdb_platform::Platform;
use tdb_seal::Name;
use tdb_seg::Segments;

/// The kind of the record of a leader.
const LEADER: u32 = 3;

/// Reads the leader that stands for a partition with a number, in these segments.
fn read_partition<P: Platform>(
    alloc: Global,
    platform: &mut P,
    keys: &Keys,
    segments: &Segments,
    suite: Suite,
    part: Rank,
    piece: &Piece,
) -> Result<Leader, OpenError>
    ensures reads { OnlyReads P.outside P.crash_states platform.old platform.new }
    ensures format { IfOk result IsInFormat }
    ensures leader { IsTrue (P.outside platform.old).tells → IfOk result (λ leader. (l : NodeLeader)
        → IsLeaderIn (P.outside platform.old).trace.written (P.outside platform.new).trace keys.now suite segments.now.segments part.0
        piece.now l → leader ≡ kept_of l) }
    ensures only { IsTrue (P.outside platform.old).tells
        → IfOk result (λ _. ReadsOnly (λ p. p ≡ piece.now) (P.outside platform.old) (P.outside platform.new)) }
    ensures caused { IfErr result (IsCaused (P.outside platform.old) (P.outside platform.new)) }
    ensures most { ReadsAtMost 1 (P.outside platform.old) (P.outside platform.new) }
    ensures quiet { result ≢ Err Fault → (P.outside platform.new).faults ≡ (P.outside platform.old).faults }
    ensures explained { IsTrue (P.outside platform.old).tells → IfErr result (λ error. (l : NodeLeader)
        → IsLeaderIn (P.outside platform.old).trace.written (P.outside platform.new).trace keys.now suite segments.now.segments part.0
        piece.now l → IsExplained (P.outside platform.old) (P.outside platform.new) (λ p. p ≡ piece.now) error) }
{
    if !segments.holds(piece) {
        return Err(OpenError::Form { place: piece.place });
    }
    let name = Name {
        kind: LEADER,
        suite,
        home: 0,
        rank: part.0,
    };
    let plain = open_record(alloc, platform, keys, &name, piece)?;
    let Ok(leader) = read_leader(&plain) else {
        return Err(OpenError::Form { place: piece.place });
    };
    match &leader.root {
        Some(root) if !segments.holds(root) => Err(OpenError::Form { place: root.place }),
        _ => Ok(Leader::kept(&leader)),
    }
}

/// Reads the nodes of the roster of a checkpoint, in these segments: the pieces of its leaders by the numbers of their partitions.
/// A number of 0 is refused, and one above 4,095.
fn read_nodes<P: Platform>(
    alloc: Global,
    platform: &mut P,
    keys: &Keys,
    segments: &Segments,
    base: &Commit,
) -> Result<Vec<(Rank, Piece)>, OpenError>
    requires segments { segments.now.segments ≡ base.now.segments }
    ensures reads { OnlyReads P.outside P.crash_states platform.old platform.new }
    ensures ascends { IfOk result (λ parts. Ascends 1 4096 parts.items) }
    ensures at { IsTrue (P.outside platform.old).tells → IfOk result (λ parts. (state : State)
        → IsRosterIn (P.outside platform.old).trace.written (P.outside platform.new).trace keys.now base.now state → (part : ℕ)
        → HasAt (nodes_in (in_trace (P.outside platform.old).trace.written) (roster (store_of_text keys.now base.now) base.now.root))
        map_height base.now.root part (listed parts.items part)) }
    ensures only { IsTrue (P.outside platform.old).tells → IfOk result (λ _. (state : State)
        → IsRosterIn (P.outside platform.old).trace.written (P.outside platform.new).trace keys.now base.now state
        → ReadsOnly (IsOfRoster (in_trace (P.outside platform.old).trace.written) (store_of_text keys.now base.now) base.now.root)
        (P.outside platform.old) (P.outside platform.new)) }
    ensures caused { IfErr result (IsCaused (P.outside platform.old) (P.outside platform.new)) }
    // a root, one node below it, and the 64 nodes below that
    ensures most { ReadsAtMost 66 (P.outside platform.old) (P.outside platform.new) }
    ensures quiet { result ≢ Err Fault → (P.outside platform.new).faults ≡ (P.outside platform.old).faults }
    ensures explained { IsTrue (P.outside platform.old).tells → IfErr result (λ error. (state : State)
        → IsRosterIn (P.outside platform.old).trace.written (P.outside platform.new).trace keys.now base.now state
        → IsExplained (P.outside platform.old) (P.outside platform.new)
        (IsOfRoster (in_trace (P.outside platform.old).trace.written) (store_of_text keys.now base.now) base.now.root) error) }
{
    let tree = keys.roster(base.suite, base.root);
    let parts = walk_narrow(alloc, &mut DevicePieces::of(platform, segments), &tree)?;
    match parts.first() {
        Some((part, piece)) if part.0 == 0 => Err(OpenError::Form { place: piece.place }),
        _ => Ok(parts),
    }
}

/// Reads the roster of a checkpoint, parents first, and then its leaders, by the numbers of their partitions.
pub(crate) fn read_roster<P: Platform>(
    alloc: Global,
    platform: &mut P,
    keys: &Keys,
    segments: &Segments,
    base: &Commit,
) -> Result<Overlay, OpenError>
    requires segments { segments.now.segments ≡ base.now.segments }
    ensures reads { OnlyReads P.outside P.crash_states platform.old platform.new }
    // each partition is told as its leader says, and no other one
    ensures told { IsTrue (P.outside platform.old).tells → IfOk result (λ overlay. (state : State)
        → IsRosterIn (P.outside platform.old).trace.written (P.outside platform.new).trace keys.now base.now state → (part : ℕ)
        → TellsPart (in_trace (P.outside platform.old).trace.written) (store_of_text keys.now base.now) base.now.root overlay part) }
    ensures only { IsTrue (P.outside platform.old).tells → IfOk result (λ _. (state : State)
        → IsRosterIn (P.outside platform.old).trace.written (P.outside platform.new).trace keys.now base.now state
        → ReadsOnly (IsOfRoster (in_trace (P.outside platform.old).trace.written) (store_of_text keys.now base.now) base.now.root)
        (P.outside platform.old) (P.outside platform.new)) }
    ensures caused { IfErr result (IsCaused (P.outside platform.old) (P.outside platform.new)) }
    // 66 nodes and 4,095 leaders
    ensures most { ReadsAtMost 4161 (P.outside platform.old) (P.outside platform.new) }
    ensures quiet { result ≢ Err Fault → (P.outside platform.new).faults ≡ (P.outside platform.old).faults }
    ensures explained { IsTrue (P.outside platform.old).tells → IfErr result (λ error. (state : State)
        → IsRosterIn (P.outside platform.old).trace.written (P.outside platform.new).trace keys.now base.now state
        → IsExplained (P.outside platform.old) (P.outside platform.new)
        (IsOfRoster (in_trace (P.outside platform.old).trace.written) (store_of_text keys.now base.now) base.now.root) error) }
{
    let parts = read_nodes(alloc, platform, keys, segments, base)?;
    let mut overlay = Overlay::new(alloc);
    for (part, piece) in &parts {
        let leader = read_partition(alloc, platform, keys, segments, base.suite, *part, piece)?;
        overlay.tell(alloc, PartId(part.0), &leader)?;
    }
    Ok(overlay)
}
