//! Two partitions that share most of a tree: damage in a piece is told for the chunks on whose way it lies, and for no other.
use crate::device::{
    Checkpointed, device_of, first_path_behind, made, node_of, note, opened_as, partition_key,
};
use crate::reading::read;
use std::alloc::Global;
use std::test::Fail;
use tdb_base::{Failed, Piece, Suite};
use tdb_chunk::Store;
use tdb_first_path::STORED_NOTE;
use tdb_model::ReadError;
use tdb_node::Leader;
use tdb_platform::MemoryPlatform;
use tdb_seal::Name;

/// The kind of the record of a chunk.
const CHUNK: u32 = 1;

/// A chunk that is read: its partition, its rank, and its bytes.
type Chunk = (u32, u32, &'static [u8]);

/// The partition 1, and its copy 3, which has what rank 1 had before.
const CHUNKS: [Chunk; 6] = [
    (1, 1, b"later"),
    (1, 64, b"near"),
    (1, 4_096, b"far"),
    (3, 1, &STORED_NOTE),
    (3, 64, b"near"),
    (3, 4_096, b"far"),
];

/// A piece of the two trees, and on the way to which of the chunks it lies, in their order.
#[derive(Drop)]
struct Part {
    piece: Piece,
    way: [bool; 6],
}

impl Checkpointed {
    /// The record of a chunk of the first partition.
    fn lay_chunk(&mut self, alloc: Global, rank: u32, bytes: &[u8]) -> Result<Piece, Fail> {
        let name = Name {
            kind: CHUNK,
            suite: Suite::Plain,
            home: 1,
            rank,
        };
        self.lay(alloc, &partition_key(), &name, bytes)
    }

    /// A node of the first partition, of a level, whose first rank is this.
    fn lay_one(
        &mut self,
        alloc: Global,
        level: u32,
        first: u32,
        entries: &[(usize, Piece)],
    ) -> Result<Piece, Fail> {
        self.lay_node(alloc, &partition_key(), 1, level, first, &node_of(entries))
    }
}

/// The two trees. The first is that of the first partition.
#[derive(Drop)]
struct Trees {
    roots: [Piece; 2],
    parts: [Part; 13],
}

fn lay_trees(alloc: Global, device: &mut Checkpointed) -> Result<Trees, Fail> {
    let later = device.lay_chunk(alloc, 1, b"later")?;
    let near = device.lay_chunk(alloc, 64, b"near")?;
    let far = device.lay_chunk(alloc, 4_096, b"far")?;
    let old_leaf = device.lay_one(alloc, 0, 0, &[(1, note())])?;
    let new_leaf = device.lay_one(alloc, 0, 0, &[(1, later)])?;
    let near_leaf = device.lay_one(alloc, 0, 64, &[(0, near)])?;
    let far_leaf = device.lay_one(alloc, 0, 4_096, &[(0, far)])?;
    let old_way = device.lay_one(alloc, 1, 0, &[(0, old_leaf), (1, near_leaf)])?;
    let new_way = device.lay_one(alloc, 1, 0, &[(0, new_leaf), (1, near_leaf)])?;
    let far_way = device.lay_one(alloc, 1, 4_096, &[(0, far_leaf)])?;
    let old_root = device.lay_one(alloc, 2, 0, &[(0, old_way), (1, far_way)])?;
    let new_root = device.lay_one(alloc, 2, 0, &[(0, new_way), (1, far_way)])?;
    let (no, yes) = (false, true);
    let part = |piece: Piece, way: [bool; 6]| Part { piece, way };
    Ok(Trees {
        roots: [new_root, old_root],
        parts: [
            part(later, [yes, no, no, no, no, no]),
            part(near, [no, yes, no, no, yes, no]),
            part(far, [no, no, yes, no, no, yes]),
            part(note(), [no, no, no, yes, no, no]),
            part(new_leaf, [yes, no, no, no, no, no]),
            part(old_leaf, [no, no, no, yes, no, no]),
            part(near_leaf, [no, yes, no, no, yes, no]),
            part(far_leaf, [no, no, yes, no, no, yes]),
            part(new_way, [yes, yes, no, no, no, no]),
            part(old_way, [no, no, no, yes, yes, no]),
            part(far_way, [no, no, yes, no, no, yes]),
            part(new_root, [yes, yes, yes, no, no, no]),
            part(old_root, [no, no, no, yes, yes, yes]),
        ],
    })
}

/// Whether a chunk is read, or the damage is told of the piece that lies on its way.
fn is_answered(
    alloc: Global,
    store: &mut Store<MemoryPlatform>,
    chunk: &Chunk,
    damaged: Option<&Piece>,
) -> bool {
    let (part, rank, bytes) = *chunk;
    match (read(store, alloc, part, rank), damaged) {
        (Ok(found), None) => found.as_slice() == bytes,
        (Err(ReadError::Tampered(damage)), Some(piece)) => {
            damage.place == piece.place && damage.expected == piece.digest
        }
        _ => false,
    }
}

/// Whether each chunk is answered as it should be where a byte of the piece is changed.
fn is_told(alloc: Global, device: &Checkpointed, part: &Part, offset: u32) -> Result<bool, Fail> {
    let mut image = device.image.clone()?;
    let at = part
        .piece
        .place
        .0
        .checked_add(u64::from(offset))
        .ok_or(Failed)?;
    *image.get_mut(at as usize).ok_or(Failed)? ^= 1;
    let mut store = opened_as(alloc, image, device.mark)??;
    for (chunk, is_on_way) in CHUNKS.iter().zip(part.way.iter()) {
        let damaged = if *is_on_way { Some(&part.piece) } else { None };
        if !is_answered(alloc, &mut store, chunk, damaged) {
            return Ok(false);
        }
    }
    Ok(true)
}

/// The device with the two trees, and the trees.
fn shared_device(alloc: Global) -> Result<(Checkpointed, Trees), Fail> {
    let mut device = first_path_behind(alloc)?;
    let trees = lay_trees(alloc, &mut device)?;
    let copy = Leader {
        parent: 1,
        born: 4,
        ..made(1, 4_097, Some(trees.roots[1]))
    };
    let leaders = [made(1, 4_097, Some(trees.roots[0])), made(2, 0, None), copy];
    device_of(alloc, &mut device, &leaders)?;
    Ok((device, trees))
}

#[test]
fn damage_is_told_of_the_chunks_on_whose_way_it_lies(rt: HostRuntime) -> Result<(), Fail> {
    let alloc = rt.alloc();
    let (device, trees) = shared_device(alloc)?;
    let mut store = opened_as(alloc, device.image.clone()?, device.mark)??;
    for chunk in &CHUNKS {
        assert!(rt; is_answered(alloc, &mut store, chunk, None));
    }
    for (number, part) in trees.parts.iter().enumerate() {
        // the first byte of the piece, each 100th behind it, and the last
        let last = part.piece.length.checked_sub(1).ok_or(Failed)?;
        for offset in (0..last).step_by(100) {
            assert!(rt;
                is_told(alloc, &device, part, offset)?,
                "piece {number}, byte {offset}"
            );
        }
        assert!(rt;
            is_told(alloc, &device, part, last)?,
            "piece {number}, its last byte"
        );
    }
    Ok(())
}
