//! The device of the first path with a checkpoint behind it, put together piece by piece from the formats.
use sha2::{Digest as _, Sha256};
use std::alloc::{AllocError, Global};
use std::test::Fail;
use tdb_base::{Digest, Failed, Key, Piece, Place, Suite};
use tdb_chunk::Store;
use tdb_mac::derive;
use tdb_mark::{CHECKPOINT, Commit, commit_key, mark, write_commit};
use tdb_node::{Leader, Node, Table, write_leader, write_node, write_table};
use tdb_platform::MemoryPlatform;
use tdb_recover::OpenError;
use tdb_seal::{Name, PLAIN_LIMIT, seal_record};

const SECRET: [u8; 32] = [0; 32];

/// The kind of the record of a leader.
const LEADER: u32 = 3;

/// The kind of the record of a segment table.
const TABLE: u32 = 4;

/// The kind of the record of a node whose entries are leaves.
const NODE: u32 = 16;

/// The number of the last of the 1,024 slots' bytes of the text with count 4.
const SLOT: usize = 768;

/// What of a checkpoint doesn't fit the rest.
#[derive(Clone, Copy, PartialEq, Eq)]
pub(crate) enum Misfit {
    /// Everything fits.
    None,
    /// The first leader stands under the number 0.
    NumberZero,
    /// The roster has an entry for numbers from 4,096 on.
    NumberTooLarge,
    /// The tree of the first partition has its root outside the store's 16 segments.
    RootOutside,
    /// The leader of the first partition stands outside the store's 16 segments.
    LeaderOutside,
    /// The leaders of the partitions 1 and 2 are exchanged.
    LeadersExchanged,
}

/// A device with its anchor, and the pieces of the checkpoint in the order of their places.
#[derive(Drop)]
pub(crate) struct Checkpointed {
    pub image: Vec<u8>,
    pub mark: [u8; 32],
    pub pieces: Vec<Piece>,
}

/// A piece in the segment behind the sixteen of the store.
fn outside() -> Piece {
    Piece {
        place: Place(4_456_448),
        length: 3_120,
        digest: Digest([0; 32]),
    }
}

impl Checkpointed {
    /// Seals a record and adds it at the device's end.
    pub(crate) fn lay(
        &mut self,
        alloc: Global,
        key: &Key,
        name: &Name,
        plain: &[u8],
    ) -> Result<Piece, Fail> {
        if plain.len() > PLAIN_LIMIT as usize {
            return Err(Fail::from(Failed));
        }
        let sealed = seal_record(alloc, key, name, plain)?;
        let piece = Piece {
            place: Place(self.image.len() as u64),
            length: u32::try_from(sealed.len()).map_err(|_| Failed)?,
            digest: Digest(Sha256::digest(&sealed)),
        };
        self.image.extend_from_slice(&sealed)?;
        self.pieces.push(piece)?;
        Ok(piece)
    }

    /// Three nodes, one above the other, over these leaves of ranks below 64.
    fn lay_nodes(
        &mut self,
        alloc: Global,
        key: &Key,
        home: u32,
        leaves: &[(usize, Piece)],
    ) -> Result<Piece, Fail> {
        let mut node = node_of(leaves);
        let mut top = None;
        for level in 0..3u32 {
            let piece = self.lay_node(alloc, key, home, level, 0, &node)?;
            node = node_of(&[(0, piece)]);
            top = Some(piece);
        }
        Ok(top.ok_or(Failed)?)
    }

    /// A node of a level below 3, whose first rank is this.
    pub(crate) fn lay_node(
        &mut self,
        alloc: Global,
        key: &Key,
        home: u32,
        level: u32,
        first: u32,
        node: &Node,
    ) -> Result<Piece, Fail> {
        let name = Name {
            kind: NODE.checked_add(level).ok_or(Failed)?,
            suite: Suite::Plain,
            home,
            rank: first,
        };
        self.lay(alloc, key, &name, &spelled_node(alloc, node)?)
    }

    /// The leader of a partition, under a number.
    fn lay_leader(&mut self, alloc: Global, number: u32, leader: &Leader) -> Result<Piece, Fail> {
        if !leader.is_well_formed() {
            return Err(Fail::from(Failed));
        }
        let name = Name {
            kind: LEADER,
            suite: Suite::Plain,
            home: 0,
            rank: number,
        };
        self.lay(alloc, &system_key(), &name, &write_leader(alloc, leader)?)
    }

    /// The segment table of a device whose first segment is used.
    fn lay_table(&mut self, alloc: Global) -> Result<Piece, Fail> {
        let mut used = [0; 64];
        used[0] = 1;
        let table = Table { segments: 16, used };
        if !table.is_well_formed() {
            return Err(Fail::from(Failed));
        }
        let name = Name {
            kind: TABLE,
            suite: Suite::Plain,
            home: 0,
            rank: 0,
        };
        self.lay(alloc, &system_key(), &name, &write_table(alloc, &table)?)
    }

    /// The text of the checkpoint, in the slot of the count 4.
    fn put_text(&mut self, table: Piece, root: Piece) -> Result<(), Fail> {
        let text = Commit {
            kind: CHECKPOINT,
            suite: Suite::Plain,
            count: 4,
            prev: Digest(tdb_first_path::THIRD_MARK),
            base: 4,
            segments: 16,
            first: table,
            root: Some(root),
        };
        if !text.is_in_format() {
            return Err(Fail::from(Failed));
        }
        let bytes = write_commit(&text, &commit_key(&SECRET));
        for (at, byte) in bytes.iter().enumerate() {
            *self.image.get_mut(SLOT + at).ok_or(Failed)? = *byte;
        }
        self.mark = mark(&bytes).0;
        Ok(())
    }
}

/// The key of the records of the system.
fn system_key() -> Key {
    derive(&SECRET, b"TDBsystm", 0, 0)
}

/// The key of the records of the first partition, which the commit with the count 2 made.
pub(crate) fn partition_key() -> Key {
    derive(&SECRET, b"TDBpartn", 1, 2)
}

/// The node with these entries.
pub(crate) fn node_of(entries: &[(usize, Piece)]) -> Node {
    let mut node = Node::empty();
    for (at, piece) in entries {
        if let Some(entry) = node.entries.get_mut(*at) {
            *entry = Some(*piece);
        }
    }
    node
}

fn spelled_node(alloc: Global, node: &Node) -> Result<Vec<u8>, Fail> {
    if node.is_well_formed() {
        Ok(write_node(alloc, node)?)
    } else {
        Err(Fail::from(Failed))
    }
}

/// A leader as the opening commit made it.
pub(crate) fn made(home: u32, next: u32, root: Option<Piece>) -> Leader {
    Leader {
        suite: Suite::Plain,
        home,
        birth: 2,
        next,
        parent: 0,
        born: 2,
        root,
    }
}

/// The device of the first path, with the note `hello` under rank 1 of the first partition.
fn first_path(alloc: Global) -> Result<Vec<u8>, AllocError> {
    let pieces: [(usize, &[u8]); 7] = [
        (0, &tdb_first_path::FIRST_TEXT),
        (256, &tdb_first_path::SECOND_TEXT),
        (512, &tdb_first_path::THIRD_TEXT),
        (262_144, &tdb_first_path::TABLE),
        (262_720, &tdb_first_path::OPENING_LIST),
        (262_928, &tdb_first_path::NOTE),
        (262_997, &tdb_first_path::NOTE_LIST),
    ];
    let mut image = Vec::new(alloc);
    for (place, bytes) in pieces {
        image.resize(place, 0)?;
        image.extend_from_slice(bytes)?;
    }
    Ok(image)
}

/// The piece of the note's record.
pub(crate) fn note() -> Piece {
    Piece {
        place: Place(262_928),
        length: 69,
        digest: Digest(Sha256::digest(&tdb_first_path::NOTE)),
    }
}

/// The device of the first path, with no piece of a checkpoint yet.
pub(crate) fn first_path_behind(alloc: Global) -> Result<Checkpointed, Fail> {
    Ok(Checkpointed {
        image: first_path(alloc)?,
        mark: [0; 32],
        pieces: Vec::new(alloc),
    })
}

/// Lays the leaders of the partitions from number 1 on, the roster, the table and the text.
pub(crate) fn device_of(
    alloc: Global,
    device: &mut Checkpointed,
    leaders: &[Leader],
) -> Result<(), Fail> {
    let mut entries = Vec::new(alloc);
    for (number, leader) in (1u32..).zip(leaders.iter()) {
        let piece = device.lay_leader(alloc, number, leader)?;
        entries.push((number as usize, piece))?;
    }
    let roster = device.lay_nodes(alloc, &system_key(), 0, &entries)?;
    let table = device.lay_table(alloc)?;
    device.put_text(table, roster)
}

/// The device of the first path behind a checkpoint: nodes of the first partition, leaders, nodes of the roster, table, text.
pub(crate) fn checkpoint_device(alloc: Global, misfit: Misfit) -> Result<Checkpointed, Fail> {
    let mut device = first_path_behind(alloc)?;
    let top = device.lay_nodes(alloc, &partition_key(), 1, &[(1, note())])?;
    let root = if misfit == Misfit::RootOutside {
        outside()
    } else {
        top
    };
    let mut first = device.lay_leader(alloc, 1, &made(1, 2, Some(root)))?;
    let mut second = device.lay_leader(alloc, 2, &made(2, 0, None))?;
    if misfit == Misfit::LeaderOutside {
        first = outside();
    }
    if misfit == Misfit::LeadersExchanged {
        (first, second) = (second, first);
    }
    let number = if misfit == Misfit::NumberZero { 0 } else { 1 };
    let leaders = [(number, first), (2, second)];
    let mut roster = device.lay_nodes(alloc, &system_key(), 0, &leaders)?;
    if misfit == Misfit::NumberTooLarge {
        roster = device.lay_wide(alloc, roster)?;
    }
    let table = device.lay_table(alloc)?;
    device.put_text(table, roster)?;
    Ok(device)
}

impl Checkpointed {
    /// A root of the roster with two entries: that of an own root's first node is left out, and both are this piece.
    fn lay_wide(&mut self, alloc: Global, below: Piece) -> Result<Piece, Fail> {
        let name = Name {
            kind: NODE + 2,
            suite: Suite::Plain,
            home: 0,
            rank: 0,
        };
        let plain = spelled_node(alloc, &node_of(&[(0, below), (1, below)]))?;
        self.lay(alloc, &system_key(), &name, &plain)
    }
}

/// Opens the store of a device.
pub(crate) fn opened(
    alloc: Global,
    device: &Checkpointed,
) -> Result<Result<Store<MemoryPlatform>, OpenError>, Fail> {
    opened_as(alloc, device.image.clone()?, device.mark)
}

/// Opens the store of an image whose anchor counts 4.
pub(crate) fn opened_as(
    alloc: Global,
    image: Vec<u8>,
    mark: [u8; 32],
) -> Result<Result<Store<MemoryPlatform>, OpenError>, Fail> {
    let platform = MemoryPlatform::new(alloc, image, 4, mark, Vec::new(alloc), None)?;
    Ok(match Store::attach(alloc, platform, &SECRET) {
        Ok(store) => Ok(store),
        Err((_platform, error)) => Err(error),
    })
}
