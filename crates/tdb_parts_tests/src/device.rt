//! Trees on a device, put together from the formats.
use sha2::{Digest as _, Sha256};
use std::alloc::{AllocError, Global};
use std::test::Fail;
use tdb_base::{Digest, Failed, Key, Piece, Place, Suite};
use tdb_map::Tree;
use tdb_node::{Node, write_node};
use tdb_seal::{Name, PLAIN_LIMIT, seal_record};

/// The kind of the record of a chunk.
const CHUNK: u32 = 1;

/// The kind of the record of a node whose entries are leaves.
const NODE: u32 = 16;

/// A partition whose records are enciphered by nothing.
#[derive(Clone, Copy)]
pub(crate) struct Owner {
    pub key: Key,
    pub home: u32,
}

/// The bytes of a device, up to the last piece that was laid.
#[derive(Drop)]
pub(crate) struct Image {
    pub bytes: Vec<u8>,
}

impl Image {
    /// A device without pieces: the ring before the first segment.
    pub(crate) fn new(alloc: Global) -> Result<Image, AllocError> {
        let mut bytes = Vec::new(alloc);
        bytes.resize(262_144, 0)?;
        Ok(Image { bytes })
    }

    /// Seals a record and adds it at the device's end.
    fn lay(
        &mut self,
        alloc: Global,
        owner: &Owner,
        kind: u32,
        rank: u32,
        plain: &[u8],
    ) -> Result<Piece, Fail> {
        if plain.len() > PLAIN_LIMIT as usize {
            return Err(Fail::from(Failed));
        }
        let name = Name {
            kind,
            suite: Suite::Plain,
            home: owner.home,
            rank,
        };
        let sealed = seal_record(alloc, &owner.key, &name, plain)?;
        let piece = Piece {
            place: Place(self.bytes.len() as u64),
            length: u32::try_from(sealed.len()).map_err(|_| Failed)?,
            digest: Digest(Sha256::digest(&sealed)),
        };
        self.bytes.extend_from_slice(&sealed)?;
        Ok(piece)
    }

    /// The record of a chunk.
    pub(crate) fn lay_chunk(
        &mut self,
        alloc: Global,
        owner: &Owner,
        rank: u32,
        text: &[u8],
    ) -> Result<Piece, Fail> {
        self.lay(alloc, owner, CHUNK, rank, text)
    }

    /// A node of a level, whose first rank is this.
    pub(crate) fn lay_node(
        &mut self,
        alloc: Global,
        owner: &Owner,
        level: u32,
        first: u32,
        entries: &[(usize, Piece)],
    ) -> Result<Piece, Fail> {
        let mut node = Node::empty();
        for (at, piece) in entries {
            if let Some(entry) = node.entries.get_mut(*at) {
                *entry = Some(*piece);
            }
        }
        if level > 2 || !node.is_well_formed() {
            return Err(Fail::from(Failed));
        }
        let plain = write_node(alloc, &node)?;
        self.lay(alloc, owner, NODE + level, first, &plain)
    }

    /// A chunk of rank 4,096 and the nodes above it but for the root. It gives the highest of them.
    pub(crate) fn lay_far(&mut self, alloc: Global, owner: &Owner) -> Result<Piece, Fail> {
        let far = self.lay_chunk(alloc, owner, 4_096, b"far")?;
        let leaf = self.lay_node(alloc, owner, 0, 4_096, &[(0, far)])?;
        self.lay_node(alloc, owner, 1, 4_096, &[(0, leaf)])
    }

    /// The tree with leaves of ranks below 64, and with what `lay_far` gave.
    pub(crate) fn lay_tree(
        &mut self,
        alloc: Global,
        owner: &Owner,
        leaves: &[(usize, Piece)],
        far: Piece,
    ) -> Result<Tree, Fail> {
        let leaf = self.lay_node(alloc, owner, 0, 0, leaves)?;
        let near_way = self.lay_node(alloc, owner, 1, 0, &[(0, leaf)])?;
        let root = self.lay_node(alloc, owner, 2, 0, &[(0, near_way), (1, far)])?;
        Ok(Tree {
            root: Some(root),
            key: owner.key,
            suite: Suite::Plain,
            home: owner.home,
        })
    }
}
