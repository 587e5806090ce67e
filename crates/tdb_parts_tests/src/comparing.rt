//! What is told of two trees, and how many pieces are read for it.
use crate::device::{Image, Owner};
use std::alloc::Global;
use std::test::Fail;
use tdb_base::{Key, Piece, Place, Rank};
use tdb_map::{PieceError, Tree};
use tdb_model::Side;
use tdb_overlay::DevicePieces;
use tdb_parts::changed;
use tdb_platform::MemoryPlatform;
use tdb_seg::Segments;

/// The first partition.
const FIRST: Owner = Owner {
    key: Key([1; 32]),
    home: 1,
};

/// A partition that was made with another key.
const OTHER: Owner = Owner {
    key: Key([2; 32]),
    home: 2,
};

/// Two trees on one device. Each has the same chunk at rank 4,096.
#[derive(Drop)]
struct Pair {
    image: Image,
    a: Tree,
    b: Tree,
    /// The place of the last record of a chunk that was laid for the second tree.
    last: Place,
}

/// The records of chunks of ranks below 64, at their ranks.
fn lay_chunks(
    alloc: Global,
    image: &mut Image,
    owner: &Owner,
    chunks: &[(u32, &[u8])],
) -> Result<Vec<(usize, Piece)>, Fail> {
    let mut leaves = Vec::new(alloc);
    for (rank, text) in chunks {
        leaves.push((*rank as usize, image.lay_chunk(alloc, owner, *rank, text)?))?;
    }
    Ok(leaves)
}

/// Two trees whose records are laid one by one. Under one key they share the record at rank 4,096, and the nodes above it.
fn two_trees(
    alloc: Global,
    first: &[(u32, &[u8])],
    later: &[(u32, &[u8])],
    owner: &Owner,
) -> Result<Pair, Fail> {
    let mut image = Image::new(alloc)?;
    let far = image.lay_far(alloc, &FIRST)?;
    let leaves = lay_chunks(alloc, &mut image, &FIRST, first)?;
    let a = image.lay_tree(alloc, &FIRST, &leaves, far)?;
    let far = if owner.home == FIRST.home {
        far
    } else {
        image.lay_far(alloc, owner)?
    };
    let leaves = lay_chunks(alloc, &mut image, owner, later)?;
    let last = match leaves.last() {
        Some((_rank, piece)) => piece.place,
        None => far.place,
    };
    let b = image.lay_tree(alloc, owner, &leaves, far)?;
    Ok(Pair { image, a, b, last })
}

/// What is told of two trees, and how many pieces were read for it.
fn told(
    alloc: Global,
    image: &Image,
    a: &Tree,
    b: &Tree,
) -> Result<(Result<Vec<(Rank, Side)>, PieceError>, u64), Fail> {
    let mut platform = MemoryPlatform::new(
        alloc,
        image.bytes.clone()?,
        0,
        [0; 32],
        Vec::new(alloc),
        None,
    )?;
    let segments = Segments::new(16);
    let found = changed(alloc, &mut DevicePieces::of(&mut platform, &segments), a, b);
    Ok((found, platform.reads()))
}

#[test]
fn each_difference_is_told(rt: HostRuntime) -> Result<(), Fail> {
    let alloc = rt.alloc();
    let first: [(u32, &[u8]); 2] = [(0, b"x"), (1, b"y")];
    // what the later partition has, whose it is, what is told, and how many pieces are read:
    // three nodes of each under one key; under two keys five of each, and each record where both have one
    let cases: [(&[(u32, &[u8])], Owner, &[(u32, Side)], u64); 9] = [
        (&[(0, b"x"), (1, b"y")], FIRST, &[], 6),
        (&[(0, b"x"), (1, b"z")], FIRST, &[(1, Side::Here)], 6),
        (&[(0, b"x")], FIRST, &[(1, Side::Gone)], 6),
        (
            &[(0, b"x"), (1, b"y"), (63, b"w")],
            FIRST,
            &[(63, Side::Here)],
            6,
        ),
        (
            &[(0, b"z"), (63, b"w")],
            FIRST,
            &[(0, Side::Here), (1, Side::Gone), (63, Side::Here)],
            6,
        ),
        (&[(0, b"x"), (1, b"y")], OTHER, &[], 16),
        (&[(0, b"x"), (1, b"z")], OTHER, &[(1, Side::Here)], 16),
        (&[(0, b"x")], OTHER, &[(1, Side::Gone)], 14),
        (
            &[(0, b"x"), (1, b"y"), (2, b"w")],
            OTHER,
            &[(2, Side::Here)],
            16,
        ),
    ];
    for (later, owner, expected, reads) in cases.iter() {
        let pair = two_trees(alloc, &first, later, owner)?;
        let (found, count) = told(alloc, &pair.image, &pair.a, &pair.b)?;
        let found = found?;
        assert_eq!(rt; found.len(), expected.len());
        for ((rank, side), (number, wanted)) in found.iter().zip(expected.iter()) {
            assert_eq!(rt; (rank.0, *side), (*number, *wanted));
        }
        assert_eq!(rt; count, *reads);
    }
    Ok(())
}

#[test]
fn equal_trees_are_not_read(rt: HostRuntime) -> Result<(), Fail> {
    let alloc = rt.alloc();
    let pair = two_trees(alloc, &[(0, b"x")], &[(0, b"y")], &FIRST)?;
    // a device on which no piece stands
    let empty = Image::new(alloc)?;
    for tree in [pair.a, pair.b] {
        let (found, count) = told(alloc, &empty, &tree, &tree)?;
        assert_eq!(rt; (found?.len(), count), (0, 0));
    }
    Ok(())
}

/// The device with a byte of a piece changed.
fn altered(image: &Image, place: Place) -> Result<Image, Fail> {
    let mut bytes = image.bytes.clone()?;
    if let Some(byte) = bytes.get_mut(place.0 as usize) {
        *byte ^= 1;
    }
    Ok(Image { bytes })
}

#[test]
fn damage_is_told_of_what_is_read(rt: HostRuntime) -> Result<(), Fail> {
    let alloc = rt.alloc();
    // of a record under one key the digest is enough
    for (owner, is_read) in [(FIRST, false), (OTHER, true)] {
        let pair = two_trees(alloc, &[(0, b"x")], &[(0, b"y")], &owner)?;
        let (found, _count) = told(alloc, &altered(&pair.image, pair.last)?, &pair.a, &pair.b)?;
        match found {
            Err(PieceError::Tampered(damage)) => {
                assert!(rt; is_read && damage.place == pair.last);
            }
            Ok(found) => assert!(rt; !is_read && found.len() == 1),
            Err(_) => assert!(rt; false),
        }
        for tree in [pair.a, pair.b] {
            let Some(root) = tree.root else {
                assert!(rt; false);
                return Ok(());
            };
            let (found, _count) = told(
                alloc,
                &altered(&pair.image, root.place)?,
                &pair.a,
                &pair.b,
            )?;
            assert!(rt;
                matches!(found, Err(PieceError::Tampered(damage)) if damage.place == root.place)
            );
        }
    }
    Ok(())
}
