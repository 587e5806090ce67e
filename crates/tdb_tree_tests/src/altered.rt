//! A device with a checkpoint of which a byte is changed, or of which a piece doesn't fit.
use crate::device::{Checkpointed, Misfit, checkpoint_device, note, opened, opened_as};
use crate::reading::read;
use std::alloc::Global;
use std::test::Fail;
use tdb_base::{Piece, Place};
use tdb_chunk::Store;
use tdb_first_path::STORED_NOTE;
use tdb_model::{Chunks, ReadError};
use tdb_platform::MemoryPlatform;
use tdb_recover::OpenError;

/// How many nodes the tree of the first partition has. They come first.
const NODES: usize = 3;

/// What is damaged by a changed byte.
#[derive(Clone, Copy, PartialEq, Eq)]
enum Damaged {
    /// A piece that opening reads.
    Opening(Place),
    /// A piece on the way to the note.
    Way(Place),
    /// Nothing that is needed.
    Nothing,
}

fn has(piece: &Piece, at: usize) -> bool {
    let at = at as u64;
    piece.place.0 <= at && at - piece.place.0 < u64::from(piece.length)
}

/// What the byte belongs to.
fn damaged_by(device: &Checkpointed, at: usize) -> Damaged {
    if (768..1_024).contains(&at) {
        return Damaged::Opening(Place(768));
    }
    if has(&note(), at) {
        return Damaged::Way(note().place);
    }
    for (number, piece) in device.pieces.iter().enumerate() {
        if has(piece, at) {
            return if number < NODES {
                Damaged::Way(piece.place)
            } else {
                Damaged::Opening(piece.place)
            };
        }
    }
    Damaged::Nothing
}

/// Whether the note is read, or the damage is told of the piece.
fn answers(alloc: Global, store: &mut Store<MemoryPlatform>, damaged: Damaged) -> bool {
    match (read(store, alloc, 1, 1), damaged) {
        (Err(ReadError::Tampered(damage)), Damaged::Way(place)) => damage.place == place,
        (Ok(bytes), Damaged::Nothing) => bytes.as_slice() == STORED_NOTE.as_slice(),
        _ => false,
    }
}

/// Whether the device with the byte changed is answered as it should be.
fn is_told(alloc: Global, device: &Checkpointed, at: usize) -> Result<bool, Fail> {
    let mut image = device.image.clone()?;
    if let Some(byte) = image.get_mut(at) {
        *byte ^= 1;
    }
    let damaged = damaged_by(device, at);
    Ok(match (opened_as(alloc, image, device.mark)?, damaged) {
        (Err(OpenError::Tampered(damage)), Damaged::Opening(place)) => damage.place == place,
        (Ok(mut store), Damaged::Way(_) | Damaged::Nothing) => answers(alloc, &mut store, damaged),
        _ => false,
    })
}

#[test]
fn each_changed_byte_is_told_where_it_is_needed(rt: HostRuntime) -> Result<(), Fail> {
    let alloc = rt.alloc();
    let device = checkpoint_device(alloc, Misfit::None)?;
    // the first slots, and whatever was placed
    for at in (0..1_280).chain(262_144..282_701) {
        assert!(rt; is_told(alloc, &device, at)?, "at {at}");
    }
    Ok(())
}

#[test]
fn pieces_that_do_not_fit_are_no_log(rt: HostRuntime) -> Result<(), Fail> {
    let alloc = rt.alloc();
    // the place of the piece that doesn't fit
    for (misfit, place) in [
        (Misfit::NumberZero, 272_493),
        (Misfit::NumberTooLarge, 279_005),
        (Misfit::RootOutside, 4_456_448),
        (Misfit::LeaderOutside, 4_456_448),
        (Misfit::LeadersExchanged, 272_629),
    ] {
        let device = checkpoint_device(alloc, misfit)?;
        match opened(alloc, &device)? {
            Err(OpenError::Form { place: told }) => assert_eq!(rt; told, Place(place)),
            _ => assert!(rt; false, "{place}"),
        }
    }
    Ok(())
}
