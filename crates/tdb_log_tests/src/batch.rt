//! A batch as a layer of trees, by values from outside.
ghost use Rattle.std.specs.Prelude.{◌≤◌, length};

use crate::overlay::{OF_44_ZEROS, OF_ABC};
use std::alloc::Global;
use std::test::Fail;
use tdb_base::{NoRoom, Piece, Place};
use tdb_map::{Layer, UpdateError};
use tdb_overlay::Batch;
use tdb_seg::Segments;

fn lay<L: Layer>(layer: &mut L, alloc: Global, sealed: &[u8]) -> Result<Piece, UpdateError>
    requires some { 1 ≤ length sealed.now }
    requires most { length sealed.now ≤ 262144 }
{
    layer.lay(alloc, sealed.to_vec(alloc)?)
}

#[test]
fn a_batch_lays_records_one_behind_another(rt: HostRuntime) -> Result<(), Fail> {
    let alloc = rt.alloc();
    let mut batch = Batch::new(alloc, Segments::new(16));
    assert_eq!(rt;
        lay(&mut batch, alloc, b"abc"),
        Ok(Piece {
            place: Place(262_144),
            length: 3,
            digest: OF_ABC,
        })
    );
    assert_eq!(rt;
        lay(&mut batch, alloc, &[0; 44]),
        Ok(Piece {
            place: Place(262_147),
            length: 44,
            digest: OF_44_ZEROS,
        })
    );
    Ok(())
}

#[test]
fn a_full_batch_lays_nothing(rt: HostRuntime) -> Result<(), Fail> {
    let alloc = rt.alloc();
    let mut batch = Batch::new(alloc, Segments::new(16));
    let whole = vec![in alloc; 0; 262_144]?;
    for segment in 1..17u64 {
        let piece = lay(&mut batch, alloc, &whole)?;
        assert_eq!(rt; piece.place, Place(262_144 * segment));
    }
    assert_eq!(rt;
        lay(&mut batch, alloc, b"abc"),
        Err(UpdateError::Room(NoRoom { need: 3, free: 0 }))
    );
    assert_eq!(rt; batch.pieces.len(), 16);
    Ok(())
}
