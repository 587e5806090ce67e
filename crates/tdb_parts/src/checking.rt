//! Which changes are refused against the partitions of an overlay.
ghost use Rattle.std.specs.Prelude.{◌≡◌, ℕ, List};
ghost use Rattle.std.specs.Result.{result_err};
ghost use Rattle.tdb_base.specs.Trace.{WrittenPiece};
ghost use Rattle.tdb_model.specs.Check as model;
ghost use Rattle.tdb_model.specs.State.{State};
ghost use Rattle.tdb_overlay.specs.Covering.{IsCovering};
ghost use Rattle.tdb_overlay.specs.Found.{in_trace};
ghost use Rattle.tdb_parts.specs.BareState.{bare_state};

use tdb_base::PartId;
use tdb_model::{Change, CommitError, Partitions, check_each};
use tdb_overlay::Overlay;

/// The partitions that an overlay tells, as a check of changes sees them.
#[derive(Drop)]
struct Told<'a> {
    overlay: &'a Overlay,
}

impl Partitions for Told<'_> {
    ghost use Rattle.tdb_parts.specs.BareState.{bare_state};

    ghost state = { λ told. bare_state told.overlay.now };

    fn parent(&self, part: PartId) -> Option<u32> {
        match self.overlay.leader(part) {
            Some(leader) => Some(leader.parent),
            None => None,
        }
    }
}

/// Whether changes are refused, and why: each against the state that the overlay covers after the changes before it. The
/// number of the changes is not tested. It takes no memory.
pub fn check(overlay: &Overlay, changes: &[Change]) -> Result<(), CommitError>
    ensures state { (written : List WrittenPiece) (secret : List ℕ) (state : State) → IsCovering (in_trace written) secret overlay.now state
        → result_err result ≡ model.check state changes.now }
    ensures bare { result_err result ≡ model.check (bare_state overlay.now) changes.now }
{
    check_each(&Told { overlay }, changes)
}
