// One take from a source.
ghost use Rattle.std.specs.Prelude.{◌≡◌, ◌≤◌, ◌<◌, [], take, length, IsTrue, IfOk, OnOk, OnErr};
ghost use Rattle.tdb_base.specs.Rose.{Rose};
ghost use Rattle.tdb_serve.specs.Gave.{Gave};

use tdb_stream::{Failed, Source};

// Takes bytes to the front of a buffer, and says how many.
pub(crate) fn take_into<S: Source>(
    source: &mut S,
    chunk: &mut [u8],
    most: usize,
) -> Result<usize, Failed>
    requires some { 0 < most }
    requires within { most ≤ length chunk.old }
    ensures count { IfOk result (λ count. count ≤ most) }
    ensures gave { IfOk result (λ count. Gave (S.content source.old) (S.content source.new) (take count chunk.new)) }
    ensures end { IfOk result (λ count. count ≡ 0 → IsTrue (S.content source.old).tells → (S.content source.new).rest ≡ []) }
    ensures quiet { OnOk result ((S.content source.new).faults ≡ (S.content source.old).faults) }
    ensures failed { OnErr result (Gave (S.content source.old) (S.content source.new) []
        × Rose (S.content source.old).faults (S.content source.new).faults) }
    ensures tells { (S.content source.new).tells ≡ (S.content source.old).tells }
    ensures no_fewer { (S.content source.old).faults ≤ (S.content source.new).faults }
{
    source.take(&mut chunk[..most])
}
