//! A store that owns its platform, as a store of chunks.
ghost use Rattle.tdb_model.specs.HasCommitted.{HasCommitted, IsCommittable};
ghost use Rattle.tdb_model.specs.HasListed.{HasInfo, HasListed};
ghost use Rattle.tdb_model.specs.HasRead.{HasRead};
ghost use Rattle.std.specs.Prelude.{◌≡◌, ◌≢◌, ◌⊎◌, Err, IfErr, IsTrue};
ghost use Rattle.tdb_model.specs.declared.error.CommitError.TheVariants as refusals;
ghost use Rattle.tdb_model.specs.declared.error.ReadError.TheVariants as answers;
ghost use Rattle.tdb_map.specs.Shown.{AsksOneOf, EachShown, ShowsOneOf};
ghost use Rattle.tdb_overlay.specs.Reading.{shown_of};
ghost use Rattle.tdb_chunk.specs.CommitFacts.{stops};
ghost use Rattle.tdb_chunk.specs.Shown.{IsPieceOf};

use crate::reading::{find_record, read_chunk};
use crate::store::Store;
use std::alloc::{AllocError, Global};
use tdb_base::{PartId, Rank};
use tdb_model::{Change, Chunks, CommitError, PartInfo, ReadError};
use tdb_overlay::Seen;
use tdb_platform::Platform;

/// Whether a commit's answer stops the store.
fn is_stop(error: &CommitError) -> bool
    ensures { result ≡ stops error.now }
{
    matches!(error, CommitError::Fault)
}

impl<P: Platform> Chunks for Store<P> {
    ghost use Rattle.tdb_chunk.specs.StoreLaws.{store_lawful};
    ghost use Rattle.tdb_chunk.specs.StoreMeans.{store_means};

    ghost means = { store_means P.outside P.crash_states };

    ghost lawful = { store_lawful P.outside P.crash_states P.counts P.numbered };

    // Each piece that is read is one on the way to the chunk, asked for whole. Want of memory hides no damage: each of them
    // was shown with its digest.
    fn read(&mut self, alloc: Global, part: PartId, rank: Rank) -> Result<Vec<u8>, ReadError>
        ensures read { HasRead (store_means P.outside P.crash_states) part rank self.old self.new result }
        ensures asks { EachShown (shown_of (P.outside self.old.platform)) (shown_of (P.outside self.new.platform))
            (AsksOneOf (IsPieceOf (P.outside self.new.platform) self.old part.0 rank.0)) }
        ensures unhidden { result ≡ Err answers.Memory
            → EachShown (shown_of (P.outside self.old.platform)) (shown_of (P.outside self.new.platform))
            (ShowsOneOf (IsPieceOf (P.outside self.new.platform) self.old part.0 rank.0)) }
    {
        if self.stopped {
            return Err(ReadError::Stopped);
        }
        let Some(leader) = self.chain.leader(part) else {
            return Err(ReadError::NoPartition);
        };
        let record = match self.chain.log.overlay.get(part, rank) {
            Seen::Here(piece) => Some(piece),
            Seen::Gone => None,
            Seen::Base => find_record(
                alloc,
                &mut self.platform,
                &self.chain.keys,
                &self.chain.log.segments,
                &leader,
                rank,
            )?,
        };
        let Some(piece) = record else {
            return Err(ReadError::NoChunk);
        };
        read_chunk(
            alloc,
            &mut self.platform,
            &mut self.chain.keys,
            part,
            &leader,
            rank,
            &piece,
        )
    }

    // A fault stops it. What is refused otherwise leaves all.
    fn commit(&mut self, alloc: Global, changes: &[Change]) -> Result<(), CommitError>
        requires changes { IsCommittable changes.now }
        ensures committed { HasCommitted (store_means P.outside P.crash_states) changes.now self.old self.new result }
        ensures refused { IfErr result (λ e. e ≢ refusals.Fault → self.new ≡ self.old) }
    {
        if self.stopped {
            return Err(CommitError::Stopped);
        }
        let _count = self.chain.count();
        match self.chain.commit(alloc, &mut self.platform, changes) {
            Ok(()) => Ok(()),
            Err(error) => {
                self.stopped = is_stop(&error);
                Err(error)
            }
        }
    }

    fn partitions(&self, alloc: Global) -> Result<Vec<PartInfo>, AllocError> {
        self.chain.log.overlay.infos(alloc)
    }

    fn info(&self, part: PartId) -> Option<PartInfo> {
        self.chain.log.overlay.info(part)
    }

    fn stopped(&self) -> bool {
        self.stopped
    }
}
