//! The replies to lines.
ghost use Rattle.std.specs.Prelude.{◌≡◌, OnOk, Some, string_bytes};
ghost use Rattle.tdb_script.specs.ReplySpelling.{reply_text, reply_spelling, spaced};

use crate::note::Note;
use std::alloc::AllocError;
use std::fmt;
use tdb_base::{NoRoom, PartId, Rank, TxId};

/// The reply to a line.
#[derive(Debug, Drop)]
pub enum Reply {
    /// The transaction is open.
    Begun(TxId),
    /// The transaction made an object, which has this rank.
    Made(TxId, Rank),
    /// The object of this rank is this note in the transaction.
    Got(TxId, Rank, Note),
    /// The transaction is given up.
    Aborted(TxId),
    /// The transaction is committed.
    Committed(TxId),
    /// The partition is a copy of partition 1 now.
    Snapshot(PartId),
    /// The partition is dropped.
    Dropped(PartId),
    /// The committed object of this rank in the partition is this note.
    Peeked(PartId, Rank, Note),
    /// These partitions are there, by number.
    Parts(Vec<PartId>),
    /// The script ends.
    Bye,
    /// The line is none that is built, or it came out of its place. All is as before.
    RefusedUnbuilt,
    /// No transaction of this number is open.
    RefusedNoTransaction(TxId),
    /// A transaction of this number is open already.
    RefusedOpen(TxId),
    /// The partition has no object of this rank.
    RefusedNoObject(PartId, Rank),
    /// The bytes of this object are no pickle.
    RefusedPickle(PartId, Rank),
    /// The partition has no rank left for another object.
    RefusedIds(PartId),
    /// The transaction has this number of changes, which is more than a commit takes.
    RefusedChanges(u32),
    /// The device has no room for what was to be written.
    RefusedFull(NoRoom),
    /// The ring of commit texts is full.
    RefusedRing,
    /// The count of commits stands at its end.
    RefusedCounter,
    /// This number can't be a snapshot's or is in use already; or no snapshot has it that could be
    /// dropped or read.
    RefusedPartition(PartId),
    /// What was read for the chunk of this rank isn't what was written.
    Tampered(PartId, Rank),
}

impl fmt::Display for Reply {
    ghost output = { λ reply. Some (reply_text reply) };

    fn fmt<W: fmt::Write>(&self, f: &mut fmt::Formatter<W>) -> fmt::Result {
        match self {
            Reply::Begun(TxId(transaction)) => write!(f, "begun {transaction}"),
            Reply::Made(TxId(transaction), Rank(rank)) => write!(f, "made {transaction} {rank}"),
            Reply::Got(TxId(transaction), Rank(rank), note) => {
                write!(f, "got {transaction} {rank} note {note}")
            }
            Reply::Aborted(TxId(transaction)) => write!(f, "aborted {transaction}"),
            Reply::Committed(TxId(transaction)) => write!(f, "committed {transaction}"),
            Reply::Snapshot(PartId(part)) => write!(f, "snapshot {part}"),
            Reply::Dropped(PartId(part)) => write!(f, "dropped {part}"),
            Reply::Peeked(PartId(part), Rank(rank), note) => {
                write!(f, "peeked {part} {rank} note {note}")
            }
            Reply::Parts(numbers) => write!(f, "parts {}{}", numbers.len(), Spaced(numbers)),
            Reply::Bye => write!(f, "bye"),
            Reply::RefusedUnbuilt => write!(f, "refused unbuilt"),
            Reply::RefusedNoTransaction(TxId(transaction)) => {
                write!(f, "refused no transaction {transaction}")
            }
            Reply::RefusedOpen(TxId(transaction)) => write!(f, "refused open {transaction}"),
            Reply::RefusedNoObject(PartId(part), Rank(rank)) => {
                write!(f, "refused no object {part} {rank}")
            }
            Reply::RefusedPickle(PartId(part), Rank(rank)) => {
                write!(f, "refused pickle {part} {rank}")
            }
            Reply::RefusedIds(PartId(part)) => write!(f, "refused ids {part}"),
            Reply::RefusedChanges(number) => write!(f, "refused changes {number}"),
            Reply::RefusedFull(NoRoom { need, free }) => write!(f, "refused full {need} {free}"),
            Reply::RefusedRing => write!(f, "refused ring"),
            Reply::RefusedCounter => write!(f, "refused counter"),
            Reply::RefusedPartition(PartId(part)) => write!(f, "refused partition {part}"),
            Reply::Tampered(PartId(part), Rank(rank)) => write!(f, "tampered {part} {rank}"),
        }
    }
}

// Numbers that are written one after another, each behind a space.
#[derive(Drop)]
struct Spaced<'a>(&'a [PartId]);

impl fmt::Display for Spaced<'_> {
    ghost output = { λ numbers. Some (spaced numbers.0.now) };

    fn fmt<W: fmt::Write>(&self, f: &mut fmt::Formatter<W>) -> fmt::Result {
        for PartId(part) in self.0 {
            write!(f, " {part}")?;
        }
        Ok(())
    }
}

/// Writes the text of a reply, with its line feed, in place of what a string had. After an error it has some of it.
pub fn write_reply(reply: &Reply, text: &mut String) -> Result<(), AllocError>
    ensures { OnOk result (string_bytes text.new ≡ reply_spelling reply.now) }
{
    text.clear();
    writeln!(text, "{reply}")?;
    Ok(())
}
