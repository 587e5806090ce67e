use std::test::Fail;
use tdb_base::{Bytes, NoRoom, PartId, Rank, TxId};
use tdb_script::{Note, Reply, write_reply};

const GREATEST: u32 = 4_294_967_295;

#[test]
fn replies_are_written_with_their_line_feeds(rt: HostRuntime) -> Result<(), Fail> {
    let greatest = Reply::Made(TxId(GREATEST), Rank(GREATEST));
    let table: [(Reply, &[u8]); 8] = [
        (Reply::Begun(TxId(1)), b"begun 1\n"),
        (Reply::Made(TxId(2), Rank(1)), b"made 2 1\n"),
        (greatest, b"made 4294967295 4294967295\n"),
        (Reply::Aborted(TxId(7)), b"aborted 7\n"),
        (Reply::Committed(TxId(10)), b"committed 10\n"),
        (Reply::Bye, b"bye\n"),
        (Reply::Tampered(PartId(1), Rank(6)), b"tampered 1 6\n"),
        (Reply::Tampered(PartId(0), Rank(1)), b"tampered 0 1\n"),
    ];
    // each is put in place of the one before it
    let mut text = String::new(rt.alloc());
    for (reply, expected) in table.iter() {
        write_reply(reply, &mut text)?;
        assert!(rt; text.as_bytes() == *expected, "{reply}");
    }
    Ok(())
}

#[test]
fn replies_of_partitions_are_written_with_their_numbers(rt: HostRuntime) -> Result<(), Fail> {
    let alloc = rt.alloc();
    let note = Note::new(Bytes::from(b"hello".to_vec(alloc)?)).ok_or("no note")?;
    let three = vec![in alloc; PartId(1), PartId(2), PartId(4095)]?;
    let table: [(Reply, &[u8]); 8] = [
        (Reply::Snapshot(PartId(3)), b"snapshot 3\n"),
        (Reply::Dropped(PartId(4095)), b"dropped 4095\n"),
        (
            Reply::Peeked(PartId(3), Rank(1), note),
            b"peeked 3 1 note hello\n",
        ),
        (Reply::Parts(Vec::new(alloc)), b"parts 0\n"),
        (Reply::Parts(vec![in alloc; PartId(2)]?), b"parts 1 2\n"),
        (Reply::Parts(three), b"parts 3 1 2 4095\n"),
        (Reply::RefusedPartition(PartId(0)), b"refused partition 0\n"),
        (
            Reply::RefusedPartition(PartId(GREATEST)),
            b"refused partition 4294967295\n",
        ),
    ];
    // each is put in place of the one before it
    let mut text = String::new(alloc);
    for (reply, expected) in table.iter() {
        write_reply(reply, &mut text)?;
        assert!(rt; text.as_bytes() == *expected, "{reply}");
    }
    Ok(())
}

#[test]
fn refusals_are_written_with_their_causes(rt: HostRuntime) -> Result<(), Fail> {
    let unknown = Reply::RefusedNoTransaction(TxId(3));
    let absent = Reply::RefusedNoObject(PartId(1), Rank(0));
    let greatest = Reply::RefusedNoObject(PartId(GREATEST), Rank(GREATEST));
    let odd = Reply::RefusedPickle(PartId(1), Rank(5));
    let room = NoRoom {
        need: 3120,
        free: 80,
    };
    let table: [(Reply, &[u8]); 11] = [
        (Reply::RefusedUnbuilt, b"refused unbuilt\n"),
        (unknown, b"refused no transaction 3\n"),
        (Reply::RefusedOpen(TxId(4)), b"refused open 4\n"),
        (absent, b"refused no object 1 0\n"),
        (greatest, b"refused no object 4294967295 4294967295\n"),
        (odd, b"refused pickle 1 5\n"),
        (Reply::RefusedIds(PartId(4095)), b"refused ids 4095\n"),
        (Reply::RefusedChanges(1025), b"refused changes 1025\n"),
        (Reply::RefusedFull(room), b"refused full 3120 80\n"),
        (Reply::RefusedRing, b"refused ring\n"),
        (Reply::RefusedCounter, b"refused counter\n"),
    ];
    // each is put in place of the one before it
    let mut text = String::new(rt.alloc());
    for (reply, expected) in table.iter() {
        write_reply(reply, &mut text)?;
        assert!(rt; text.as_bytes() == *expected, "{reply}");
    }
    Ok(())
}

#[test]
fn a_note_is_written_as_it_stands(rt: HostRuntime) -> Result<(), Fail> {
    let bytes = Bytes::from(b" {hello}  ~ ".to_vec(rt.alloc())?);
    let note = Note::new(bytes).ok_or("no note")?;
    let mut text = String::new(rt.alloc());
    write_reply(&Reply::Got(TxId(1), Rank(262_143), note), &mut text)?;
    assert!(rt; text.as_bytes() == b"got 1 262143 note  {hello}  ~ \n".as_slice());
    Ok(())
}

#[test]
fn the_longest_note_is_written_whole(rt: HostRuntime) -> Result<(), Fail> {
    let mut bytes = Vec::new(rt.alloc());
    for _ in 0..2000 {
        bytes.push(b'~')?;
    }
    let note = Note::new(Bytes::from(bytes)).ok_or("no note")?;
    let mut text = String::new(rt.alloc());
    write_reply(&Reply::Got(TxId(9), Rank(0), note), &mut text)?;
    assert_eq!(rt; text.len(), 2014);
    Ok(())
}
