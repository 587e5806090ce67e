// The last line of a run, by its status.
use std::test::Fail;
use tdb_base::{Damage, Digest, NoRoom, Place, Suite};
use tdb_run::{Finding, Refusal, Status, Success, put_last_line};
use tdb_stream::MemorySink;

// The digests of no byte and of `abc`, from the standard of SHA-256.
const OF_NOTHING: [u8; 32] =
    *b"\xe3\xb0\xc4\x42\x98\xfc\x1c\x14\x9a\xfb\xf4\xc8\x99\x6f\xb9\x24\x27\xae\x41\xe4\x64\x9b\x93\x4c\xa4\x95\x99\x1b\x78\x52\xb8\x55";

const OF_ABC: [u8; 32] =
    *b"\xba\x78\x16\xbf\x8f\x01\xcf\xea\x41\x41\x40\xde\x5d\xae\x22\x23\xb0\x03\x61\xa3\x96\x17\x7a\x9c\xb4\x10\xff\x61\xf2\x00\x15\xad";

#[test]
fn each_status_has_its_line(rt: HostRuntime) -> Result<(), Fail> {
    let damage = Damage {
        place: Place(262_144),
        expected: Digest(OF_NOTHING),
        found: Digest(OF_ABC),
    };
    let room = NoRoom {
        need: 3120,
        free: 80,
    };
    let table: [(Status, &[u8]); 10] = [
        (Status::Done(Success::Script), b""),
        (
            Status::Done(Success::Formatted {
                suite: Suite::Plain,
                segments: 4096,
            }),
            b"formatted plain 4096\n",
        ),
        (
            Status::AnchorCount { formatted: true },
            b"already formatted\n",
        ),
        (Status::AnchorCount { formatted: false }, b"unformatted\n"),
        (
            Status::Damaged(Finding::Tampered(damage)),
            b"tampered 262144 \
            e3b0c44298fc1c149afbf4c8996fb92427ae41e4649b934ca495991b7852b855 \
            ba7816bf8f01cfea414140de5dae2223b00361a396177a9cb410ff61f20015ad\n",
        ),
        (Status::Damaged(Finding::Form(Place(256))), b"form 256\n"),
        (
            Status::Refused(Refusal::Full(room)),
            b"refused full 3120 80\n",
        ),
        (Status::Refused(Refusal::Ring), b"refused ring\n"),
        (Status::Memory, b"memory\n"),
        (Status::SinkFault, b""),
    ];
    for (status, line) in table {
        let mut sink = MemorySink::new(rt.alloc(), Vec::new(rt.alloc()));
        let last = put_last_line(rt.alloc(), &mut sink, status);
        assert_eq!(rt; last, status);
        assert!(rt; sink.bytes() == line);
    }
    Ok(())
}

#[test]
fn a_line_that_fails_is_told_as_a_fault_of_the_sink(rt: HostRuntime) -> Result<(), Fail> {
    let mut sink = MemorySink::new(rt.alloc(), [1].to_vec(rt.alloc())?);
    let last = put_last_line(rt.alloc(), &mut sink, Status::Usage);
    assert_eq!(rt; last, Status::SinkFault);
    assert!(rt; sink.bytes().is_empty());
    Ok(())
}
