// Whole runs in memory under each cipher, against the bytes that an independent model of the formats gives for them, and
// what the device shows of the notes.
use crate::{aes128, aes256};
use std::alloc::Global;
use std::test::Fail;
use tdb_platform::Platform;
use tdb_run_rows::{DONE, REPLIES, SCRIPT, run_over_memory, run_with};

/// A piece of a device.
#[derive(Clone, Copy, Debug)]
pub struct Piece {
    /// The place of its first byte.
    pub place: usize,
    /// Its bytes.
    pub bytes: &'static [u8],
}

// The bytes of a device that has these pieces and ends with the last one, all others zero.
fn device_of(alloc: Global, pieces: &[Piece]) -> Result<Vec<u8>, Fail> {
    let mut device = Vec::new(alloc);
    for piece in pieces {
        device.resize(piece.place, 0)?;
        device.extend_from_slice(piece.bytes)?;
    }
    Ok(device)
}

#[test]
fn a_note_is_committed_and_found_under_each_cipher(rt: HostRuntime) -> Result<(), Fail> {
    let alloc = rt.alloc();
    for (suite, pieces, mark) in [
        ("aes128", aes128::PIECES, aes128::THIRD_MARK),
        ("aes256", aes256::PIECES, aes256::THIRD_MARK),
    ] {
        let words = ["start", suite, "16"];
        let mut end = run_over_memory(alloc, &words, SCRIPT, [&[], &[], &[]])?;
        assert_eq!(rt; end.status, DONE, "{suite}");
        assert!(rt; end.sink.bytes() == REPLIES, "{suite}");
        assert!(rt; end.platform.anchor()? == (3, mark), "{suite}");
        assert!(rt;
            end.platform.bytes() == device_of(alloc, pieces)?.as_slice(),
            "{suite}"
        );

        let script = b"begin 1\nget 1 1\nquit\n".as_slice();
        let end = run_with(alloc, &["run"], script, end.platform, [&[], &[]])?;
        assert_eq!(rt; end.status, DONE, "{suite}");
        assert!(rt;
            end.sink.bytes() == b"begun 1\ngot 1 1 note hello\nbye\n".as_slice(),
            "{suite}"
        );
    }
    Ok(())
}

// Notes that are easy to know again: words, and blocks that repeat.
const NOTES: [&str; 3] = [
    "Attack at dawn from the western ridge",
    "0123456789abcdef0123456789abcdef0123456789abcdef",
    "~~~~~~~~~~~~~~~~~~~~~~~~~~~~~~~~~~~~~~~~~~~~~~~~",
];

// Whether eight bytes in a row of one of the notes stand anywhere on a device.
fn shows_a_note(device: &[u8]) -> bool {
    device.windows(8).any(|seen| {
        // Most of a device is zeros, which no note has.
        seen.first() != Some(&0)
            && NOTES
                .iter()
                .any(|note| note.as_bytes().windows(8).any(|part| part == seen))
    })
}

#[test]
fn notes_stand_on_the_device_only_without_a_cipher(rt: HostRuntime) -> Result<(), Fail> {
    let alloc = rt.alloc();
    let mut script = String::new(alloc);
    for note in NOTES {
        script.push_str(format!(in alloc; "begin 1\nnew 1 note {note}\ncommit 1\n")?.as_str())?;
    }
    script.push_str("quit\n")?;
    for (suite, shown) in [("plain", true), ("aes128", false), ("aes256", false)] {
        let words = ["start", suite, "16"];
        let end = run_over_memory(alloc, &words, script.as_bytes(), [&[], &[], &[]])?;
        assert_eq!(rt; end.status, DONE, "{suite}");
        assert_eq!(rt; shows_a_note(end.platform.bytes()), shown, "{suite}");
    }
    Ok(())
}
