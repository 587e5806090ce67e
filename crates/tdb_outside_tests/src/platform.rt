// What no clause says: that calls succeed with ample memory, and which calls a plan lets fail.
use std::alloc::{AllocError, Global};
use std::test::Fail;
use tdb_platform::{
    AnchorLeft, Answer, Crash, HostilePlatform, ImageLeft, MemoryPlatform, Platform,
};

#[test]
fn each_call_answers_with_ample_memory(rt: HostRuntime) -> Result<(), Fail> {
    let alloc = rt.alloc();
    let (image, fail) = (b"ab".to_vec(alloc)?, Vec::new(alloc));
    let mut platform = MemoryPlatform::new(alloc, image, 0, [0; 32], fail, None)?;
    let mut into = [9; 6];

    assert_eq!(rt; platform.anchor()?, (0, [0; 32]));
    platform.advance(1, &[7; 32])?;
    assert_eq!(rt; platform.anchor()?, (1, [7; 32]));
    platform.write(4, b"cd")?;
    platform.sync()?;
    assert_eq!(rt; platform.bytes(), b"ab\0\0cd".as_slice());
    assert_eq!(rt; platform.read(3, &mut into)?, 3);
    assert_eq!(rt; into, *b"\0cd\x09\x09\x09");
    assert_eq!(rt; platform.read(6, &mut into)?, 0);
    assert_eq!(rt; platform.short(), 0);
    Ok(())
}

#[test]
fn calls_fail_by_their_numbers_and_from_the_stop_on(rt: HostRuntime) -> Result<(), Fail> {
    let alloc = rt.alloc();
    let table: [(&[u64], Option<u64>, [bool; 4]); 5] = [
        (&[], None, [true, true, true, true]),
        (&[1], None, [false, true, true, true]),
        (&[4, 2], None, [true, false, true, false]),
        (&[], Some(3), [true, true, false, false]),
        (&[1], Some(0), [false, false, false, false]),
    ];
    for (fail, stop, succeeds) in table {
        let (image, fail) = (Vec::new(alloc), fail.to_vec(alloc)?);
        let mut platform = MemoryPlatform::new(alloc, image, 0, [0; 32], fail, stop)?;
        let mut into = [0; 1];
        let answers = [
            platform.write(0, b"x").is_ok(),
            platform.sync().is_ok(),
            platform.read(0, &mut into).is_ok(),
            platform.anchor().is_ok(),
        ];
        assert_eq!(rt; answers, succeeds, "stop {stop:?}");
        assert_eq!(rt; platform.bytes().len() == 1, succeeds[0]);
        assert_eq!(rt; platform.short(), 0);
    }
    Ok(())
}

#[test]
fn a_holder_replaces_bytes_and_counts_no_call(rt: HostRuntime) -> Result<(), Fail> {
    let alloc = rt.alloc();
    let table: [(u64, &[u8], &[u8]); 5] = [
        (0, b"", b"abc"),
        (0, b"x", b"xbc"),
        (2, b"xy", b"abxy"),
        (5, b"x", b"abc\0\0x"),
        (4, b"", b"abc\0"),
    ];
    for (at, bytes, image) in table {
        let fail = [2].to_vec(alloc)?;
        let mut platform = MemoryPlatform::new(
            alloc,
            b"abc".to_vec(alloc)?,
            0,
            [0; 32],
            fail,
            None,
        )?;
        let mut into = [0; 8];

        platform.sync()?;
        platform.replace(at, bytes)?;
        assert_eq!(rt; platform.bytes(), image);
        assert_eq!(rt; platform.sync().is_ok(), false);
        assert_eq!(rt; platform.read(0, &mut into)?, image.len());
        assert_eq!(rt; platform.short(), 0);
    }
    Ok(())
}

#[test]
fn reads_are_counted_that_gave_a_piece(rt: HostRuntime) -> Result<(), Fail> {
    let alloc = rt.alloc();
    let (image, fail) = (b"abc".to_vec(alloc)?, [2].to_vec(alloc)?);
    let mut platform = MemoryPlatform::new(alloc, image, 0, [0; 32], fail, None)?;
    let mut into = [0; 8];

    assert_eq!(rt; platform.reads(), 0);
    assert_eq!(rt; platform.read(0, &mut into)?, 3);
    assert_eq!(rt; platform.read(0, &mut into).is_ok(), false);
    platform.write(0, b"x")?;
    platform.replace(0, b"y")?;
    assert_eq!(rt; platform.read(7, &mut into)?, 0);
    assert_eq!(rt; platform.reads(), 2);
    Ok(())
}

// An answer to a read.
fn answer(alloc: Global, nth: u64, bytes: &[u8]) -> Result<Answer, AllocError> {
    Ok(Answer {
        nth,
        bytes: bytes.to_vec(alloc)?,
    })
}

#[test]
fn a_hostile_device_shows_its_answers(rt: HostRuntime) -> Result<(), Fail> {
    let alloc = rt.alloc();
    let mut answers = Vec::new(alloc);
    for (nth, bytes) in [
        (2, b"long answer".as_slice()),
        (2, b"second"),
        (3, b"x"),
        (5, b""),
        (0, b"never"),
    ] {
        answers.push(answer(alloc, nth, bytes)?)?;
    }
    let fail = [4].to_vec(alloc)?;
    let inner = MemoryPlatform::new(alloc, b"abcdef".to_vec(alloc)?, 0, [0; 32], fail, None)?;
    let mut platform = HostilePlatform::new(inner, answers);
    let shown: [Option<&[u8]>; 6] = [
        Some(b"abcd"),
        Some(b"long"),
        Some(b"x"),
        None,
        Some(b""),
        Some(b"abcd"),
    ];
    for piece in shown {
        let mut into = [9; 4];
        let given = platform.read(0, &mut into);
        assert_eq!(rt; given.is_ok(), piece.is_some());
        let (Ok(count), Some(bytes)) = (given, piece) else {
            continue;
        };
        assert_eq!(rt; count, bytes.len());
        assert_eq!(rt; &into[..count], bytes);
        assert_eq!(rt; into[count..].iter().all(|byte| *byte == 9), true);
    }
    assert_eq!(rt; platform.inner().reads(), 5);
    Ok(())
}

#[test]
fn a_hostile_device_is_called_as_another(rt: HostRuntime) -> Result<(), Fail> {
    let alloc = rt.alloc();
    let image = b"abcdef".to_vec(alloc)?;
    let inner = MemoryPlatform::new(alloc, image, 0, [0; 32], Vec::new(alloc), None)?;
    let mut platform = HostilePlatform::new(inner, Vec::new(alloc));
    let mut into = [9; 2];

    platform.advance(1, &[7; 32])?;
    assert_eq!(rt; platform.anchor()?, (1, [7; 32]));
    platform.write(6, b"g")?;
    platform.sync()?;
    assert_eq!(rt; platform.read(6, &mut into)?, 1);
    assert_eq!(rt; into, *b"g\x09");
    let inner = platform.into_inner();
    assert_eq!(rt; inner.bytes(), b"abcdefg".as_slice());
    assert_eq!(rt; inner.short(), 0);
    Ok(())
}

#[test]
fn a_stop_leaves_what_was_chosen(rt: HostRuntime) -> Result<(), Fail> {
    let alloc = rt.alloc();
    let table: [(ImageLeft, AnchorLeft, &[u8], u64); 4] = [
        (ImageLeft::Old, AnchorLeft::Old, b"aRcd", 1),
        (ImageLeft::New, AnchorLeft::New, b"xRcd\0yz", 2),
        (
            ImageLeft::Torn(9),
            AnchorLeft::Old,
            b"\x09Rcd\x09\x09\x09",
            1,
        ),
        (
            ImageLeft::Torn(9),
            AnchorLeft::New,
            b"\x09Rcd\x09\x09\x09",
            2,
        ),
    ];
    for (image, anchor, bytes, count) in table {
        let fail = [5, 6].to_vec(alloc)?;
        let mut platform = MemoryPlatform::new(
            alloc,
            b"abc".to_vec(alloc)?,
            0,
            [0; 32],
            fail,
            Some(7),
        )?;

        platform.write(3, b"d")?;
        platform.sync()?;
        platform.advance(1, &[1; 32])?;
        platform.write(0, b"x")?;
        assert_eq!(rt; platform.write(5, b"yz").is_ok(), false);
        platform.replace(1, b"R")?;
        assert_eq!(rt; platform.advance(2, &[2; 32]).is_ok(), false);
        assert_eq!(rt; platform.bytes(), b"xRcd".as_slice());

        let mut left = platform.crash(Crash { image, anchor })?;
        assert_eq!(rt; left.bytes(), bytes);
        assert_eq!(rt; left.anchor()?.0, count);
        left.sync()?;
        assert_eq!(rt; left.reads(), 0);
        assert_eq!(rt; left.short(), 0);
    }
    Ok(())
}

#[test]
fn a_stop_leaves_what_a_sync_and_a_look_settled(rt: HostRuntime) -> Result<(), Fail> {
    let alloc = rt.alloc();
    let table = [
        (ImageLeft::Old, AnchorLeft::New),
        (ImageLeft::New, AnchorLeft::Old),
        (ImageLeft::Torn(9), AnchorLeft::New),
    ];
    for (image, anchor) in table {
        let fail = [2].to_vec(alloc)?;
        let mut platform = MemoryPlatform::new(
            alloc,
            b"abc".to_vec(alloc)?,
            4,
            [4; 32],
            fail,
            None,
        )?;

        platform.write(4, b"e")?;
        assert_eq!(rt; platform.advance(5, &[5; 32]).is_ok(), false);
        assert_eq!(rt; platform.anchor()?, (4, [4; 32]));
        platform.sync()?;

        let mut left = platform.crash(Crash { image, anchor })?;
        assert_eq!(rt; left.bytes(), b"abc\0e".as_slice());
        assert_eq!(rt; left.anchor()?, (4, [4; 32]));
    }
    Ok(())
}
