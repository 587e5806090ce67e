use crate::scratch::scratch;
use std::fs;
use std::fs::File;
use std::test::Fail;
use tdb_base::Failed;
use tdb_files::{FilePlatform, HeldFiles};
use tdb_platform::Platform;

const MARK: &[u8; 32] = b"0123456789abcdef0123456789abcdef";

const ANCHOR: &[u8] = b"\0\0\0\0\0\0\x01\x020123456789abcdef0123456789abcdef";

#[test]
fn a_read_gives_what_was_written_to_the_device(rt: HostRuntime) -> Result<(), Fail> {
    let device = scratch(&rt, "device")?;
    let anchor = scratch(&rt, "device-anchor")?;
    let files = HeldFiles::open(&rt, device.as_str(), anchor.as_str())?;
    let mut platform = files.platform()?;
    assert_eq!(rt; platform.write(3, b"abc"), Ok(()));
    assert_eq!(rt; platform.sync(), Ok(()));
    let reads = [
        (2, 4, *b"\0abc"),
        (4, 2, *b"bc.."),
        (6, 0, *b"...."),
        (9, 0, *b"...."),
    ];
    for (at, count, bytes) in reads {
        let mut into = *b"....";
        assert_eq!(rt; platform.read(at, &mut into), Ok(count));
        assert_eq!(rt; into, bytes);
    }
    let bytes = fs::read(&rt, device.as_str())?;
    assert_eq!(rt; bytes.as_slice(), b"\0\0\0abc".as_slice());
    let bytes = fs::read(&rt, anchor.as_str())?;
    assert_eq!(rt; bytes.len(), 0);
    fs::remove_file(&rt, device.as_str())?;
    fs::remove_file(&rt, anchor.as_str())?;
    Ok(())
}

#[test]
fn an_anchor_file_is_empty_or_has_forty_bytes(rt: HostRuntime) -> Result<(), Fail> {
    let device = scratch(&rt, "anchor-device")?;
    let anchor = scratch(&rt, "anchor")?;
    let files = HeldFiles::open(&rt, device.as_str(), anchor.as_str())?;
    let mut platform = files.platform()?;
    assert_eq!(rt; platform.anchor(), Ok((0, [0; 32])));
    assert_eq!(rt; platform.advance(258, MARK), Ok(()));
    assert_eq!(rt; platform.anchor(), Ok((258, *MARK)));
    let bytes = fs::read(&rt, anchor.as_str())?;
    assert_eq!(rt; bytes.as_slice(), ANCHOR);
    let bytes = fs::read(&rt, device.as_str())?;
    assert_eq!(rt; bytes.len(), 0);
    let others: [&[u8]; 3] = [
        b"\0\0\0\0\0\0\x01\x02",
        b"\0\0\0\0\0\0\x01\x020123456789abcdef0123456789abcde",
        b"\0\0\0\0\0\0\x01\x020123456789abcdef0123456789abcdef.",
    ];
    for other in others {
        fs::write(&rt, anchor.as_str(), other)?;
        assert_eq!(rt; platform.anchor(), Err(Failed));
    }
    fs::write(&rt, anchor.as_str(), ANCHOR)?;
    assert_eq!(rt; platform.anchor(), Ok((258, *MARK)));
    fs::remove_file(&rt, device.as_str())?;
    fs::remove_file(&rt, anchor.as_str())?;
    Ok(())
}

#[test]
fn a_write_that_the_system_refuses_is_a_fault(rt: HostRuntime) -> Result<(), Fail> {
    let device = scratch(&rt, "read-alone")?;
    let anchor = scratch(&rt, "read-alone-anchor")?;
    fs::write(&rt, device.as_str(), b"abc")?;
    fs::write(&rt, anchor.as_str(), ANCHOR)?;
    let mut platform = FilePlatform::new(
        File::open(&rt, device.as_str())?,
        File::open(&rt, anchor.as_str())?,
    );
    assert_eq!(rt; platform.write(0, b"x"), Err(Failed));
    assert_eq!(rt; platform.advance(259, MARK), Err(Failed));
    let mut into = *b"....";
    assert_eq!(rt; platform.read(0, &mut into), Ok(3));
    assert_eq!(rt; into, *b"abc.");
    assert_eq!(rt; platform.anchor(), Ok((258, *MARK)));
    fs::remove_file(&rt, device.as_str())?;
    fs::remove_file(&rt, anchor.as_str())?;
    Ok(())
}
