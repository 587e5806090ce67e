use crate::scratch::scratch;
use std::fs;
use std::fs::File;
use std::os::fd::AsRawFd;
use std::test::Fail;
use tdb_files::{HeldFiles, take_standard_descriptors};
use tdb_platform::Platform;

#[test]
fn files_that_are_held_are_refused_to_others(rt: HostRuntime) -> Result<(), Fail> {
    let device = scratch(&rt, "held-device")?;
    let anchor = scratch(&rt, "held-anchor")?;
    let new = scratch(&rt, "held-new")?;
    fs::write(&rt, device.as_str(), b"device")?;
    fs::write(&rt, anchor.as_str(), b"anchor")?;
    let held = HeldFiles::open(&rt, device.as_str(), anchor.as_str())?;
    let (first, second, third) = (device.as_str(), anchor.as_str(), new.as_str());
    assert_eq!(rt; refused(&rt, first, second, third)?, true);
    assert_eq!(rt; refused(&rt, third, second, third)?, true);
    assert_eq!(rt; refused(&rt, first, third, third)?, true);
    assert_eq!(rt; refused(&rt, third, third, third)?, true);

    let platform = held.platform()?;
    held.let_go(&rt);
    let other = HeldFiles::open(&rt, device.as_str(), anchor.as_str());
    assert_eq!(rt; other.is_err(), true, "a platform over them is left");
    drop(platform);
    HeldFiles::open(&rt, device.as_str(), anchor.as_str())?.let_go(&rt);

    let bytes = fs::read(&rt, device.as_str())?;
    assert_eq!(rt;
        bytes.as_slice(),
        b"device".as_slice(),
        "what a file holds stays"
    );
    fs::remove_file(&rt, device.as_str())?;
    fs::remove_file(&rt, anchor.as_str())?;
    Ok(())
}

// Whether the two files can't be had, and the new one, which wasn't there, isn't left.
fn refused(rt: &HostRuntime, device: &str, anchor: &str, new: &str) -> Result<bool, Fail> {
    let is_refused = HeldFiles::open(rt, device, anchor).is_err();
    Ok(is_refused && !fs::exists(rt, new)?)
}

#[test]
fn a_file_that_was_made_and_stayed_empty_is_removed(rt: HostRuntime) -> Result<(), Fail> {
    let device = scratch(&rt, "made-device")?;
    let anchor = scratch(&rt, "made-anchor")?;
    let held = HeldFiles::open(&rt, device.as_str(), anchor.as_str())?;
    let mut platform = held.platform()?;
    assert_eq!(rt; platform.write(0, b"x"), Ok(()));
    drop(platform);
    held.let_go(&rt);
    assert_eq!(rt;
        fs::exists(&rt, device.as_str())?,
        true,
        "it was written to"
    );
    assert_eq!(rt; fs::exists(&rt, anchor.as_str())?, false);

    fs::write(&rt, device.as_str(), b"")?;
    fs::write(&rt, anchor.as_str(), b"")?;
    HeldFiles::open(&rt, device.as_str(), anchor.as_str())?.let_go(&rt);
    assert_eq!(rt;
        fs::exists(&rt, device.as_str())?,
        true,
        "it was there before"
    );
    assert_eq!(rt; fs::exists(&rt, anchor.as_str())?, true);
    fs::remove_file(&rt, device.as_str())?;
    fs::remove_file(&rt, anchor.as_str())?;
    Ok(())
}

#[test]
fn no_file_is_a_standard_descriptor(rt: HostRuntime) -> Result<(), Fail> {
    take_standard_descriptors(&rt)?;
    let file = File::open(&rt, "/dev/null")?;
    assert_eq!(rt; file.as_raw_fd() > 2, true);
    Ok(())
}
