use crate::scratch::scratch;
use std::fs;
use std::test::Fail;
use tdb_files::secret_in;

#[test]
fn a_secret_file_has_32_bytes(rt: HostRuntime) -> Result<(), Fail> {
    let path = scratch(&rt, "secret")?;
    assert_eq!(rt; secret_in(&rt, path.as_str()).is_err(), true, "no file");
    let files: [(&[u8], Option<[u8; 32]>); 3] = [
        (b"0123456789abcdef0123456789abcde", None),
        (
            b"0123456789abcdef0123456789abcdef",
            Some(*b"0123456789abcdef0123456789abcdef"),
        ),
        (b"0123456789abcdef0123456789abcdef\n", None),
    ];
    for (bytes, secret) in files {
        fs::write(&rt, path.as_str(), bytes)?;
        assert_eq!(rt; secret_in(&rt, path.as_str()).ok(), secret);
    }
    fs::remove_file(&rt, path.as_str())?;
    Ok(())
}
