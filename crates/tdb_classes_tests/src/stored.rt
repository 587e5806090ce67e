// What chunks of objects hold: each form in its bytes, at its limits and out of order.
use std::alloc::{AllocError, Global};
use std::test::Fail;
use tdb_apps::App;
use tdb_base::push_u32;
use tdb_class::{Class, Field, PickleError, ShortText, Universe};
use tdb_stored::{
    Bucket, Catalog, Directory, Entries, Head, Indexed, Inner, Listed, Pair, Sorted, Stored,
    TreeNode, push_key,
};

/// A catalog of 16 collections, which have the numbers 0 to 15.
const FULL_CATALOG: [u8; 216] = *b"\0\x01\0\0\0\0\0\x10\
    \0\0\0\x00\0\0\0\x01p\0\0\0\x09\
    \0\0\0\x01\0\0\0\x01o\0\0\0\x09\
    \0\0\0\x02\0\0\0\x01n\0\0\0\x09\
    \0\0\0\x03\0\0\0\x01m\0\0\0\x09\
    \0\0\0\x04\0\0\0\x01l\0\0\0\x09\
    \0\0\0\x05\0\0\0\x01k\0\0\0\x09\
    \0\0\0\x06\0\0\0\x01j\0\0\0\x09\
    \0\0\0\x07\0\0\0\x01i\0\0\0\x09\
    \0\0\0\x08\0\0\0\x01h\0\0\0\x09\
    \0\0\0\x09\0\0\0\x01g\0\0\0\x09\
    \0\0\0\x0a\0\0\0\x01f\0\0\0\x09\
    \0\0\0\x0b\0\0\0\x01e\0\0\0\x09\
    \0\0\0\x0c\0\0\0\x01d\0\0\0\x09\
    \0\0\0\x0d\0\0\0\x01c\0\0\0\x09\
    \0\0\0\x0e\0\0\0\x01b\0\0\0\x09\
    \0\0\0\x0f\0\0\0\x01a\0\0\0\x09";

/// A head with 4 indexes, which have the numbers and kinds 0 to 3.
const FULL_HEAD: [u8; 76] = *b"\0\x01\0\x01\0\0\0\x03\0\0\0\x04\
    \0\0\0\x00\0\0\0\x02\0\0\0\x00\0\0\0\x09\
    \0\0\0\x01\0\0\0\x02\0\0\0\x01\0\0\0\x09\
    \0\0\0\x02\0\0\0\x02\0\0\0\x02\0\0\0\x09\
    \0\0\0\x03\0\0\0\x02\0\0\0\x03\0\0\0\x09";

/// The class of the object that bytes stand for, and whether its pickle is these bytes.
fn read_again(alloc: Global, bytes: &[u8]) -> Result<(u32, bool), PickleError> {
    let object: Stored<App> = Stored::unpickle(alloc, bytes)?;
    let pickle = object.pickle(alloc)?;
    Ok((object.class(), pickle.as_slice() == bytes))
}

/// Whether the bytes stand for an object of the class and are its pickle, or for none where there
/// is no class.
fn is_read(alloc: Global, bytes: &[u8], class: Option<u32>) -> bool {
    match read_again(alloc, bytes) {
        Ok((found, is_pickle)) => is_pickle && class == Some(found),
        Err(error) => error == PickleError::Form && class.is_none(),
    }
}

#[test]
fn a_member_has_a_mask_below_65536_and_an_object(rt: HostRuntime) {
    let pickles: [&[u8]; 3] = [
        b"\0\0\0\0\0\0\0\x01\0\0\0\x01\0\0\0\x02hi",
        b"\0\0\xff\xff\0\0\0\x01\0\0\0\x01\0\0\0\x02hi",
        // an owner of 32 letters
        b"\0\0\0\0\0\0\0\x02\0\0\0\x01\0\0\0\x20abcdefghijklmnopqrstuvwxyz_01234\0\0\0\0\0\0\0\x07",
    ];
    for bytes in pickles.iter() {
        assert!(rt; is_read(rt.alloc(), bytes, Some(0)), "{bytes:?}");
    }
    let refused: [&[u8]; 6] = [
        // the mask 65,536, and an owner of 33 letters
        b"\0\x01\0\0\0\0\0\x01\0\0\0\x01\0\0\0\x02hi",
        b"\0\0\0\0\0\0\0\x02\0\0\0\x01\0\0\0\x21abcdefghijklmnopqrstuvwxyz_012345\0\0\0\0\0\0\0\x07",
        b"\0\0\0\0",
        b"\0\0\0",
        b"\0\x01\0\x06",
        b"\xff\xff\xff\xff",
    ];
    for bytes in refused.iter() {
        assert!(rt; is_read(rt.alloc(), bytes, None), "{bytes:?}");
    }
}

#[test]
fn collections_stand_by_number_under_names_of_their_own(rt: HostRuntime) {
    let pickles: [&[u8]; 4] = [
        &FULL_CATALOG,
        b"\0\x01\0\0\0\0\0\0",
        b"\0\x01\0\0\0\0\0\x01\0\0\0\x0f\0\0\0\x05shelf\xff\xff\xff\xff",
        b"\0\x01\0\0\0\0\0\x02\0\0\0\0\0\0\0\x01b\0\0\0\x09\0\0\0\x01\0\0\0\x01a\0\0\0\x09",
    ];
    for bytes in pickles.iter() {
        assert!(rt; is_read(rt.alloc(), bytes, Some(65_536)), "{bytes:?}");
    }
    let refused: [&[u8]; 7] = [
        // the number 16, a name that is no word, and none
        b"\0\x01\0\0\0\0\0\x01\0\0\0\x10\0\0\0\x05shelf\xff\xff\xff\xff",
        b"\0\x01\0\0\0\0\0\x01\0\0\0\x0f\0\0\0\x05Shelf\xff\xff\xff\xff",
        b"\0\x01\0\0\0\0\0\x01\0\0\0\x0f\0\0\0\0\xff\xff\xff\xff",
        // numbers that fall, a number twice, and a name twice
        b"\0\x01\0\0\0\0\0\x02\0\0\0\x01\0\0\0\x01b\0\0\0\x09\0\0\0\0\0\0\0\x01a\0\0\0\x09",
        b"\0\x01\0\0\0\0\0\x02\0\0\0\x01\0\0\0\x01b\0\0\0\x09\0\0\0\x01\0\0\0\x01a\0\0\0\x09",
        b"\0\x01\0\0\0\0\0\x02\0\0\0\0\0\0\0\x01b\0\0\0\x09\0\0\0\x01\0\0\0\x01b\0\0\0\x08",
        // a byte more
        b"\0\x01\0\0\0\0\0\x01\0\0\0\0\0\0\0\x01b\0\0\0\x09\0",
    ];
    for bytes in refused.iter() {
        assert!(rt; is_read(rt.alloc(), bytes, None), "{bytes:?}");
    }
}

#[test]
fn a_head_has_indexes_by_number(rt: HostRuntime) {
    let pickles: [&[u8]; 3] = [
        &FULL_HEAD,
        b"\0\x01\0\x01\0\0\0\x03\0\0\0\x01\0\0\0\x03\0\0\0\x02\0\0\0\x03\0\0\0\x09",
        b"\0\x01\0\x01\0\0\0\x03\0\0\0\x02\0\0\0\0\0\0\0\x02\0\0\0\0\0\0\0\x09\0\0\0\x01\0\0\0\0\0\0\0\0\0\0\0\x08",
    ];
    for bytes in pickles.iter() {
        assert!(rt; is_read(rt.alloc(), bytes, Some(65_537)), "{bytes:?}");
    }
    let refused: [&[u8]; 5] = [
        // the number 4, the kind 4, and no index
        b"\0\x01\0\x01\0\0\0\x03\0\0\0\x01\0\0\0\x04\0\0\0\x02\0\0\0\x03\0\0\0\x09",
        b"\0\x01\0\x01\0\0\0\x03\0\0\0\x01\0\0\0\x03\0\0\0\x02\0\0\0\x04\0\0\0\x09",
        b"\0\x01\0\x01\0\0\0\x03\0\0\0\0",
        // a number twice, and numbers that fall
        b"\0\x01\0\x01\0\0\0\x03\0\0\0\x02\0\0\0\x01\0\0\0\x02\0\0\0\0\0\0\0\x09\0\0\0\x01\0\0\0\0\0\0\0\0\0\0\0\x08",
        b"\0\x01\0\x01\0\0\0\x03\0\0\0\x02\0\0\0\x01\0\0\0\x02\0\0\0\0\0\0\0\x09\0\0\0\0\0\0\0\0\0\0\0\0\0\0\0\x08",
    ];
    for bytes in refused.iter() {
        assert!(rt; is_read(rt.alloc(), bytes, None), "{bytes:?}");
    }
}

#[test]
fn entries_ascend_by_key_and_then_by_id(rt: HostRuntime) {
    let pickles: [&[u8]; 5] = [
        b"\0\x01\0\x02\0\0\0\0",
        // the number 5 with the ids 1 and 2, the number 5 and `a`, `a` with the ids 1 and 2
        b"\0\x01\0\x02\0\0\0\x02\0\0\0\0\0\0\0\0\x05\0\0\0\x01\0\0\0\0\0\0\0\0\x05\0\0\0\x02",
        b"\0\x01\0\x02\0\0\0\x02\0\0\0\0\0\0\0\0\x05\0\0\0\x02\x01\x01a\0\0\0\x01",
        b"\0\x01\0\x02\0\0\0\x02\x01\x01a\0\0\0\x01\x01\x01a\0\0\0\x02",
        // a key of 32 bytes
        b"\0\x01\0\x02\0\0\0\x01\x01\x20ABCDEFGHIJKLMNOPQRSTUVWXYZ 01234\0\0\0\x01",
    ];
    for bytes in pickles.iter() {
        assert!(rt; is_read(rt.alloc(), bytes, Some(65_538)), "{bytes:?}");
    }
    let refused: [&[u8]; 7] = [
        // the number 5 twice with the id 1, and with the ids 2 and 1; the numbers 5 and 4
        b"\0\x01\0\x02\0\0\0\x02\0\0\0\0\0\0\0\0\x05\0\0\0\x01\0\0\0\0\0\0\0\0\x05\0\0\0\x01",
        b"\0\x01\0\x02\0\0\0\x02\0\0\0\0\0\0\0\0\x05\0\0\0\x02\0\0\0\0\0\0\0\0\x05\0\0\0\x01",
        b"\0\x01\0\x02\0\0\0\x02\0\0\0\0\0\0\0\0\x05\0\0\0\x01\0\0\0\0\0\0\0\0\x04\0\0\0\x02",
        // `a` and the number 5, `b` and `aa`
        b"\0\x01\0\x02\0\0\0\x02\x01\x01a\0\0\0\x01\0\0\0\0\0\0\0\0\x05\0\0\0\x02",
        b"\0\x01\0\x02\0\0\0\x02\x01\x01b\0\0\0\x01\x01\x02aa\0\0\0\x02",
        // a key of 33 bytes, and one of no kind
        b"\0\x01\0\x02\0\0\0\x01\x01\x21ABCDEFGHIJKLMNOPQRSTUVWXYZ 012345\0\0\0\x01",
        b"\0\x01\0\x02\0\0\0\x01\x02\0\0\0\0\0\0\0\x05\0\0\0\x01",
    ];
    for bytes in refused.iter() {
        assert!(rt; is_read(rt.alloc(), bytes, None), "{bytes:?}");
    }
}

#[test]
fn a_node_is_a_leaf_or_has_one_child_more_than_separators(rt: HostRuntime) {
    let pickles: [&[u8]; 2] = [
        b"\0\x01\0\x03\0\0\0\0\0\0\0\0",
        b"\0\x01\0\x03\0\0\0\x01\0\0\0\x01\x01\x01a\0\0\0\x01\0\0\0\x07\0\0\0\x08",
    ];
    for bytes in pickles.iter() {
        assert!(rt; is_read(rt.alloc(), bytes, Some(65_539)), "{bytes:?}");
    }
    let refused: [&[u8]; 4] = [
        b"\0\x01\0\x03\0\0\0\x02\0\0\0\0",
        b"\0\x01\0\x03\0\0\0\x01\0\0\0\x01\x01\x01a\0\0\0\x01\0\0\0\x07",
        b"\0\x01\0\x03\0\0\0\x01\0\0\0\x01\x01\x01a\0\0\0\x01\0\0\0\x07\0\0\0\x08\0\0\0\x09",
        b"\0\x01\0\x03\0\0\0\x01\0\0\0\0\0\0\0\x07",
    ];
    for bytes in refused.iter() {
        assert!(rt; is_read(rt.alloc(), bytes, None), "{bytes:?}");
    }
}

#[test]
fn a_directory_has_a_rank_for_each_bucket_of_its_level_and_split(rt: HostRuntime) {
    let pickles: [&[u8]; 2] = [
        // the level, how many are split, the number of entries, and ranks
        b"\0\x01\0\x04\0\0\0\0\0\0\0\0\0\0\0\x63\0\0\0\x07",
        b"\0\x01\0\x04\0\0\0\x01\0\0\0\x01\0\0\0\x63\0\0\0\x07\0\0\0\x08\0\0\0\x09",
    ];
    for bytes in pickles.iter() {
        assert!(rt; is_read(rt.alloc(), bytes, Some(65_540)), "{bytes:?}");
    }
    let refused: [&[u8]; 5] = [
        b"\0\x01\0\x04\0\0\0\0\0\0\0\x01\0\0\0\x63\0\0\0\x07\0\0\0\x08",
        b"\0\x01\0\x04\0\0\0\x01\0\0\0\x01\0\0\0\x63\0\0\0\x07\0\0\0\x08",
        b"\0\x01\0\x04\0\0\0\x01\0\0\0\0\0\0\0\x63\0\0\0\x07\0\0\0\x08\0\0\0\x09",
        // levels that ask for more buckets than can stand there
        b"\0\x01\0\x04\0\0\0\x1f\0\0\0\0\0\0\0\x63\0\0\0\x07",
        b"\0\x01\0\x04\0\0\0\x20\0\0\0\0\0\0\0\x63\0\0\0\x07",
    ];
    for bytes in refused.iter() {
        assert!(rt; is_read(rt.alloc(), bytes, None), "{bytes:?}");
    }
}

#[test]
fn a_bucket_has_a_next_one_and_entries(rt: HostRuntime) {
    let pickles: [&[u8]; 2] = [
        b"\0\x01\0\x05\0\0\0\x09\0\0\0\0",
        b"\0\x01\0\x05\0\0\0\0\0\0\0\x01\x01\0\0\0\0\x01",
    ];
    for bytes in pickles.iter() {
        assert!(rt; is_read(rt.alloc(), bytes, Some(65_541)), "{bytes:?}");
    }
    let refused: [&[u8]; 3] = [
        b"\0\x01\0\x05\0\0\0\0\0\0\0\x02\x01\0\0\0\0\x01",
        b"\0\x01\0\x05\0\0\0\0\0\0\0\x01\x01\0\0\0\0\x01\0",
        b"\0\x01\0\x05\0\0\0\0\0\0\0",
    ];
    for bytes in refused.iter() {
        assert!(rt; is_read(rt.alloc(), bytes, None), "{bytes:?}");
    }
}

/// The first bytes of a form, so many entries with the keys 0, 1 and on behind their number, and so
/// many ranks.
fn with_entries(alloc: Global, head: &[u8], count: u32, ranks: u32) -> Result<Vec<u8>, AllocError> {
    let mut bytes = head.to_vec(alloc)?;
    push_u32(&mut bytes, count)?;
    for i in 0..count {
        push_key(&mut bytes, &Field::Num(u64::from(i)))?;
        push_u32(&mut bytes, 7)?;
    }
    for rank in 0..ranks {
        push_u32(&mut bytes, rank)?;
    }
    Ok(bytes)
}

#[test]
fn a_form_has_at_most_so_many_entries(rt: HostRuntime) -> Result<(), Fail> {
    let table: [(&[u8], u32, u32, Option<u32>); 10] = [
        (b"\0\x01\0\x02", 512, 0, Some(65_538)),
        (b"\0\x01\0\x02", 513, 0, None),
        (b"\0\x01\0\x03\0\0\0\0", 32, 0, Some(65_539)),
        (b"\0\x01\0\x03\0\0\0\0", 33, 0, None),
        (b"\0\x01\0\x03\0\0\0\x01", 32, 33, Some(65_539)),
        (b"\0\x01\0\x03\0\0\0\x01", 32, 32, None),
        (b"\0\x01\0\x03\0\0\0\x01", 32, 34, None),
        (b"\0\x01\0\x03\0\0\0\x01", 33, 34, None),
        (b"\0\x01\0\x05\0\0\0\x09", 128, 0, Some(65_541)),
        (b"\0\x01\0\x05\0\0\0\x09", 129, 0, None),
    ];
    for (head, count, ranks, class) in table.iter() {
        let bytes = with_entries(rt.alloc(), head, *count, *ranks)?;
        assert!(rt;
            is_read(rt.alloc(), &bytes, *class),
            "{head:?}, {count} and {ranks}"
        );
    }
    Ok(())
}

fn is_pickled(alloc: Global, object: &Stored<App>, bytes: &[u8]) -> Result<bool, AllocError> {
    let pickle = object.pickle(alloc)?;
    Ok(pickle.as_slice() == bytes)
}

/// The entries of the keys 5 and `a`.
fn pairs(alloc: Global) -> Result<Vec<Pair>, AllocError> {
    let mut pairs = Vec::new(alloc);
    pairs.push(Pair {
        key: Field::Num(5),
        id: 2,
    })?;
    if let Some(text) = ShortText::new(b"a") {
        pairs.push(Pair {
            key: Field::Text(text),
            id: 1,
        })?;
    }
    Ok(pairs)
}

#[test]
fn catalogs_and_heads_are_written(rt: HostRuntime) -> Result<(), Fail> {
    let name = ShortText::new(b"shelf").ok_or("too long")?;
    let listed = Listed {
        number: 15,
        name,
        head: 9,
    };
    let catalog = Catalog::new([listed].to_vec(rt.alloc())?).ok_or("no catalog")?;
    let bytes = b"\0\x01\0\0\0\0\0\x01\0\0\0\x0f\0\0\0\x05shelf\0\0\0\x09";
    assert!(rt; is_pickled(rt.alloc(), &catalog.wrap(), bytes)?);
    let index = Indexed {
        number: 3,
        field: 2,
        kind: 1,
        root: 9,
    };
    let head = Head::new(4, [index].to_vec(rt.alloc())?).ok_or("no head")?;
    let bytes = b"\0\x01\0\x01\0\0\0\x04\0\0\0\x01\0\0\0\x03\0\0\0\x02\0\0\0\x01\0\0\0\x09";
    assert!(rt; is_pickled(rt.alloc(), &head.wrap(), bytes)?);
    Ok(())
}

#[test]
fn sorted_indexes_and_buckets_are_written(rt: HostRuntime) -> Result<(), Fail> {
    let entries = Entries::new(pairs(rt.alloc())?).ok_or("no entries")?;
    let bytes = b"\0\x01\0\x02\0\0\0\x02\0\0\0\0\0\0\0\0\x05\0\0\0\x02\x01\x01a\0\0\0\x01";
    assert!(rt; is_pickled(rt.alloc(), &Sorted { entries }.wrap(), bytes)?);
    let entries = Entries::new(pairs(rt.alloc())?).ok_or("no entries")?;
    let bytes =
        b"\0\x01\0\x05\0\0\0\x09\0\0\0\x02\0\0\0\0\0\0\0\0\x05\0\0\0\x02\x01\x01a\0\0\0\x01";
    assert!(rt; is_pickled(rt.alloc(), &Bucket { next: 9, entries }.wrap(), bytes)?);
    Ok(())
}

#[test]
fn nodes_and_directories_are_written(rt: HostRuntime) -> Result<(), Fail> {
    let separators = Entries::new(pairs(rt.alloc())?).ok_or("no entries")?;
    let inner = Inner::new(separators, [7, 8, 9].to_vec(rt.alloc())?).ok_or("no node")?;
    let bytes = b"\0\x01\0\x03\0\0\0\x01\0\0\0\x02\0\0\0\0\0\0\0\0\x05\0\0\0\x02\x01\x01a\0\0\0\x01\
        \0\0\0\x07\0\0\0\x08\0\0\0\x09";
    assert!(rt; is_pickled(rt.alloc(), &TreeNode::Inner(inner).wrap(), bytes)?);
    let buckets = [7, 8, 9].to_vec(rt.alloc())?;
    let directory = Directory::new(1, 1, 99, buckets).ok_or("no directory")?;
    let bytes = b"\0\x01\0\x04\0\0\0\x01\0\0\0\x01\0\0\0\x63\0\0\0\x07\0\0\0\x08\0\0\0\x09";
    assert!(rt; is_pickled(rt.alloc(), &directory.wrap(), bytes)?);
    Ok(())
}
