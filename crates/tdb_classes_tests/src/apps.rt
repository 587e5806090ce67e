// Notes, accounts and licences: their bytes, limits, keys and names, as the page of formats gives them.
use std::alloc::{AllocError, Global};
use std::test::Fail;
use tdb_apps::{Account, App, Licence, Note, class_name, class_named};
use tdb_base::Bytes;
use tdb_class::{Class, Field, FieldKind, PickleError, ShortText, Universe};
use tdb_script::{is_note_text, stored_note};
use tdb_stored::{Member, Stored};

/// The chunk of the note `hello`, which is in no collection.
const HELLO: [u8; 21] = *b"\0\0\0\0\0\0\0\x01\0\0\0\x01\0\0\0\x05hello";

const LETTERS: [u8; 33] = *b"abcdefghijklmnopqrstuvwxyz_012345";

fn note_of(alloc: Global, text: &[u8]) -> Result<Option<Note>, AllocError> {
    Ok(Note::new(Bytes::from(text.to_vec(alloc)?)))
}

fn account_of(owner: &[u8], balance: u64) -> Option<App> {
    Some(App::Account(Account::new(ShortText::new(owner)?, balance)?))
}

fn licence_of(title: &[u8], limit: u32, played: u32) -> Option<App> {
    let licence = Licence::new(ShortText::new(title)?, limit, played)?;
    Some(App::Licence(licence))
}

fn text(bytes: &[u8]) -> Option<Field> {
    Some(Field::Text(ShortText::new(bytes)?))
}

#[test]
fn the_chunk_of_a_note_is_the_same_to_scripts_and_to_objects(rt: HostRuntime) -> Result<(), Fail> {
    let hello = b"hello".as_slice();
    let note = note_of(rt.alloc(), hello)?.ok_or("no note")?;
    let member = Member {
        value: App::Note(note),
        mask: 0,
    };
    let chunk = Stored::Member(member).pickle(rt.alloc())?;
    assert!(rt; chunk.as_slice() == HELLO.as_slice());
    assert!(rt; is_note_text(hello));
    let chunk = stored_note(rt.alloc(), hello)?;
    assert!(rt; chunk.as_slice() == HELLO.as_slice());
    Ok(())
}

/// The class of the object that bytes stand for, and whether its pickle is these bytes.
fn read_again(alloc: Global, bytes: &[u8]) -> Result<(u32, bool), PickleError> {
    let object = App::unpickle(alloc, bytes)?;
    let pickle = object.pickle(alloc)?;
    Ok((object.class(), pickle.as_slice() == bytes))
}

#[test]
fn a_pickle_is_read_exactly_in_its_class_and_ranges(rt: HostRuntime) {
    let table: [(&[u8], u32); 24] = [
        (b"\0\0\0\x01\0\0\0\x01\0\0\0\x05hello", 1),
        (b"\0\0\0\x01\0\0\0\x01\0\0\0\x02 ~", 1),
        (b"\0\0\0\x01\0\0\0\x01\0\0\0\0", 0),
        (b"\0\0\0\x01\0\0\0\x01\0\0\0\x01\x1f", 0),
        (b"\0\0\0\x01\0\0\0\x01\0\0\0\x01\x7f", 0),
        (b"\0\0\0\x01\0\0\0\x01\0\0\0\x05hell", 0),
        (b"\0\0\0\x01\0\0\0\x01\0\0\0\x05hellos", 0),
        (b"\0\0\0\x01\0\0\0\0\0\0\0\x05hello", 0),
        (b"\0\0\0\x01\0\0\0\x02\0\0\0\x05hello", 0),
        (b"\0\0\0\0\0\0\0\x01\0\0\0\x05hello", 0),
        (b"\0\0\0\x04\0\0\0\x01\0\0\0\x05hello", 0),
        (b"\0\0\0\x02\0\0\0\x01\0\0\0\x03ann\0\0\0\0\0\0\x01\0", 2),
        (
            b"\0\0\0\x02\0\0\0\x01\0\0\0\x01_\xff\xff\xff\xff\xff\xff\xff\xff",
            2,
        ),
        (b"\0\0\0\x02\0\0\0\x01\0\0\0\0\0\0\0\0\0\0\x01\0", 0),
        (b"\0\0\0\x02\0\0\0\x01\0\0\0\x03Ann\0\0\0\0\0\0\x01\0", 0),
        (b"\0\0\0\x02\0\0\0\x01\0\0\0\x03ann\0\0\0\0\0\0\x01", 0),
        (b"\0\0\0\x02\0\0\0\x01\0\0\0\x03ann\0\0\0\0\0\0\x01\0\0", 0),
        (b"\0\0\0\x03\0\0\0\x01\0\0\0\x02t7\0\0\0\x0a\0\0\0\x03", 3),
        (
            b"\0\0\0\x03\0\0\0\x01\0\0\0\x02t7\xff\xff\xff\xff\xff\xff\xff\xff",
            3,
        ),
        (b"\0\0\0\x03\0\0\0\x01\0\0\0\x02t7\0\0\0\x0a\0\0\0\x0b", 0),
        (b"\0\0\0\x03\0\0\0\x01\0\0\0\x02t \0\0\0\x0a\0\0\0\x03", 0),
        (b"\0\0\0\x03\0\0\0\x01\0\0\0\x02t7\0\0\0\x0a\0\0\0", 0),
        (b"\0\0\0\x03\0\0\0", 0),
        (b"", 0),
    ];
    for (bytes, class) in table.iter() {
        match read_again(rt.alloc(), bytes) {
            Ok(found) => assert!(rt; found == (*class, true), "{bytes:?}"),
            Err(error) => assert!(rt; *class == 0 && error == PickleError::Form, "{bytes:?}"),
        }
    }
}

#[test]
fn a_note_has_at_most_2000_bytes(rt: HostRuntime) -> Result<(), Fail> {
    let text = [b'~'; 2001];
    assert!(rt; note_of(rt.alloc(), &text[..2000])?.is_some());
    assert!(rt; note_of(rt.alloc(), &text)?.is_none());
    Ok(())
}

#[test]
fn accounts_and_licences_are_made_within_their_limits(rt: HostRuntime) {
    let table: [(&[u8], u32, u32, bool); 9] = [
        (b"a", 0, 0, true),
        (b"z_09", 7, 6, true),
        (b"z_09", 7, 7, true),
        (b"z_09", 7, 8, false),
        (b"z_09", u32::MAX, u32::MAX, true),
        (&LETTERS[..32], 1, 0, true),
        (&LETTERS, 1, 0, false),
        (b"", 1, 0, false),
        (b"a b", 1, 0, false),
    ];
    for (name, limit, played, is_licence) in table.iter() {
        let licence = licence_of(name, *limit, *played);
        assert!(rt; licence.is_some() == *is_licence, "{name:?}");
        let is_account = *is_licence || *played > *limit;
        assert!(rt;
            account_of(name, u64::MAX).is_some() == is_account,
            "{name:?}"
        );
    }
}

#[test]
fn fields_of_objects_are_keys(rt: HostRuntime) -> Result<(), Fail> {
    let note = App::Note(note_of(rt.alloc(), &LETTERS)?.ok_or("no note")?);
    let account = account_of(b"ann", u64::MAX).ok_or("no account")?;
    let licence = licence_of(b"t7", 10, 3).ok_or("no licence")?;
    let table = [
        (&note, 0, text(&LETTERS[..32])),
        (&note, 1, None),
        (&account, 0, text(b"ann")),
        (&account, 1, Some(Field::Num(u64::MAX))),
        (&account, 2, None),
        (&licence, 0, text(b"t7")),
        (&licence, 1, Some(Field::Num(10))),
        (&licence, 2, Some(Field::Num(3))),
        (&licence, 3, None),
    ];
    for (object, field, key) in table.iter() {
        assert!(rt; object.key(*field) == *key, "{object:?} at {field}");
    }
    Ok(())
}

#[test]
fn classes_have_fields_of_these_kinds(rt: HostRuntime) {
    let (number, text) = (Some(FieldKind::Num), Some(FieldKind::Text));
    let table = [
        (0, [None, None, None, None]),
        (1, [text, None, None, None]),
        (2, [text, number, None, None]),
        (3, [text, number, number, None]),
        (4, [None, None, None, None]),
    ];
    for (class, kinds) in table.iter() {
        for (field, kind) in [0, 1, 2, 3].iter().zip(kinds.iter()) {
            assert!(rt;
                App::field_kind(*class, *field) == *kind,
                "{class} at {field}"
            );
        }
    }
}

#[test]
fn an_object_is_of_one_class(rt: HostRuntime) -> Result<(), Fail> {
    let note = note_of(rt.alloc(), b"hello")?.ok_or("no note")?;
    let objects = [
        note.wrap(),
        account_of(b"ann", 0).ok_or("no account")?,
        licence_of(b"t7", 10, 3).ok_or("no licence")?,
    ];
    for (object, class) in objects.iter().zip([1, 2, 3].iter()) {
        assert!(rt; Note::of_ref(object).is_some() == (*class == 1), "{class}");
        assert!(rt;
            Account::of_ref(object).is_some() == (*class == 2),
            "{class}"
        );
        assert!(rt;
            Licence::of_ref(object).is_some() == (*class == 3),
            "{class}"
        );
    }
    Ok(())
}

#[test]
fn classes_are_printed_by_their_names(rt: HostRuntime) {
    for (class, name) in [(1, "note"), (2, "account"), (3, "licence")] {
        assert!(rt; class_name(class) == Some(name), "{name}");
        assert!(rt; class_named(name.as_bytes()) == Some(class), "{name}");
    }
    assert!(rt; class_name(0).is_none() && class_name(4).is_none());
    for name in ["", "Note", "not", "notes", "license"] {
        assert!(rt; class_named(name.as_bytes()).is_none(), "{name}");
    }
}
