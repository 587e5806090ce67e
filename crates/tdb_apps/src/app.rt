//! The objects of the three classes, as one universe.
ghost use Rattle.std.specs.Prelude.{◌≡◌, ◌<◌, ◌≤◌, ◌^◌, ◌++◌, IfSome, IfNone, Some, None, length, refl};
ghost use Rattle.std.specs.Int.{w32, to_be_bytes};
ghost use Rattle.tdb_apps.specs.Pickle.{app_class, app_pickle, ReadsAs, IsNewest};
ghost use Rattle.tdb_apps.specs.Keys.{app_key, app_field_kind};
ghost use Rattle.tdb_apps.specs.AppLaws.{one_app, one_app_pickle, app_pickle_is_newest, app_key_kind};
ghost use Rattle.tdb_apps.specs.declared.app.App.TheVariants as app;

use crate::account::Account;
use crate::licence::Licence;
use crate::note::Note;
use std::alloc::{AllocError, Global};
use tdb_base::{Bytes, push_u32, split_u32};
use tdb_class::{Class, Field, FieldKind, PickleError, Universe};

pub(crate) const NOTE_CLASS: u32 = 1;

pub(crate) const ACCOUNT_CLASS: u32 = 2;

pub(crate) const LICENCE_CLASS: u32 = 3;

/// The version of each class that is written.
const VERSION: u32 = 1;

/// An object of one of the three classes.
#[derive(Debug, Drop)]
pub enum App {
    Note(Note),
    Account(Account),
    Licence(Licence),
}

/// The class, the version and the body of a pickle, or `None` where the bytes are too few.
fn split_head(bytes: &[u8]) -> Option<(u32, u32, &[u8])>
    ensures some { IfSome result (λ parts. bytes.now ≡ to_be_bytes w32 parts.0 ++ (to_be_bytes w32 parts.1 ++ parts.2.now)) }
    ensures none { IfNone result (length bytes.now < 8) }
{
    if bytes.len() < 8 {
        return None;
    }
    let (class, rest) = split_u32(bytes);
    let (version, body) = split_u32(rest);
    Some((class, version, body))
}

impl Universe for App {
    ghost reads = { ReadsAs };

    ghost is_newest = { IsNewest };

    ghost pickle_of = { app_pickle };

    ghost class_of = { app_class };

    ghost kind_of = { app_field_kind };

    ghost key_of = { app_key };

    ghost one_object = { one_app };

    ghost one_pickle = { one_app_pickle };

    ghost pickles_newest = { app_pickle_is_newest };

    ghost key_kind = { app_key_kind };

    fn known(&self) {
        match self {
            App::Note(note) => {
                note.text();
            }
            App::Account(account) => {
                account.owner();
            }
            App::Licence(licence) => {
                licence.title();
            }
        }
    }

    fn class(&self) -> u32 {
        match self {
            App::Note(_) => NOTE_CLASS,
            App::Account(_) => ACCOUNT_CLASS,
            App::Licence(_) => LICENCE_CLASS,
        }
    }

    fn field_kind(class: u32, field: u32) -> Option<FieldKind> {
        match (class, field) {
            (NOTE_CLASS | ACCOUNT_CLASS | LICENCE_CLASS, 0) => Some(FieldKind::Text),
            (ACCOUNT_CLASS | LICENCE_CLASS, 1) | (LICENCE_CLASS, 2) => Some(FieldKind::Num),
            _ => None,
        }
    }

    fn pickle(&self, alloc: Global) -> Result<Bytes, AllocError> {
        let mut bytes = Vec::new(alloc);
        push_u32(&mut bytes, self.class())?;
        push_u32(&mut bytes, VERSION)?;
        match self {
            App::Note(note) => note.push_body(&mut bytes)?,
            App::Account(account) => account.push_body(&mut bytes)?,
            App::Licence(licence) => licence.push_body(&mut bytes)?,
        }
        Ok(Bytes::from(bytes))
    }

    fn unpickle(alloc: Global, bytes: &[u8]) -> Result<App, PickleError> {
        let Some((class, version, body)) = split_head(bytes) else {
            return Err(PickleError::Form);
        };
        if version != VERSION {
            return Err(PickleError::Form);
        }
        match class {
            NOTE_CLASS => Ok(App::Note(Note::read_body(alloc, body)?)),
            ACCOUNT_CLASS => match Account::read_body(body) {
                Some(account) => Ok(App::Account(account)),
                None => Err(PickleError::Form),
            },
            LICENCE_CLASS => match Licence::read_body(body) {
                Some(licence) => Ok(App::Licence(licence)),
                None => Err(PickleError::Form),
            },
            _ => Err(PickleError::Form),
        }
    }

    fn key(&self, field: u32) -> Option<Field> {
        match self {
            App::Note(note) => note.key(field),
            App::Account(account) => account.key(field),
            App::Licence(licence) => licence.key(field),
        }
    }
}

impl Class<App> for Note {
    const CLASS: u32 = NOTE_CLASS;

    ghost CLASS = { 1 };

    ghost wrapped = { app.Note };

    ghost class_is = { λ x. refl };

    ghost one_wrapped = { λ x y same. Prim.cc };

    fn wrap(self) -> App {
        App::Note(self)
    }

    fn of_ref(value: &App) -> Option<&Note> {
        match value {
            App::Note(note) => Some(note),
            _ => None,
        }
    }
}

impl Class<App> for Account {
    const CLASS: u32 = ACCOUNT_CLASS;

    ghost CLASS = { 2 };

    ghost wrapped = { app.Account };

    ghost class_is = { λ x. refl };

    ghost one_wrapped = { λ x y same. Prim.cc };

    fn wrap(self) -> App {
        App::Account(self)
    }

    fn of_ref(value: &App) -> Option<&Account> {
        match value {
            App::Account(account) => Some(account),
            _ => None,
        }
    }
}

impl Class<App> for Licence {
    const CLASS: u32 = LICENCE_CLASS;

    ghost CLASS = { 3 };

    ghost wrapped = { app.Licence };

    ghost class_is = { λ x. refl };

    ghost one_wrapped = { λ x y same. Prim.cc };

    fn wrap(self) -> App {
        App::Licence(self)
    }

    fn of_ref(value: &App) -> Option<&Licence> {
        match value {
            App::Licence(licence) => Some(licence),
            _ => None,
        }
    }
}
