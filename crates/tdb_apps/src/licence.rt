//! Licences.
ghost use Rattle.std.specs.Prelude.{◌≡◌, ◌↔◌, ◌++◌, ◌≤◌, IsSome, IfSome, IfNone, OnOk};
ghost use Rattle.std.specs.Int.{w32, to_be_bytes};
ghost use Rattle.tdb_class.specs.TextBytes.{text_bytes};
ghost use Rattle.tdb_class.specs.Word.{IsWord};
ghost use Rattle.tdb_apps.specs.Keys.{licence_key};
ghost use Rattle.tdb_apps.specs.Objects.{LicenceFields, IsLicence};

use std::alloc::AllocError;
use std::marker::Model;
use tdb_base::{push_u32, split_u32};
use tdb_class::{Field, ShortText, push_text, split_text};

/// How often a title may be played, and how often it was. The title is a word.
#[derive(Debug, Drop)]
pub struct Licence {
    title: ShortText,
    limit: u32,
    played: u32,
}

impl Model for Licence {
    ghost use Rattle.tdb_apps.specs.Objects.{LicenceFields, IsLicence};

    ghost Value = { LicenceFields };

    ghost view = { λ licence. record { title = licence.title; limit = licence.limit; played = licence.played } };

    ghost invariant = { λ licence. IsLicence (record { title = licence.title; limit = licence.limit; played = licence.played }) };
}

impl Licence {
    /// The licence for a title, or `None` where the title is no word or more was played than the
    /// limit allows.
    pub fn new(title: ShortText, limit: u32, played: u32) -> Option<Licence>
        ensures licence { IfSome result (λ licence. licence ≡ record { title = title; limit = limit; played = played }) }
        ensures some { IsSome result ↔ (IsWord title × (played ≤ limit)) }
    {
        if title.is_word() && played <= limit {
            Some(Licence {
                title,
                limit,
                played,
            })
        } else {
            None
        }
    }

    /// The title.
    pub fn title(&self) -> &ShortText
        ensures title { result.now ≡ self.now.title }
        ensures is_licence { IsLicence self.now }
    {
        &self.title
    }

    /// How often the title may be played.
    pub fn limit(&self) -> u32
        ensures { result ≡ self.now.limit }
    {
        self.limit
    }

    /// How often it was played.
    pub fn played(&self) -> u32
        ensures { result ≡ self.now.played }
    {
        self.played
    }

    /// The value of a field.
    pub(crate) fn key(&self, field: u32) -> Option<Field>
        ensures { result ≡ licence_key self.now field }
    {
        match field {
            0 => Some(Field::Text(self.title)),
            1 => Some(Field::Num(u64::from(self.limit))),
            2 => Some(Field::Num(u64::from(self.played))),
            _ => None,
        }
    }

    /// Appends what a licence holds.
    pub(crate) fn push_body(&self, bytes: &mut Vec<u8>) -> Result<(), AllocError>
        ensures { OnOk result (bytes.new.items
            ≡ bytes.old.items ++ (text_bytes self.now.title ++ to_be_bytes w32 self.now.limit ++ to_be_bytes w32 self.now.played)) }
    {
        push_text(bytes, &self.title)?;
        push_u32(bytes, self.limit)?;
        push_u32(bytes, self.played)
    }

    /// The licence that the bytes hold.
    pub(crate) fn read_body(bytes: &[u8]) -> Option<Licence>
        ensures licence { IfSome result (λ licence. IsLicence licence
            × (bytes.now ≡ text_bytes licence.title ++ to_be_bytes w32 licence.limit ++ to_be_bytes w32 licence.played)) }
        ensures none { IfNone result ((licence : LicenceFields) → IsLicence licence
            → bytes.now ≡ text_bytes licence.title ++ to_be_bytes w32 licence.limit ++ to_be_bytes w32 licence.played → ⊥) }
    {
        let Some(parts) = split_text(bytes) else {
            return None;
        };
        if parts.1.len() != 8 {
            return None;
        }
        let (limit, rest) = split_u32(parts.1);
        let (played, _) = split_u32(rest);
        Licence::new(parts.0, limit, played)
    }
}
