//! Accounts.
ghost use Rattle.std.specs.Prelude.{◌≡◌, ◌↔◌, ◌++◌, IsSome, IfSome, IfNone, OnOk};
ghost use Rattle.std.specs.Int.{w64, to_be_bytes};
ghost use Rattle.tdb_class.specs.TextBytes.{text_bytes};
ghost use Rattle.tdb_class.specs.Word.{IsWord};
ghost use Rattle.tdb_apps.specs.Keys.{account_key};
ghost use Rattle.tdb_apps.specs.Objects.{AccountFields, IsAccount};

use std::alloc::AllocError;
use std::marker::Model;
use tdb_base::{push_u64, split_u64};
use tdb_class::{Field, ShortText, push_text, split_text};

/// The balance of an owner, whose name is a word.
#[derive(Debug, Drop)]
pub struct Account {
    owner: ShortText,
    balance: u64,
}

impl Model for Account {
    ghost use Rattle.tdb_apps.specs.Objects.{AccountFields, IsAccount};

    ghost Value = { AccountFields };

    ghost view = { λ account. record { owner = account.owner; balance = account.balance } };

    ghost invariant = { λ account. IsAccount (record { owner = account.owner; balance = account.balance }) };
}

impl Account {
    /// The account of an owner, or `None` where the owner's name is no word.
    pub fn new(owner: ShortText, balance: u64) -> Option<Account>
        ensures account { IfSome result (λ account. account ≡ record { owner = owner; balance = balance }) }
        ensures some { IsSome result ↔ IsWord owner }
    {
        if owner.is_word() {
            Some(Account { owner, balance })
        } else {
            None
        }
    }

    /// The name of the owner.
    pub fn owner(&self) -> &ShortText
        ensures owner { result.now ≡ self.now.owner }
        ensures is_account { IsAccount self.now }
    {
        &self.owner
    }

    /// The balance.
    pub fn balance(&self) -> u64
        ensures { result ≡ self.now.balance }
    {
        self.balance
    }

    /// The value of a field.
    pub(crate) fn key(&self, field: u32) -> Option<Field>
        ensures { result ≡ account_key self.now field }
    {
        match field {
            0 => Some(Field::Text(self.owner)),
            1 => Some(Field::Num(self.balance)),
            _ => None,
        }
    }

    /// Appends what an account holds.
    pub(crate) fn push_body(&self, bytes: &mut Vec<u8>) -> Result<(), AllocError>
        ensures { OnOk result (bytes.new.items ≡ bytes.old.items ++ (text_bytes self.now.owner ++ to_be_bytes w64 self.now.balance)) }
    {
        push_text(bytes, &self.owner)?;
        push_u64(bytes, self.balance)
    }

    /// The account that the bytes hold.
    pub(crate) fn read_body(bytes: &[u8]) -> Option<Account>
        ensures account { IfSome result (λ account. IsAccount account
            × (bytes.now ≡ text_bytes account.owner ++ to_be_bytes w64 account.balance)) }
        ensures none { IfNone result ((account : AccountFields) → IsAccount account
            → bytes.now ≡ text_bytes account.owner ++ to_be_bytes w64 account.balance → ⊥) }
    {
        let Some(parts) = split_text(bytes) else {
            return None;
        };
        if parts.1.len() != 8 {
            return None;
        }
        let (balance, _) = split_u64(parts.1);
        Account::new(parts.0, balance)
    }
}
