//! Keys that are derived, and keys that are prepared for many texts.
ghost use Rattle.std.specs.Prelude.{◌≡◌, [], List, ℕ};
ghost use Rattle.tdb_mac.specs.Hmac.{hmac_of};
ghost use Rattle.tdb_mac.specs.Derive.{derived_key};
ghost use Rattle.tdb_mac.specs.MacState.{IsMacOf};

use crate::mac::Mac;
use std::marker::Model;
use tdb_base::Key;

/// The key that a secret gives for a label and two numbers.
pub fn derive(secret: &[u8; 32], label: &[u8; 8], a: u64, b: u64) -> Key
    ensures { result.0 ≡ derived_key secret.now label.now a b }
{
    let mut mac = Mac::started(secret);
    mac.update(label);
    mac.update(&a.to_be_bytes());
    mac.update(&b.to_be_bytes());
    Key(mac.finish())
}

/// A key whose two padded blocks are hashed already, for many texts. Contracts see the key's bytes.
#[derive(Drop)]
pub struct PreparedKey {
    key: Key,
    mac: Mac,
}

impl Model for PreparedKey {
    ghost use Rattle.std.specs.Prelude.{ℕ, List, []};
    ghost use Rattle.tdb_mac.specs.MacState.{IsMacOf};

    ghost Value = { List ℕ };

    ghost view = { λ prepared. prepared.key.0 };

    ghost invariant = { λ prepared. IsMacOf prepared.mac prepared.key.0 [] };
}

impl PreparedKey {
    /// Prepares a key.
    pub fn new(key: &Key) -> PreparedKey
        ensures { result ≡ key.now.0 }
    {
        PreparedKey {
            key: *key,
            mac: Mac::new(key),
        }
    }

    /// Begins a text under the key.
    pub fn start(&self) -> Mac
        ensures { IsMacOf result self.now [] }
    {
        self.mac.fork()
    }

    /// The tag of a text under the key.
    pub fn tag(&self, text: &[u8]) -> [u8; 32]
        ensures { result ≡ hmac_of self.now text.now }
    {
        let mut mac = self.start();
        mac.update(text);
        mac.finish()
    }
}
