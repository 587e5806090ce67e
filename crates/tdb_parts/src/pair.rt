//! Two trees that are compared.
ghost use Rattle.std.specs.Prelude.{◌↔◌, IsTrue};
ghost use Rattle.tdb_parts.specs.Told.{IsOneKey, IsShared};

use tdb_base::Piece;
use tdb_map::Tree;

/// Two trees that are compared.
#[derive(Clone, Copy)]
pub(crate) struct Trees<'a> {
    pub(crate) a: &'a Tree,
    pub(crate) b: &'a Tree,
}

/// What two trees have at one place: the roots of trees below them, or leaves.
#[derive(Clone, Copy)]
pub(crate) struct Roots {
    pub(crate) a: Option<Piece>,
    pub(crate) b: Option<Piece>,
}

impl Trees<'_> {
    /// Whether the records of both are under one key, suite and home.
    pub(crate) fn have_one_key(&self) -> bool
        ensures { IsTrue result ↔ IsOneKey self.now.a.now self.now.b.now }
    {
        self.a.key == self.b.key && self.a.suite == self.b.suite && self.a.home == self.b.home
    }

    /// Whether they share what these roots stand for.
    pub(crate) fn share(&self, roots: Roots) -> bool
        ensures { IsTrue result ↔ IsShared self.now.a.now self.now.b.now roots.a roots.b }
    {
        match (roots.a, roots.b) {
            (None, None) => true,
            (Some(one), Some(other)) => self.have_one_key() && one.digest == other.digest,
            _ => false,
        }
    }
}
