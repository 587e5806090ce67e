//! Members of collections.
ghost use Rattle.std.specs.Prelude.{◌<◌, ◌^◌};

use tdb_class::Universe;

/// An object of an application, and the collections that it is in.
#[derive(Debug, Drop)]
pub struct Member<U: Drop> {
    pub value: U,
    /// Bit n stands for collection n.
    pub mask: u16,
}

impl<U: Universe> Member<U> {
    /// Each member has a pickle. It costs nothing.
    pub(crate) fn known(&self)
        ensures mask { self.now.mask < 2 ^ 16 }
        ensures value { U.reads (U.pickle_of self.now.value) self.now.value }
    {
        let _mask = self.mask;
        self.value.known();
    }
}
