//! The forms of what chunks of objects hold, as classes of their universe.
ghost use Rattle.std.specs.Prelude.{refl};
ghost use Rattle.tdb_stored.specs.declared.stored.Stored.TheVariants as stored;

use crate::bucket::Bucket;
use crate::catalog::Catalog;
use crate::directory::Directory;
use crate::head::Head;
use crate::member::Member;
use crate::node::TreeNode;
use crate::sorted::Sorted;
use crate::stored::{
    BUCKET_CLASS, CATALOG_CLASS, DIRECTORY_CLASS, HEAD_CLASS, MEMBER_CLASS, NODE_CLASS,
    SORTED_CLASS, Stored,
};
use tdb_class::{Class, Universe};

impl<U: Universe> Class<Stored<U>> for Member<U> {
    const CLASS: u32 = MEMBER_CLASS;

    ghost CLASS = { 0 };

    ghost wrapped = { stored.Member };

    ghost class_is = { λ x. refl };

    ghost one_wrapped = { λ x y same. Prim.cc };

    fn wrap(self) -> Stored<U> {
        Stored::Member(self)
    }

    fn of_ref(value: &Stored<U>) -> Option<&Member<U>> {
        match value {
            Stored::Member(member) => Some(member),
            _ => None,
        }
    }
}

impl<U: Universe> Class<Stored<U>> for Catalog {
    const CLASS: u32 = CATALOG_CLASS;

    ghost CLASS = { 65536 };

    ghost wrapped = { stored.Catalog };

    ghost class_is = { λ x. refl };

    ghost one_wrapped = { λ x y same. Prim.cc };

    fn wrap(self) -> Stored<U> {
        Stored::Catalog(self)
    }

    fn of_ref(value: &Stored<U>) -> Option<&Catalog> {
        match value {
            Stored::Catalog(catalog) => Some(catalog),
            _ => None,
        }
    }
}

impl<U: Universe> Class<Stored<U>> for Head {
    const CLASS: u32 = HEAD_CLASS;

    ghost CLASS = { 65537 };

    ghost wrapped = { stored.Head };

    ghost class_is = { λ x. refl };

    ghost one_wrapped = { λ x y same. Prim.cc };

    fn wrap(self) -> Stored<U> {
        Stored::Head(self)
    }

    fn of_ref(value: &Stored<U>) -> Option<&Head> {
        match value {
            Stored::Head(head) => Some(head),
            _ => None,
        }
    }
}

impl<U: Universe> Class<Stored<U>> for Sorted {
    const CLASS: u32 = SORTED_CLASS;

    ghost CLASS = { 65538 };

    ghost wrapped = { stored.Sorted };

    ghost class_is = { λ x. refl };

    ghost one_wrapped = { λ x y same. Prim.cc };

    fn wrap(self) -> Stored<U> {
        Stored::Sorted(self)
    }

    fn of_ref(value: &Stored<U>) -> Option<&Sorted> {
        match value {
            Stored::Sorted(sorted) => Some(sorted),
            _ => None,
        }
    }
}

impl<U: Universe> Class<Stored<U>> for TreeNode {
    const CLASS: u32 = NODE_CLASS;

    ghost CLASS = { 65539 };

    ghost wrapped = { stored.Node };

    ghost class_is = { λ x. refl };

    ghost one_wrapped = { λ x y same. Prim.cc };

    fn wrap(self) -> Stored<U> {
        Stored::Node(self)
    }

    fn of_ref(value: &Stored<U>) -> Option<&TreeNode> {
        match value {
            Stored::Node(node) => Some(node),
            _ => None,
        }
    }
}

impl<U: Universe> Class<Stored<U>> for Directory {
    const CLASS: u32 = DIRECTORY_CLASS;

    ghost CLASS = { 65540 };

    ghost wrapped = { stored.Directory };

    ghost class_is = { λ x. refl };

    ghost one_wrapped = { λ x y same. Prim.cc };

    fn wrap(self) -> Stored<U> {
        Stored::Directory(self)
    }

    fn of_ref(value: &Stored<U>) -> Option<&Directory> {
        match value {
            Stored::Directory(directory) => Some(directory),
            _ => None,
        }
    }
}

impl<U: Universe> Class<Stored<U>> for Bucket {
    const CLASS: u32 = BUCKET_CLASS;

    ghost CLASS = { 65541 };

    ghost wrapped = { stored.Bucket };

    ghost class_is = { λ x. refl };

    ghost one_wrapped = { λ x y same. Prim.cc };

    fn wrap(self) -> Stored<U> {
        Stored::Bucket(self)
    }

    fn of_ref(value: &Stored<U>) -> Option<&Bucket> {
        match value {
            Stored::Bucket(bucket) => Some(bucket),
            _ => None,
        }
    }
}
