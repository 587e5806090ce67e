//! The fields of objects, by which indexes find them.
ghost use Rattle.std.specs.Prelude.{◌≡◌, refl};
ghost use Rattle.std.specs.Ordering.{as_partial_cmp, eq_by_cmp};
ghost use Rattle.std.specs.Cmp.{eq_by_cmp_equiv, partial_equiv_from_equiv, partial_order_from_total};
ghost use Rattle.tdb_class.specs.FieldOrder.{field_cmp};
ghost use Rattle.tdb_class.specs.FieldOrderLaws.{field_cmp_total};
ghost use Rattle.tdb_class.specs.FieldKind.{kind_of_field};

use crate::short_text::ShortText;
use std::cmp::Ordering;

/// The kind of a field: whether it is a number or a text.
#[derive(Clone, Copy, Debug, PartialEq, Eq)]
pub enum FieldKind {
    Num,
    Text,
}

/// The value of a field, as a key. Numbers come before texts.
#[derive(Clone, Copy, Debug)]
pub enum Field {
    Num(u64),
    Text(ShortText),
}

impl Field {
    /// Whether it is a number or a text.
    pub fn kind(&self) -> FieldKind
        ensures { result ≡ kind_of_field self.now }
    {
        match self {
            Field::Num(_) => FieldKind::Num,
            Field::Text(_) => FieldKind::Text,
        }
    }
}

impl PartialEq for Field {
    ghost eq = { eq_by_cmp field_cmp };

    ghost laws = { partial_equiv_from_equiv (eq_by_cmp_equiv field_cmp_total) };

    fn eq(&self, other: &Field) -> bool {
        self.cmp(other).is_eq()
    }
}

impl Eq for Field {
    ghost laws = { eq_by_cmp_equiv field_cmp_total };
}

impl PartialOrd for Field {
    ghost partial_cmp = { as_partial_cmp field_cmp };

    ghost laws = { partial_order_from_total field_cmp_total };

    fn partial_cmp(&self, other: &Field) -> Option<Ordering> {
        Some(self.cmp(other))
    }
}

impl Ord for Field {
    ghost cmp = { field_cmp };

    ghost total = { field_cmp_total };

    ghost matches_partial_cmp = { λ x y. refl };

    ghost matches_eq = { λ x y. refl };

    fn cmp(&self, other: &Field) -> Ordering {
        match (self, other) {
            (Field::Num(x), Field::Num(y)) => x.cmp(y),
            (Field::Num(_), Field::Text(_)) => Ordering::Less,
            (Field::Text(_), Field::Num(_)) => Ordering::Greater,
            (Field::Text(x), Field::Text(y)) => x.cmp(y),
        }
    }
}
