// Whole numbers as the database keeps them.
ghost use Rattle.std.specs.Prelude.{◌≡◌, ℤ, None, IfSome};
ghost use Rattle.sqlite.specs.Order.{column};
ghost use Rattle.sqlite.specs.declared.types.Value.TheVariants.{Int};

use sqlite::Row;
use sqlite::types::ValueRef;

/// A whole number as the database keeps it: a rowid, or a version.
#[derive(Clone, Copy, PartialEq, Eq)]
pub(crate) struct Integer {
    pub(crate) value: i64,
}

/// The whole number in the first column, if there is one.
pub(crate) fn integer_in(row: &Row) -> Option<Integer>
    ensures value { IfSome result (λ integer. column row.now 0 ≡ Int integer.value) }
    ensures none { result ≡ None → (n : ℤ) → column row.now 0 ≡ Int n → ⊥ }
{
    match row.get_ref(0) {
        Ok(ValueRef::Int(value)) => Some(Integer { value }),
        _ => None,
    }
}
