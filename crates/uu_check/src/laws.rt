//! Laws of the tables.
ghost use Rattle.std.specs.Prelude.{◌≡◌};
ghost use Rattle.uu_core.specs.State.{State, IsWellFormed};
ghost use Rattle.uu_tables.specs.Tables.{tables_of};
ghost use Rattle.uu_tables.specs.Earlier.{earlier_tables_of};
ghost use Rattle.uu_check.specs.Order.{AreInOrder, AreEarlierInOrder};
ghost use Rattle.uu_check.specs.Readable.{AreReadable, AreEarlierReadable};

/// The tables of a state are in the order of their keys, and no key occurs twice.
pub fn tables_are_in_order()
    ensures this { (s : State) → IsWellFormed s → AreInOrder (tables_of s) }
    ensures earlier { (s : State) → IsWellFormed s → AreEarlierInOrder (earlier_tables_of s) }
{}

/// The rows of a state fit the types in which they are read.
pub fn tables_are_readable()
    ensures this { (s : State) → IsWellFormed s → AreReadable (tables_of s) }
    ensures earlier { (s : State) → IsWellFormed s → AreEarlierReadable (earlier_tables_of s) }
{}

/// The tables determine the state: no two states have the same tables.
pub fn tables_tell_the_state()
    ensures this { (s t : State) → IsWellFormed s → IsWellFormed t → tables_of s ≡ tables_of t → s ≡ t }
    ensures earlier { (s t : State) → IsWellFormed s → IsWellFormed t → earlier_tables_of s ≡ earlier_tables_of t → s ≡ t }
{}
