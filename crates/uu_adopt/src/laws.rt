//! What follows from the definitions.
ghost use Rattle.std.specs.Prelude.{◌↔◌};
ghost use Rattle.sqlite.specs.Schema.{Schema};
ghost use Rattle.uu_schema.specs.declared.version.Version.{Version};
ghost use Rattle.uu_adopt.specs.Format.{HasNoName, HasTablesOf, TellsVersion};
ghost use Rattle.uu_adopt.specs.FoundTables.{HasNone, HasAllOf, HasUnversionedTables};

/// The code finds in a database's tables exactly what the format says. It finds nothing exactly if
/// no table has one of the names. It finds all of a version exactly if each table of that version
/// is there with its columns, and no table has the name of one that only other versions have. It
/// finds something else exactly if a name is taken and no table `spool` has the columns that say its version.
pub fn tables_are_found_by_the_format()
    ensures none { (schema : Schema) → HasNone schema ↔ HasNoName schema }
    ensures all { (v : Version) (schema : Schema) → HasAllOf v schema ↔ HasTablesOf v schema }
    ensures other { (schema : Schema) → HasUnversionedTables schema ↔ ((¬ HasNoName schema) × (¬ TellsVersion schema)) }
{}
