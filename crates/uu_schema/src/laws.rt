// What a database's list of objects says about its schema.
ghost use Rattle.std.specs.Prelude.{◌≡◌};
ghost use Rattle.sqlite.specs.Schema.{Schema};
ghost use Rattle.sqlite.specs.Tree.{Trees};
ghost use Rattle.sqlite_catalog.specs.Listing.{IsSound};
ghost use Rattle.uu_schema.specs.Objects.{IsSimple};

/// One list of objects has one schema. So whoever opens the trees of a database again reads the
/// schema that was written, and the trees that a stop leaves say what the reopened database shows.
pub fn one_list_has_one_schema()
    ensures { (db : Trees) (known read : Schema) → IsSimple known → IsSound known db → IsSound read db → read ≡ known }
{}
