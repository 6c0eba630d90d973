// The versions of the tables.

/// The versions of the tables that can be read. The fourth is the one that is made and written.
#[derive(Clone, Copy, Debug, PartialEq, Eq)]
pub enum Version {
    /// Seven tables. Each success wait is 0.
    First,
    /// With a table of the success waits, and none of links.
    Second,
    /// With tables of the links, and of the jobs taken by them.
    Third,
    /// A system's definition is in its row, and a job's bytes are in one row. No row refers to
    /// another.
    Fourth,
}
