// Map entries.
ghost use Rattle.std.specs.Prelude.{◌≡◌, IfOk};
ghost use Rattle.std.specs.List.{list_all};
ghost use Rattle.uu_check.specs.Tests.{is_entry, entry_before, are_entries};

use crate::walk::{Ranked, rise};
use std::alloc::{AllocError, Global};
use uu_map::entry_host;
use uu_tables::EntryColumns;

fn is_entry(alloc: Global, entry: &EntryColumns) -> Result<bool, AllocError>
    ensures { IfOk result (λ good. good ≡ is_entry entry.now) }
{
    match entry_host(alloc, entry.bytes.as_slice())? {
        Some(host) => Ok(host == entry.host),
        None => Ok(false),
    }
}

impl Ranked for EntryColumns {
    ghost before = { entry_before };

    fn before(&self, other: &EntryColumns) -> bool {
        self.host < other.host
    }
}

fn each_is_entry(alloc: Global, entries: &[EntryColumns]) -> Result<bool, AllocError>
    ensures { IfOk result (λ good. good ≡ list_all is_entry entries.now) }
{
    for entry in entries {
        if !is_entry(alloc, entry)? {
            return Ok(false);
        }
    }
    Ok(true)
}

/// Whether the rows are those of map entries.
pub(crate) fn are_entries(alloc: Global, entries: &[EntryColumns]) -> Result<bool, AllocError>
    ensures { IfOk result (λ good. good ≡ are_entries entries.now) }
{
    if rise(entries) {
        each_is_entry(alloc, entries)
    } else {
        Ok(false)
    }
}
