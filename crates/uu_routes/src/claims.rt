// Which entries claim a name.
ghost use Rattle.std.specs.Prelude.{◌≡◌, ℕ, List, IfOk, OnOk, option_copied};
ghost use Rattle.std.specs.Ordering.{nat_cmp};
ghost use Rattle.std.specs.Cmp.Lexicographic.{slice_cmp};
ghost use Rattle.std.specs.BTreeMap.{get};
ghost use Rattle.uu_routes.specs.Map.{host_for};
ghost use Rattle.uu_routes.specs.Internal.Claims.{AreClaims, claim_by, entry_by, host_by, noted, noted_all};

use std::alloc::{AllocError, Global};
use std::collections::BTreeMap;
use uu_map::Entry;
use uu_names::SiteName;

/// Which entries claim a name.
#[derive(Clone, Copy, Debug)]
pub(crate) enum Claim {
    /// Only the entry at this place.
    By(usize),
    /// More than one.
    Several,
}

// One more claim, by the entry at this place.
fn claim_by(entry: usize, known: Option<Claim>) -> Claim
    ensures { result ≡ claim_by entry known }
{
    match known {
        None => Claim::By(entry),
        Some(Claim::By(other)) => {
            if other == entry {
                Claim::By(entry)
            } else {
                Claim::Several
            }
        }
        Some(Claim::Several) => Claim::Several,
    }
}

fn note(
    table: &mut BTreeMap<SiteName, Claim>,
    entry: usize,
    name: &SiteName,
) -> Result<(), AllocError>
    ensures { OnOk result ((other : List ℕ) → get (slice_cmp nat_cmp) table.new other ≡ noted entry name.now (get (slice_cmp nat_cmp) table.old) other) }
{
    let claim = claim_by(entry, table.get(name).copied());
    table.insert(name.clone()?, claim)?;
    Ok(())
}

// Notes each name that an entry claims.
fn note_all(
    table: &mut BTreeMap<SiteName, Claim>,
    place: usize,
    entry: &Entry,
) -> Result<(), AllocError>
    ensures { OnOk result ((other : List ℕ) → get (slice_cmp nat_cmp) table.new other ≡ noted_all place entry.now (get (slice_cmp nat_cmp) table.old) other) }
{
    note(table, place, &entry.host)?;
    for alias in entry.aliases.as_slice() {
        note(table, place, alias)?;
    }
    Ok(())
}

/// The table of the names that entries claim.
pub(crate) fn table_of(
    alloc: Global,
    entries: &[Entry],
) -> Result<BTreeMap<SiteName, Claim>, AllocError>
    ensures { IfOk result (λ table. AreClaims entries.now (get (slice_cmp nat_cmp) table)) }
{
    let mut table = BTreeMap::new(alloc);
    for (place, entry) in entries.iter().enumerate() {
        note_all(&mut table, place, entry)?;
    }
    Ok(table)
}

// The only entry that claims a name, if there is one.
fn entry_by(entries: &[Entry], claim: Option<Claim>) -> Option<&Entry>
    ensures { option_copied result ≡ entry_by entries.now claim }
{
    match claim {
        None => None,
        Some(Claim::By(place)) => entries.get(place),
        Some(Claim::Several) => None,
    }
}

// The host of an entry, or else the name.
fn host_by<'a>(name: &'a SiteName, entry: Option<&'a Entry>) -> &'a SiteName
    ensures { result.now ≡ host_by name.now (option_copied entry.entry) }
{
    match entry {
        None => name,
        Some(entry) => &entry.host,
    }
}

/// The host that a name means.
pub(crate) fn host_for<'a>(
    entries: &'a [Entry],
    table: &BTreeMap<SiteName, Claim>,
    name: &'a SiteName,
) -> &'a SiteName
    requires { AreClaims entries.now (get (slice_cmp nat_cmp) table.now) }
    ensures { result.now ≡ host_for entries.now name.now }
{
    let entry = entry_by(entries, table.get(name).copied());
    host_by(name, entry)
}
