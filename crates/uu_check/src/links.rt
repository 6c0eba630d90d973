// Links of systems, and what was taken by them.
ghost use Rattle.std.specs.Prelude.{◌≡◌, true};
ghost use Rattle.std.specs.List.{list_all};
ghost use Rattle.uu_check.specs.Tests.{owns_link, fits_link, owns_taken, fits_taken, taken_before, is_given, may_be_asked, are_links, link_before, system_before};
ghost use Rattle.uu_check.specs.Walk.{rises};

use crate::walk::{Owner, Ranked, rise, walk_owners};
use uu_core::laws::mark_is_sound;
use uu_core::limits::NUMBERS_END;
use uu_tables::{BareSystem, LinkColumns, TakenColumns};

impl Owner<LinkColumns> for BareSystem {
    ghost owns = { owns_link };

    ghost fits = { fits_link };

    fn owns(&self, child: &LinkColumns) -> bool {
        self.name == child.system
    }

    fn fits(&self, children: &[LinkColumns]) -> bool {
        match children {
            [] => true,
            [one] => 1 <= one.below && one.below <= NUMBERS_END,
            _ => false,
        }
    }
}

impl Ranked for TakenColumns {
    ghost before = { taken_before };

    fn before(&self, other: &TakenColumns) -> bool {
        self.taken.number < other.taken.number
    }
}

impl Owner<TakenColumns> for BareSystem {
    ghost owns = { owns_taken };

    ghost fits = { fits_taken };

    fn owns(&self, child: &TakenColumns) -> bool {
        self.name == child.system
    }

    fn fits(&self, children: &[TakenColumns]) -> bool {
        rise(children)
    }
}

fn is_given(next: u32, row: &TakenColumns) -> bool
    ensures { result ≡ is_given next row.now }
{
    mark_is_sound(&row.taken.mark);
    row.taken.job >= 1 && row.taken.job < next && row.taken.number <= NUMBERS_END
}

fn are_given(next: u32, taken: &[TakenColumns]) -> bool
    ensures { result ≡ list_all (is_given next) taken.now }
{
    for row in taken {
        if !is_given(next, row) {
            return false;
        }
    }
    true
}

fn may_be_asked(links: &[LinkColumns], row: &TakenColumns) -> bool
    requires { rises link_before links.now ≡ true }
    ensures { result ≡ may_be_asked links.now row.now }
{
    match links.binary_search_by(|link| link.system.cmp(&row.system)) {
        Ok(place) => links[place].below <= row.taken.number,
        Err(_) => true,
    }
}

fn may_all_be_asked(links: &[LinkColumns], taken: &[TakenColumns]) -> bool
    requires { rises link_before links.now ≡ true }
    ensures { result ≡ list_all (may_be_asked links.now) taken.now }
{
    for row in taken {
        if !may_be_asked(links, row) {
            return false;
        }
    }
    true
}

/// Whether the rows are those of links of these systems, and of what was taken by them.
pub(crate) fn are_links(
    next: u32,
    systems: &[BareSystem],
    links: &[LinkColumns],
    taken: &[TakenColumns],
) -> bool
    requires { rises system_before systems.now ≡ true }
    ensures { result ≡ are_links next systems.now links.now taken.now }
{
    walk_owners(systems, links)
        && walk_owners(systems, taken)
        && are_given(next, taken)
        && may_all_be_asked(links, taken)
}
