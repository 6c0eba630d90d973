// Rows of one table that belong to rows of another.
ghost use Rattle.std.specs.Prelude.{◌≡◌, List, Bool};
ghost use Rattle.std.specs.List.{prefix_len};
ghost use Rattle.uu_check.specs.Walk.{walk, rises, rises_from};

/// A row to which rows of another table belong.
pub(crate) trait Owner<C> {
    ghost owns: { Self → C → Bool };

    ghost fits: { Self → List C → Bool };

    /// Whether a row belongs to this one.
    fn owns(&self, child: &C) -> bool
        ensures { result ≡ owns self.now child.now };

    /// Whether these rows are all the rows that have to belong to this one.
    fn fits(&self, children: &[C]) -> bool
        ensures { result ≡ fits self.now children.now };
}

// How many rows at the beginning belong to the owner.
fn count_own<P: Owner<C>, C>(owner: &P, children: &[C]) -> usize
    ensures { result ≡ prefix_len (P.owns owner.now) children.now }
{
    let mut count = 0;
    for child in children {
        if !owner.owns(child) {
            return count;
        }
        count += 1;
    }
    count
}

/// Whether the rows are those of the owners, one owner after the other.
pub(crate) fn walk_owners<P: Owner<C>, C>(owners: &[P], children: &[C]) -> bool
    ensures { result ≡ walk P.owns P.fits owners.now children.now }
{
    let mut rest = children;
    for owner in owners {
        let count = count_own(owner, rest);
        let (own, others) = rest.split_at(count);
        if !owner.fits(own) {
            return false;
        }
        rest = others;
    }
    rest.is_empty()
}

/// A row with a place in an order.
pub(crate) trait Ranked {
    ghost before: { Self → Self → Bool };

    /// Whether this row comes before the other.
    fn before(&self, other: &Self) -> bool
        ensures { result ≡ before self.now other.now };
}

/// Whether each row comes before the next.
pub(crate) fn rise<P: Ranked>(rows: &[P]) -> bool
    ensures { result ≡ rises P.before rows.now }
{
    let Some((first, rest)) = rows.split_first() else {
        return true;
    };
    let mut last = first;
    for row in rest {
        if !last.before(row) {
            return false;
        }
        last = row;
    }
    true
}
