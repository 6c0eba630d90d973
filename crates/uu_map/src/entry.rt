// What a map says about a site.
use uu_names::{Listed, SiteName};

/// Where in a map text an entry is.
#[derive(Clone, Copy, Debug, PartialEq, Eq)]
pub struct EntryText {
    /// The line that begins the entry, counted from 1 in the whole text.
    pub line: u32,
    /// The offset of its first byte, counted from 0.
    pub start: usize,
    /// The offset after its last byte.
    pub end: usize,
}

/// What a link costs. Each value is below [`Cost::Dead`].
#[derive(Clone, Copy, Debug, PartialEq, Eq, PartialOrd, Ord)]
pub enum Cost {
    /// A number without a unit, the less the better. In an entry that was read it is at most
    /// 1,000,000,000,000.
    Value(u64),
    /// The cost has the symbol `DEAD`: the link isn't to be used.
    Dead,
}

/// A link to a neighbour. Links compare by the bytes of the name and then by the cost. An [`Entry`]
/// lists them in another order.
#[derive(Debug, PartialEq, Eq, PartialOrd, Ord, Drop)]
pub struct Link {
    /// The neighbour.
    pub to: SiteName,
    /// What the link costs.
    pub cost: Cost,
}

/// Sites of which each has a link to each other one.
#[derive(Debug, Drop)]
pub struct Network {
    /// Its name. It is no site's.
    pub name: SiteName,
    /// Its sites, in the order of the text, with repeats.
    pub sites: Listed<SiteName>,
    /// What each of these links costs.
    pub cost: Cost,
}

/// What a map entry says about its host.
#[derive(Debug, Drop)]
pub struct Entry {
    /// The site that the entry is about.
    pub host: SiteName,
    /// Its other names, in the order of the text, with repeats.
    pub aliases: Listed<SiteName>,
    /// Its neighbours, each with its least cost, by cost and then by the bytes of the name.
    pub links: Listed<Link>,
    /// The networks that its text declares, in the order of the text.
    pub networks: Listed<Network>,
    /// The lines on which skipped statements begin, counted from 1 within the entry.
    pub skipped: Listed<u32>,
}
