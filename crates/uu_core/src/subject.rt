//! What a reply is about.

use uu_names::SiteName;

/// What a reply is about, besides its command. A caller that gives many commands at once, such as
/// all systems of a sys file, finds each reply by it.
#[derive(Drop)]
pub enum Subject {
    /// The line itself, so that the reply needs no name.
    Line,
    /// The system or host of this name.
    Site(SiteName),
    /// The map entry that begins at this line of the input, counted from 1, and names no host.
    Entry(u32),
    /// The job that has this number at the neighbour that hands it on.
    Parcel(u32),
}
