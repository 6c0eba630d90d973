// Entries, read line by line.
ghost use Rattle.std.specs.Prelude.{◌≡◌, ◌≤◌, List, ◌∷◌, ◌++◌, true, length, IfOk, IfSome, MatchOption, Ok, is_err, option_copied, find};
ghost use Rattle.std.specs.Str.Lines.{lines};
ghost use Rattle.uu_map.specs.Text.{most_entry, is_name_line, host_of, Numbered, joined, statements_of};
ghost use Rattle.uu_map.specs.declared.entry.Entry.{Entry};
ghost use Rattle.uu_map.specs.Entry.{IsEntry, IsAnswer, AnswersUnlessMemory};
ghost use Rattle.uu_map.specs.Token.{begins};
ghost use Rattle.uu_names.specs.Text.{is_blank};
ghost use Rattle.uu_map.specs.Internal.Parsing.{all_said, nothing_said, as_said, Says};

use crate::entry::{Entry, Link, Network};
use crate::fault::MapFault;
use crate::least::listed;
use crate::network::network_of;
use crate::statement::{is_all_blank, site_name, statement_of};
use crate::text::{before_comment, is_name_line, named_by};
use std::alloc::{AllocError, Global};
use uu_names::text::{first_line, is_blank};
use uu_names::{Listed, SiteName};

/// The most bytes of a map entry (this project's choice).
pub const MAX_ENTRY: usize = 65_536;

// The first line that names a host.
fn name_line(text: &[u8]) -> Option<&[u8]>
    ensures value { option_copied result ≡ find is_name_line (lines text.now) }
    ensures long { IfSome result (λ line. 2 ≤ length line.now) }
{
    let mut rest = text;
    while !rest.is_empty() {
        let (line, after) = first_line(rest);
        if is_name_line(line) {
            return Some(line);
        }
        rest = after;
    }
    None
}

// The host of an entry.
fn host(alloc: Global, text: &[u8]) -> Result<SiteName, MapFault>
    ensures answer { AnswersUnlessMemory result (host_of text.now) }
    ensures size { IfOk result (λ _. length text.now ≤ most_entry) }
{
    if text.len() > MAX_ENTRY {
        return Err(MapFault::TooLarge);
    }
    let Some(line) = name_line(text) else {
        return Err(MapFault::NoName);
    };
    let name = named_by(line);
    if name.is_empty() {
        return Err(MapFault::NoName);
    }
    match site_name(alloc, name)? {
        Some(host) => Ok(host),
        None => Err(MapFault::BadHost),
    }
}

/// What the statements said so far.
#[derive(Drop)]
pub(crate) struct Parsed {
    pub(crate) aliases: Vec<SiteName>,
    pub(crate) links: Vec<Link>,
    pub(crate) networks: Vec<Network>,
    pub(crate) skipped: Vec<u32>,
}

/// A statement that the next line may continue.
#[derive(Drop)]
pub(crate) struct Pending {
    line: u32,
    text: Vec<u8>,
}

impl Pending {
    ghost use Rattle.uu_map.specs.Internal.Parsing.{numbered_of};

    fn new(alloc: Global, line: u32, text: &[u8]) -> Result<Pending, AllocError>
        ensures { IfOk result (λ pending. numbered_of pending ≡ record { line = line; text = text.now }) }
    {
        Ok(Pending {
            line,
            text: Vec::from_slice(alloc, text)?,
        })
    }

    // The statement with one more line.
    fn continued(mut self, line: u32, text: &[u8]) -> Result<Pending, AllocError>
        ensures { IfOk result (λ pending. numbered_of pending ≡ joined (numbered_of self) (record { line = line; text = text.now })) }
    {
        self.text.push(b' ')?;
        self.text.extend_from_slice(text)?;
        Ok(self)
    }
}

fn begins_with_blank(text: &[u8]) -> bool
    ensures { result ≡ begins is_blank text.now }
{
    match text {
        [first, ..] => is_blank(*first),
        [] => false,
    }
}

impl Parsed {
    ghost use Rattle.uu_map.specs.Internal.Parsing.{then_said, of_one, parsed_as, numbered_of, pending_list, in_all};

    fn new(alloc: Global) -> Parsed
        ensures { as_said result ≡ nothing_said }
    {
        Parsed {
            aliases: Vec::new(alloc),
            links: Vec::new(alloc),
            networks: Vec::new(alloc),
            skipped: Vec::new(alloc),
        }
    }

    // Adds what a statement says, or its line if it is skipped.
    fn add(&mut self, alloc: Global, host: &[u8], statement: &Pending) -> Result<(), AllocError>
        ensures { IfOk result (λ _. as_said self.new ≡ then_said (as_said self.old) (of_one statement.now.line (parsed_as host.now statement.now.text.items))) }
    {
        match statement_of(alloc, host, &statement.text)? {
            None => match network_of(alloc, &statement.text)? {
                None => self.skipped.push(statement.line)?,
                Some(network) => self.networks.push(network)?,
            },
            Some(mut said) => {
                self.aliases.append(&mut said.aliases)?;
                self.links.append(&mut said.links)?;
            }
        }
        Ok(())
    }

    // Takes a line: it continues the pending statement, or ends it and begins another.
    fn take_line(
        &mut self,
        alloc: Global,
        host: &[u8],
        pending: Option<Pending>,
        line: u32,
        text: &[u8],
    ) -> Result<Pending, AllocError>
        ensures { IfOk result (λ next. (rest : List Numbered) →
            in_all host.now (as_said self.new) (numbered_of next ∷ rest)
            ≡ in_all host.now (as_said self.old) (pending_list pending ++ record { line = line; text = text.now } ∷ rest)) }
    {
        match pending {
            None => Pending::new(alloc, line, text),
            Some(pending) => {
                if begins_with_blank(text) {
                    pending.continued(line, text)
                } else {
                    self.add(alloc, host, &pending)?;
                    Pending::new(alloc, line, text)
                }
            }
        }
    }

    /// What the statements of an entry say about the host.
    pub(crate) fn of_entry(alloc: Global, host: &[u8], text: &[u8]) -> Result<Parsed, AllocError>
        requires { length text.now ≤ most_entry }
        ensures { IfOk result (λ parsed. as_said parsed ≡ all_said host.now (statements_of text.now)) }
    {
        let mut parsed = Parsed::new(alloc);
        let mut pending = None;
        let mut line = 0;
        let mut rest = text;
        while !rest.is_empty() {
            let (whole, after) = first_line(rest);
            rest = after;
            line += 1;
            let said = before_comment(whole);
            if !is_all_blank(said) {
                pending = Some(parsed.take_line(alloc, host, pending, line, said)?);
            }
        }
        parsed.finish(alloc, host, pending)
    }

    // Everything so far, with the last statement, if there is one.
    fn finish(
        mut self,
        alloc: Global,
        host: &[u8],
        pending: Option<Pending>,
    ) -> Result<Parsed, AllocError>
        ensures { IfOk result (λ parsed. as_said parsed ≡ in_all host.now (as_said self) (pending_list pending)) }
    {
        if let Some(last) = pending {
            self.add(alloc, host, &last)?;
        }
        Ok(self)
    }

    // The entry of this host, with the links in their order.
    fn into_entry(self, alloc: Global, host: SiteName) -> Result<Entry, AllocError>
        ensures { IfOk result (Says (as_said self) host) }
    {
        let Parsed {
            aliases,
            links,
            networks,
            skipped,
        } = self;
        let links = listed(alloc, links)?;
        Ok(Entry {
            host,
            aliases: Listed::from_vec(aliases),
            links: Listed::from_vec(links),
            networks: Listed::from_vec(networks),
            skipped: Listed::from_vec(skipped),
        })
    }
}

// What an entry of at most 65,536 bytes says about this host.
fn entry_of(alloc: Global, host: SiteName, text: &[u8]) -> Result<Entry, AllocError>
    requires { length text.now ≤ most_entry }
    ensures { IfOk result (Says (all_said host (statements_of text.now)) host) }
{
    let parsed = Parsed::of_entry(alloc, host.as_str().as_bytes(), text)?;
    parsed.into_entry(alloc, host)
}

/// Reads a map entry: the host that its first `#N` line names, its aliases, its links, its networks,
/// and the lines of what was skipped. A statement that can't be read is skipped whole.
///
/// The errors are checked in this order. A text of more than 65,536 bytes is
/// [`MapFault::TooLarge`], one that names no host [`MapFault::NoName`], and one whose host isn't a
/// site name [`MapFault::BadHost`].
pub fn read_entry(alloc: Global, text: &[u8]) -> Result<Entry, MapFault>
    // What is kept is in the grammar and has that meaning. What is skipped isn't in the grammar.
    // Each fault has its cause.
    ensures answer { IsAnswer text.now result }
    // The text has no other entry.
    ensures only { (entry : Entry) → IsEntry text.now entry → AnswersUnlessMemory result (Ok entry) }
{
    let host = host(alloc, text)?;
    Ok(entry_of(alloc, host, text)?)
}

/// The host of a map entry, if the entry can be read.
pub fn entry_host(alloc: Global, text: &[u8]) -> Result<Option<SiteName>, AllocError>
    ensures { IfOk result (λ host. MatchOption host (is_err (host_of text.now) ≡ true) (λ host. host_of text.now ≡ Ok host)) }
{
    match host(alloc, text) {
        Ok(host) => Ok(Some(host)),
        Err(MapFault::NoName | MapFault::BadHost | MapFault::TooLarge) => Ok(None),
        Err(MapFault::Memory) => Err(AllocError),
    }
}
