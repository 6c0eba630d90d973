// The entries of a map text.
ghost use Rattle.std.specs.Prelude.{◌≡◌, ◌<◌, ◌≤◌, ◌++◌, length, IfOk, IfErr, OnOk};
ghost use Rattle.uu_names.specs.Text.{most_text};
ghost use Rattle.uu_map.specs.Split.{entries_of, begins_entry};
ghost use Rattle.uu_map.specs.Internal.Splitting.{ended};

use crate::entry::EntryText;
use crate::fault::MapFault;
use crate::text::is_name_line;
use std::alloc::{AllocError, Global};
use uu_names::text::first_line;

fn begins_entry(text: &[u8]) -> bool
    requires { 0 < length text.now }
    ensures { result ≡ begins_entry text.now }
{
    let (line, _) = first_line(text);
    is_name_line(line)
}

/// Where an entry begins.
#[derive(Clone, Copy)]
pub(crate) struct Start {
    line: u32,
    at: usize,
}

// Ends the entry that began here, if one did.
fn end_entry(
    entries: &mut Vec<EntryText>,
    start: Option<Start>,
    end: usize,
) -> Result<(), AllocError>
    ensures { OnOk result (entries.new.items ≡ entries.old.items ++ ended start end) }
{
    if let Some(start) = start {
        entries.push(EntryText {
            line: start.line,
            start: start.at,
            end,
        })?;
    }
    Ok(())
}

fn entries_of(alloc: Global, text: &[u8]) -> Result<Vec<EntryText>, AllocError>
    requires { length text.now ≤ most_text }
    ensures { IfOk result (λ v. v.items ≡ entries_of text.now) }
{
    let mut entries = Vec::new(alloc);
    let mut start: Option<Start> = None;
    let mut line: u32 = 1;
    let mut begins_line = true;
    for (at, byte) in text.iter().enumerate() {
        let (_, rest) = text.split_at(at);
        if begins_line && begins_entry(rest) {
            end_entry(&mut entries, start, at)?;
            start = Some(Start { line, at });
        }
        begins_line = *byte == b'\n';
        if begins_line {
            line += 1;
        }
    }
    end_entry(&mut entries, start, text.len())?;
    Ok(entries)
}

/// The entries of a map text, in its order. A line that is `#N`, or begins with `#N` and a blank,
/// begins an entry, which goes up to the next such line. What comes before the first is in no
/// entry.
///
/// A text has at most 4,194,304 bytes. The only error is [`MapFault::Memory`].
pub fn split(alloc: Global, text: &[u8]) -> Result<Vec<EntryText>, MapFault>
    requires { length text.now ≤ most_text }
    ensures entries { IfOk result (λ v. v.items ≡ entries_of text.now) }
    ensures memory { IfErr result (λ fault. fault ≡ MapFault.Memory) }
{
    Ok(entries_of(alloc, text)?)
}
