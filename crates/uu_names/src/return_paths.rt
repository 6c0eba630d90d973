// The lines that the sites on a message's way have put before it.
ghost use Rattle.std.specs.Prelude.{◌≡◌, ℕ, List, ◌+◌, ◌-◌, ◌<◌, ◌≤◌, [], ◌∷◌, length, take, drop, IfOk, IfErr, MatchOption, ⊤, ◌==◌, position};
ghost use Rattle.std.specs.List.{suffix_len};
ghost use Rattle.uu_names.specs.Fault.{UnlessMemory};
ghost use Rattle.uu_names.specs.ReturnPath.{content, raw_lines, is_no_space, Sender, IsLeadingLine, IsReturnPath, IsReturnFault, Stops};
ghost use Rattle.uu_names.specs.Text.{space, line_feed};
ghost use Rattle.uu_names.specs.Internal.NextLine.{BeginsWithSender};

use crate::fault::NameFault;
use crate::path::Path;
use crate::site_name::is_site_name;
use crate::text::strip_carriage_return;
use std::alloc::Global;

// What a leading line says, and how many bytes it has with its ending.
#[derive(Clone, Copy)]
struct Found<'a> {
    user: &'a [u8],
    site: &'a [u8],
    line_len: usize,
}

// A line without its line feed, and without a carriage return directly before that.
fn content(line: &[u8]) -> &[u8]
    ensures { result.now ≡ content line.now }
{
    if line.ends_with(b"\n") {
        strip_carriage_return(&line[..line.len() - 1])
    } else {
        line
    }
}

fn first_line_feed(text: &[u8]) -> Option<usize>
    ensures { result ≡ position (λ byte. byte == line_feed) text.now }
{
    text.iter().position(|byte| *byte == b'\n')
}

// How many bytes the first line has, with its line feed.
fn first_line_len(text: &[u8]) -> usize
    requires { 0 < length text.now }
    ensures some { 0 < result }
    ensures within { result ≤ length text.now }
    ensures line { raw_lines text.now ≡ take result text.now ∷ raw_lines (drop result text.now) }
{
    match first_line_feed(text) {
        Some(at) => at + 1,
        None => text.len(),
    }
}

// How many bytes come after the last space.
fn last_word_len(text: &[u8]) -> usize
    ensures { result ≡ suffix_len is_no_space text.now }
{
    text.iter().rev().take_while(|byte| **byte != b' ').count()
}

fn first_space(text: &[u8]) -> Option<usize>
    ensures { result ≡ position (λ byte. byte == space) text.now }
{
    text.iter().position(|byte| *byte == b' ')
}

// The user and the site of a leading line, if it is one.
fn sender<'a>(marker: &[u8], line: &'a [u8]) -> Option<(&'a [u8], &'a [u8])>
    ensures { MatchOption result ((sender : Sender) → ¬ IsLeadingLine marker.now line.now sender)
        (λ found. IsLeadingLine marker.now line.now (record { user = found.0.now; site = found.1.now })) }
{
    let rest = line.strip_prefix(marker)?;
    let user_len = first_space(rest)?;
    let (user, back) = rest.split_at(user_len);
    let (front, site) = back.split_at(back.len() - last_word_len(back));
    if user.is_empty() || !front.ends_with(b" remote from ") || !is_site_name(site) {
        return None;
    }
    Some((user, site))
}

// The leading line that the text begins with, if it does.
fn next_sender<'a>(marker: &[u8], text: &'a [u8]) -> Option<Found<'a>>
    ensures { MatchOption result (Stops marker.now (raw_lines text.now))
        (λ found. BeginsWithSender marker.now text.now found.user.now found.site.now found.line_len) }
{
    if text.is_empty() {
        return None;
    }
    let line_len = first_line_len(text);
    let (user, site) = sender(marker, content(&text[..line_len]))?;
    Some(Found {
        user,
        site,
        line_len,
    })
}

/// Reads the way back of a message from its leading lines, which the sites on its way have put
/// before it, and the offset at which its body starts.
///
/// The first line begins with `From `, each other with `>From `. After that come a user without a
/// space, nothing or a space and any bytes, and ` remote from ` and a site name. A line ends with a
/// line feed, perhaps after a carriage return, or at the end of the message. The longest run of
/// such lines from the top counts. The path is their sites in order and the user of the last.
///
/// Without such a line the answer is [`NameFault::NoEnvelope`]. If the way back isn't a path, the
/// answer is the fault of [`Path::parse`]. Its offset counts in the way back, which is the sites
/// and the user joined by `!`, and not in the message. The time is linear in the leading lines and
/// one line more. (RFC 976; which lines count is this project's choice.)
pub fn return_path(alloc: Global, message: &[u8]) -> Result<(Path, usize), NameFault>
    ensures path { IfOk result (λ read. IsReturnPath message.now read.0 read.1) }
    ensures fault { IfErr result (IsReturnFault message.now) }
    ensures refused { IfErr result (λ fault. UnlessMemory fault ((path : List ℕ) (body : ℕ) → ¬ IsReturnPath message.now path body)) }
{
    let mut way = Vec::new(alloc);
    let mut user: &[u8] = b"";
    let mut marker: &[u8] = b"From ";
    let mut body = 0;
    while let Some(found) = next_sender(marker, &message[body..]) {
        way.extend_from_slice(found.site)?;
        way.push(b'!')?;
        user = found.user;
        marker = b">From ";
        body += found.line_len;
    }
    if body == 0 {
        return Err(NameFault::NoEnvelope);
    }
    way.extend_from_slice(user)?;
    let path = Path::from_bytes(alloc, &way)?;
    Ok((path, body))
}
