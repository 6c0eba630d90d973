// Bang paths.
ghost use Rattle.std.specs.Prelude.{◌≡◌, ◌+◌, ◌∷◌, ◌++◌, ℕ, List, Some, MatchResult, IfOk, IfErr, IsOk, IsTrue, nat_eq, string_bytes, ⊤};
ghost use Rattle.std.specs.List.{position_or_len};
ghost use Rattle.uu_names.specs.Fault.{UnlessMemory};
ghost use Rattle.uu_names.specs.Name.{is_site_name, is_word};
ghost use Rattle.uu_names.specs.Path.{IsPathText, IsPathFault, first_hop, rest_of, is_bang};

use crate::fault::NameFault;
use crate::site_name::{self, is_site_byte};
use crate::text::ascii_text;
use crate::word::{self, is_word_byte};
use std::alloc::{AllocError, Global};
use std::marker::Model;

/// A bang path, seen as its bytes: one or more site names and then a local part, joined by `!`, at
/// most 255 bytes in all. The local part has bytes from 0x21 to 0x7E without `!`, and isn't read
/// any further, so `@` and `%` stay as written. (RFC 976 writes such addresses; the grammar and the
/// limits are this project's choice.)
#[derive(Debug, Drop)]
pub struct Path {
    text: String,
    hop_len: usize,
}

impl Model for Path {
    ghost Value = { List ℕ };

    ghost view = { λ path. string_bytes path.text };

    ghost invariant = { λ path. IsPathText (string_bytes path.text)
        × (path.hop_len ≡ position_or_len is_bang (string_bytes path.text)) };
}

/// The most bytes of a path.
const MAX_LEN: usize = 255;

// The offset of the first `!` of a path's text, or why the bytes aren't a path. One scan does both:
// it keeps what the part after the last `!` is so far.
fn check(bytes: &[u8]) -> Result<usize, NameFault>
    ensures { MatchResult result
        (λ hop_len. IsPathText bytes.now × (hop_len ≡ position_or_len is_bang bytes.now))
        (IsPathFault bytes.now) }
{
    let mut first_bang: Option<usize> = None;
    let mut part_len = 0;
    let mut part_is_site = true;
    let mut long_site = false;
    for (at, byte) in bytes.iter().enumerate() {
        if *byte == b'!' {
            if part_len == 0 || !part_is_site {
                return Err(NameFault::BadPath(at));
            }
            first_bang = first_bang.or(Some(at));
            long_site = long_site || part_len > site_name::MAX_LEN;
            part_len = 0;
            part_is_site = true;
        } else {
            let of_site = is_site_byte(*byte);
            if !of_site && (first_bang.is_none() || !is_word_byte(*byte)) {
                return Err(NameFault::BadPath(at));
            }
            part_is_site = part_is_site && of_site;
            part_len += 1;
        }
    }
    match first_bang {
        Some(hop_len) if part_len > 0 => {
            if long_site || bytes.len() > MAX_LEN {
                return Err(NameFault::TooLong);
            }
            Ok(hop_len)
        }
        _ => Err(NameFault::BadPath(bytes.len())),
    }
}

impl Path {
    /// Reads a bang path. A text that isn't one is [`NameFault::BadPath`] with the length of its
    /// longest prefix that some path of any length begins with. If it has the right form but a site
    /// name of more than 63 bytes, or more than 255 bytes in all, it is [`NameFault::TooLong`].
    pub fn parse(alloc: Global, text: &str) -> Result<Path, NameFault>
        ensures text { IfOk result (λ path. path ≡ text.now) }
        ensures path { IsOk result → IsPathText text.now }
        ensures fault { IfErr result (IsPathFault text.now) }
        ensures refused { IfErr result (λ fault. UnlessMemory fault (¬ IsPathText text.now)) }
    {
        Path::from_bytes(alloc, text.as_bytes())
    }

    /// Reads a bang path from bytes, as [`Path::parse`] does.
    #[tactic(auto, using(crate::proofs::PathScan::faults))]
    pub fn from_bytes(alloc: Global, bytes: &[u8]) -> Result<Path, NameFault>
        ensures text { IfOk result (λ path. path ≡ bytes.now) }
        ensures path { IsOk result → IsPathText bytes.now }
        ensures fault { IfErr result (IsPathFault bytes.now) }
        ensures refused { IfErr result (λ fault. UnlessMemory fault (¬ IsPathText bytes.now)) }
    {
        let hop_len = check(bytes)?;
        let text = ascii_text(alloc, bytes)?;
        Ok(Path { text, hop_len })
    }

    /// The path's text.
    pub fn as_str(&self) -> &str
        ensures text { result.now ≡ self.now }
        ensures path { IsPathText self.now }
    {
        // The clause `path` is about the text and the end of its first site.
        let _ = &self.hop_len;
        self.text.as_str()
    }

    /// The first site: the text before the first `!`.
    pub fn first_hop(&self) -> &str
        ensures text { result.now ≡ first_hop self.now }
        ensures site { IsTrue (is_site_name result.now) }
    {
        let text = self.text.as_str();
        &text[..self.hop_len]
    }

    /// The text after the first `!`: what the first site does with the message.
    pub fn rest(&self) -> &str
        ensures text { result.now ≡ rest_of self.now }
        ensures word { IsTrue (is_word result.now) }
    {
        let text = self.text.as_str();
        &text[self.hop_len + 1..]
    }
}
