// The lines of a map text.
ghost use Rattle.std.specs.Prelude.{◌≡◌, ◌≤◌, length};
ghost use Rattle.std.specs.List.{prefix_len};
ghost use Rattle.uu_map.specs.Text.{is_name_line, is_named_byte, named_by, before_comment, ends_or_blank};

use uu_names::text::{blanks_len, is_blank, len_before};

/// The line without its comment.
pub(crate) fn before_comment(line: &[u8]) -> &[u8]
    ensures { result.now ≡ before_comment line.now }
{
    let (said, _) = line.split_at(len_before(line, b'#'));
    said
}

/// Whether a line names a host.
pub(crate) fn is_name_line(line: &[u8]) -> bool
    ensures { result ≡ is_name_line line.now }
{
    match line {
        [b'#', b'N'] => true,
        [b'#', b'N', next, ..] => is_blank(*next),
        _ => false,
    }
}

fn is_named_byte(byte: u8) -> bool
    ensures { result ≡ is_named_byte byte }
{
    !(is_blank(byte) || byte == b',')
}

fn named_len(text: &[u8]) -> usize
    ensures value { result ≡ prefix_len is_named_byte text.now }
    ensures bound { result ≤ length text.now }
{
    text.iter().take_while(|byte| is_named_byte(**byte)).count()
}

/// What a name line names.
pub(crate) fn named_by(line: &[u8]) -> &[u8]
    requires { 2 ≤ length line.now }
    ensures { result.now ≡ named_by line.now }
{
    let (_, text) = line.split_at(2);
    let (_, text) = text.split_at(blanks_len(text));
    let (name, _) = text.split_at(named_len(text));
    name
}
