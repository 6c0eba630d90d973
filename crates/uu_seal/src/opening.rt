// Sealed texts, opened.
ghost use Rattle.std.specs.Prelude.{◌≡◌, ◌↔◌, IsTrue, ◌++◌, ◌∷◌, ◌<◌, ◌^◌, ℕ, List, Some, IfOk, IfSome, MatchOption, MatchResult, length, option_map};
ghost use Rattle.std.specs.Fmt.{decimal};
ghost use Rattle.uu_seal.specs.Internal.Forms.{IsSomeOf};
ghost use Rattle.uu_seal.specs.Opening.{AreOpened, BeginsOtherwise, IsCause, IsOpened, joined};
ghost use Rattle.uu_seal.specs.Texts.{IsPiece, name_of, piece_text};

use crate::fault::SealFault;
use crate::key::Key;
use crate::sealing::{MAX_PIECE, Tag, append_piece, first_line, name_of, tag_of};
use std::alloc::{AllocError, Global};
use uu_names::text::len_before;

// The digits before the first space, and the number that they are.
fn size_in(line: &[u8]) -> Option<(usize, usize)>
    ensures { (size : ℕ) (behind : List ℕ) → size < 2 ^ 32 → line.now ≡ decimal size ++ 32 ∷ behind → result ≡ Some (length (decimal size), size) }
{
    let digits = len_before(line, b' ');
    let (numeral, _) = line.split_at(digits);
    let Ok(numeral) = str::from_utf8(numeral) else {
        return None;
    };
    match numeral.parse::<u32>() {
        Ok(size) => Some((digits, size as usize)),
        Err(_) => None,
    }
}

// The bytes of the piece that the first line describes, whatever its tag is.
fn piece_in(text: &[u8]) -> Option<&[u8]>
    ensures sound { IfSome result (λ piece. IsPiece piece.now) }
    ensures found { (tag piece behind : List ℕ) → IsPiece piece → length tag ≡ 32 → text.now ≡ piece_text tag piece ++ behind → IsSomeOf piece (option_map (λ found. found.now) result) }
{
    let line = text.strip_prefix(b"piece ".as_slice())?;
    let (digits, size) = size_in(line)?;
    if size < 1 || MAX_PIECE < size {
        return None;
    }
    let (_, tag) = line.split_at_checked(digits)?;
    let (_, behind) = tag.split_at_checked(66)?;
    let (piece, _) = behind.split_at_checked(size)?;
    Some(piece)
}

// Whether these are the same bytes. The time that it takes doesn't tell where they differ.
fn same_bytes(one: &[u8], other: &[u8]) -> bool
    ensures { IsTrue result ↔ (one.now ≡ other.now) }
{
    if one.len() != other.len() {
        return false;
    }
    let mut differ = 0;
    for i in 0..one.len() {
        differ |= u8::from(one[i] != other[i]);
    }
    differ == 0
}

// The text after this piece with this tag, if it begins with them.
fn behind_piece<'a>(
    alloc: Global,
    tag: &Tag,
    piece: &[u8],
    text: &'a [u8],
) -> Result<Option<&'a [u8]>, AllocError>
    ensures { IfOk result (λ cut. MatchOption cut (BeginsOtherwise (piece_text tag.now piece.now) text.now) (λ rest. text.now ≡ piece_text tag.now piece.now ++ rest.now)) }
{
    let mut whole = Vec::new(alloc);
    append_piece(alloc, &mut whole, tag, piece)?;
    let Some((front, rest)) = text.split_at_checked(whole.len()) else {
        return Ok(None);
    };
    if !same_bytes(front, whole.as_slice()) {
        return Ok(None);
    }
    Ok(Some(rest))
}

// The bytes of the pieces that come after the first line.
fn open_pieces(alloc: Global, key: &Key, text: &[u8]) -> Result<Vec<u8>, AllocError>
    ensures { IfOk result (λ opened. (pieces : List (List ℕ)) × AreOpened key.now (name_of key.now) text.now pieces × (opened.items ≡ joined pieces)) }
{
    let mut opened = Vec::new(alloc);
    let mut before = name_of(key);
    let mut rest = text;
    while let Some(piece) = piece_in(rest) {
        let tag = tag_of(key, &before, piece);
        let Some(after) = behind_piece(alloc, &tag, piece, rest)? else {
            return Ok(opened);
        };
        opened.extend_from_slice(piece)?;
        before = tag;
        rest = after;
    }
    Ok(opened)
}

/// Opens the text with the first of the keys whose name it has. If a piece is cut off, or its tag
/// is wrong, the pieces before it are opened.
///
/// # Errors
/// `NotSealed` if the text doesn't begin as a sealed one, `WrongKey` if it has the name of no key,
/// and `Memory`.
pub fn open(alloc: Global, keys: &[Key], text: &[u8]) -> Result<Vec<u8>, SealFault>
    ensures { MatchResult result (λ opened. IsOpened keys.now text.now opened.items) (IsCause keys.now text.now) }
{
    if text.strip_prefix(b"sealed ".as_slice()).is_none() {
        return Err(SealFault::NotSealed);
    }
    for key in keys {
        let line = first_line(alloc, key)?;
        if let Some(behind) = text.strip_prefix(line.as_slice()) {
            return Ok(open_pieces(alloc, key, behind)?);
        }
    }
    Err(SealFault::WrongKey)
}
