// Sealed texts, written.
ghost use Rattle.std.specs.Prelude.{◌≡◌, ◌++◌, ℕ, List, length, IfOk, OnOk};
ghost use Rattle.uu_seal.specs.Texts.{first_line, name_of, piece_text, sealed, tag_of};

use crate::hashing::hmac;
use crate::key::Key;
use std::alloc::{AllocError, Global};
use std::marker::Model;

/// The most bytes of a piece (this project's choice).
pub const MAX_PIECE: usize = 4096;

/// The most bytes of a sealed text that was made of 4,194,304 bytes.
pub const MAX_SEALED: usize = 4_273_224;

/// A tag, or the name of a key: 32 bytes, and seen as these.
#[derive(Clone, Copy)]
pub(crate) struct Tag {
    bytes: [u8; 32],
}

impl Model for Tag {
    ghost Value = { List ℕ };

    ghost view = { λ tag. tag.bytes };

    ghost inverse = { λ bytes. record { bytes = bytes } };
}

// The name of a key.
pub(crate) fn name_of(key: &Key) -> Tag
    ensures { result ≡ name_of key.now }
{
    let bytes = hmac(key.as_bytes(), b"sealed", b"");
    Tag { bytes }
}

// The tag of a piece that comes after this tag, or after this name.
pub(crate) fn tag_of(key: &Key, before: &Tag, piece: &[u8]) -> Tag
    ensures { result ≡ tag_of key.now before.now piece.now }
{
    let bytes = hmac(key.as_bytes(), &before.bytes, piece);
    Tag { bytes }
}

pub(crate) fn first_line(alloc: Global, key: &Key) -> Result<Vec<u8>, AllocError>
    ensures { IfOk result (λ line. line.items ≡ first_line key.now) }
{
    let name = hex::encode(alloc, name_of(key).bytes)?;
    let mut line = Vec::new(alloc);
    line.extend_from_slice(b"sealed ")?;
    line.extend_from_slice(name.as_bytes())?;
    line.push(b'\n')?;
    Ok(line)
}

// Appends a piece with its line.
pub(crate) fn append_piece(
    alloc: Global,
    text: &mut Vec<u8>,
    tag: &Tag,
    piece: &[u8],
) -> Result<(), AllocError>
    ensures { OnOk result (text.new.items ≡ text.old.items ++ piece_text tag.now piece.now) }
{
    let size = piece.len();
    let numeral = format!(in alloc; "{size}")?;
    let digits = hex::encode(alloc, tag.bytes)?;
    text.extend_from_slice(b"piece ")?;
    text.extend_from_slice(numeral.as_bytes())?;
    text.push(b' ')?;
    text.extend_from_slice(digits.as_bytes())?;
    text.push(b'\n')?;
    text.extend_from_slice(piece)?;
    text.push(b'\n')?;
    Ok(())
}

/// Seals the text with the key.
pub fn seal(alloc: Global, key: &Key, text: &[u8]) -> Result<Vec<u8>, AllocError>
    ensures { IfOk result (λ whole. whole.items ≡ sealed key.now text.now) }
{
    let mut whole = first_line(alloc, key)?;
    let mut before = name_of(key);
    let mut rest = text;
    while !rest.is_empty() {
        let (piece, after) = rest.split_at(MAX_PIECE.min(rest.len()));
        before = tag_of(key, &before, piece);
        append_piece(alloc, &mut whole, &before, piece)?;
        rest = after;
    }
    Ok(whole)
}
