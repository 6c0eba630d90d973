// Keys, and the files that have them.
ghost use Rattle.std.specs.Prelude.{◌≡◌, ◌≢◌, ◌++◌, ◌∷◌, ℕ, List, Ok, length, MatchOption, MatchResult};
ghost use Rattle.hex.specs.Hex.{decode_sized};
ghost use Rattle.uu_seal.specs.Keys.{AreKeys, IsKeyCause};

use hex::FromHex;
use std::alloc::{AllocError, AllocFailed, Global};
use std::marker::Model;
use thiserror::Error;
use uu_names::Listed;

/// A key that two neighbours share: 32 bytes, and seen as these.
#[derive(Clone, Copy)]
pub struct Key {
    bytes: [u8; 32],
}

impl Model for Key {
    ghost Value = { List ℕ };

    ghost view = { λ key. key.bytes };

    ghost invariant = { λ key. length key.bytes ≡ 32 };

    ghost inverse = { λ bytes. record { bytes = bytes } };
}

impl Key {
    /// The key with these bytes.
    pub fn new(bytes: [u8; 32]) -> Key
        ensures { result ≡ bytes }
    {
        Key { bytes }
    }

    pub(crate) fn as_bytes(&self) -> &[u8]
        ensures { result.now ≡ self.now }
    {
        &self.bytes
    }
}

/// Why a text isn't the keys of a file.
#[derive(Clone, Copy, Debug, PartialEq, Eq, Error)]
pub enum KeyFault {
    /// There is no line.
    #[error("no key")]
    NoKey,
    /// A line isn't 64 hex digits, or doesn't end.
    #[error("a line isn't 64 hex digits")]
    BadLine,
    /// Out of memory.
    #[error("out of memory")]
    Memory,
}

impl From<AllocError> for KeyFault {
    ghost use Rattle.std.specs.Prelude.{◌≡◌};
    ghost use Rattle.uu_seal.specs.declared.key.KeyFault.TheVariants.{Memory};

    ghost from_gives = { λ _ fault. fault ≡ Memory };

    fn from(_refused: AllocError) -> KeyFault {
        KeyFault::Memory
    }
}

impl<T: Drop> From<AllocFailed<T>> for KeyFault {
    ghost use Rattle.std.specs.Prelude.{◌≡◌};
    ghost use Rattle.uu_seal.specs.declared.key.KeyFault.TheVariants.{Memory};

    ghost from_gives = { λ _ fault. fault ≡ Memory };

    fn from(_refused: AllocFailed<T>) -> KeyFault {
        KeyFault::Memory
    }
}

// The key with these digits.
fn key_of(digits: &[u8]) -> Option<Key>
    ensures { MatchOption result ((key : List ℕ) → decode_sized digits.now 32 ≢ Ok key) (λ key. decode_sized digits.now 32 ≡ Ok key) }
{
    match <[u8; 32] as FromHex>::from_hex(digits) {
        Ok(bytes) => Some(Key { bytes }),
        Err(_) => None,
    }
}

// The first 64 bytes, and what comes after the line end behind them.
fn cut_line(text: &[u8]) -> Option<(&[u8], &[u8])>
    ensures { MatchOption result
        ((line behind : List ℕ) → length line ≡ 64 → text.now ≢ line ++ 10 ∷ behind)
        (λ cut. (length cut.0.now ≡ 64) × (text.now ≡ cut.0.now ++ 10 ∷ cut.1.now)) }
{
    let (line, rest) = text.split_at_checked(64)?;
    let behind = rest.strip_prefix(b"\n".as_slice())?;
    Some((line, behind))
}

/// The keys in the text of a key file.
///
/// # Errors
/// `NoKey` if the text is empty, `BadLine` if it isn't a line of 64 hex digits for each key, and
/// `Memory`.
pub fn keys_in(alloc: Global, text: &[u8]) -> Result<Listed<Key>, KeyFault>
    ensures { MatchResult result (AreKeys text.now) (IsKeyCause text.now) }
{
    if text.is_empty() {
        return Err(KeyFault::NoKey);
    }
    let mut keys = Vec::new(alloc);
    let mut rest = text;
    while !rest.is_empty() {
        let Some((line, behind)) = cut_line(rest) else {
            return Err(KeyFault::BadLine);
        };
        let Some(key) = key_of(line) else {
            return Err(KeyFault::BadLine);
        };
        keys.push(key)?;
        rest = behind;
    }
    Ok(Listed::from_vec(keys))
}
