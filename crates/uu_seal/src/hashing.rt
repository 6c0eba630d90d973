// HMAC-SHA256.
ghost use Rattle.std.specs.Prelude.{◌≡◌, ◌++◌, ◌-◌, ◌≤◌, length, replicate};
ghost use Rattle.uu_seal.specs.Hmac.{hmac, key_block, xored};

use sha2::{Digest, Sha256};

// The bytes, with zeros up to a block.
fn filled(bytes: &[u8]) -> [u8; 64]
    requires { length bytes.now ≤ 64 }
    ensures { result ≡ bytes.now ++ replicate (64 - length bytes.now) 0 }
{
    let mut block = [0; 64];
    let (front, _) = block.split_at_mut(bytes.len());
    front.copy_from_slice(bytes);
    block
}

// The key, or its digest if it is longer than a block, with zeros up to a block.
fn key_block(key: &[u8]) -> [u8; 64]
    ensures { result ≡ key_block key.now }
{
    if key.len() > 64 {
        return filled(&Sha256::digest(key));
    }
    filled(key)
}

fn xored(byte: u8, block: &[u8; 64]) -> [u8; 64]
    ensures { result ≡ xored byte block.now }
{
    let mut changed = *block;
    for i in 0..64 {
        changed[i] = block[i] ^ byte;
    }
    changed
}

/// The HMAC-SHA256 of two texts, one after the other.
pub fn hmac(key: &[u8], front: &[u8], rest: &[u8]) -> [u8; 32]
    ensures { result ≡ hmac key.now (front.now ++ rest.now) }
{
    let block = key_block(key);
    let mut inner = Sha256::new();
    inner.update(xored(0x36, &block));
    inner.update(front);
    inner.update(rest);
    let mut outer = Sha256::new();
    outer.update(xored(0x5C, &block));
    outer.update(inner.finalize());
    outer.finalize()
}
