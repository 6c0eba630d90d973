//! Sealed texts: only whoever has the key makes one that opens.
#![tactic(auto)]

mod fault;
mod hashing;
mod key;
pub mod laws;
mod opening;
mod sealing;

pub use fault::SealFault;
pub use hashing::hmac;
pub use key::{Key, KeyFault, keys_in};
pub use opening::open;
pub use sealing::{MAX_PIECE, MAX_SEALED, seal};
