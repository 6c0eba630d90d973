//! The keys of jobs that neighbours hand on: the mark of what is handed in.

ghost use Rattle.std.specs.Prelude.{◌≡◌, ℕ, List, ◌∷◌, [], ◌++◌, codes};
ghost use Rattle.sha2.specs.Hashers.{Holds256};
ghost use Rattle.uu_bundle.specs.Marks.{mark_of};
ghost use Rattle.uu_request.specs.Marks.{handed_text, marked_text, spaced_words};
ghost use Rattle.uu_request.specs.Marks as spec;

use sha2::{Digest, Sha256};
use uu_bundle::held_mark;
use uu_core::{Key, Mark};
use uu_line::Origin;
use uu_names::{SiteName, Word};

/// The key of a file that is sent or requested, if the line says whose job it is.
pub(crate) fn file_key(
    once: Option<Origin>,
    subcommand: &str,
    system: &SiteName,
    user: &Word,
    source: &Word,
    target: &Word,
    input: &[u8],
) -> Option<Key>
    ensures { result ≡ spec.key_of once (handed_text subcommand.now system.now user.now (source.now ∷ target.now ∷ []) input.now) }
{
    match once {
        Some(origin) => {
            let mut hasher = begin(&origin.spool, subcommand, system, user);
            add_word(&mut hasher, source.as_str());
            add_word(&mut hasher, target.as_str());
            Some(key_of(origin, end(hasher, input)))
        }
        None => None,
    }
}

/// The key of a command, if the line says whose job it is.
pub(crate) fn execution_key(
    once: Option<Origin>,
    system: &SiteName,
    user: &Word,
    command: &Word,
    arguments: &[Word],
    input: &[u8],
) -> Option<Key>
    ensures { result ≡ spec.key_of once (handed_text (codes "exec") system.now user.now (command.now ∷ arguments.now) input.now) }
{
    match once {
        Some(origin) => {
            let mut hasher = begin(&origin.spool, "exec", system, user);
            add_word(&mut hasher, command.as_str());
            add_words(&mut hasher, arguments);
            Some(key_of(origin, end(hasher, input)))
        }
        None => None,
    }
}

/// The key of a message, if the line says whose job it is: of the message as it is given, because
/// its envelope has the date.
pub(crate) fn message_key(
    once: Option<Origin>,
    system: &SiteName,
    user: &Word,
    rests: &[Word],
    message: &[u8],
) -> Option<Key>
    ensures { result ≡ spec.key_of once (handed_text (codes "mail") system.now user.now rests.now message.now) }
{
    match once {
        Some(origin) => {
            let mut hasher = begin(&origin.spool, "mail", system, user);
            add_words(&mut hasher, rests);
            Some(key_of(origin, end(hasher, message)))
        }
        None => None,
    }
}

// The key of a neighbour's job with this mark.
fn key_of(origin: Origin, mark: Mark) -> Key
    ensures from { result.from ≡ origin.from }
    ensures number { result.number ≡ origin.number }
    ensures mark { result.mark ≡ mark }
{
    let Origin {
        from,
        number,
        spool: _,
    } = origin;
    Key { from, number, mark }
}

// Begins with the line of the neighbour's spool, and then adds the subcommand, the system and the
// user.
fn begin(spool: &Option<Word>, subcommand: &str, system: &SiteName, user: &Word) -> Sha256
    ensures { Holds256 result (marked_text spool.now (subcommand.now ++ spaced_words (system.now ∷ user.now ∷ []))) }
{
    let mut hasher = Sha256::new();
    if let Some(word) = spool {
        hasher.update(word.as_str());
    }
    hasher.update("\n");
    hasher.update(subcommand);
    add_word(&mut hasher, system.as_str());
    add_word(&mut hasher, user.as_str());
    hasher
}

// Adds the word after a space.
fn add_word(hasher: &mut Sha256, word: &str)
    ensures { (text : List ℕ) → Holds256 hasher.old text → Holds256 hasher.new (text ++ 32 ∷ word.now) }
{
    hasher.update(" ");
    hasher.update(word);
}

// Adds the words, each after a space.
fn add_words(hasher: &mut Sha256, words: &[Word])
    ensures { (text : List ℕ) → Holds256 hasher.old text → Holds256 hasher.new (text ++ spaced_words words.now) }
{
    for word in words {
        add_word(hasher, word.as_str());
    }
}

// Ends the line, and adds the input.
fn end(mut hasher: Sha256, input: &[u8]) -> Mark
    ensures { (text : List ℕ) → Holds256 hasher text → result ≡ mark_of (text ++ 10 ∷ input.now) }
{
    hasher.update("\n");
    hasher.update(input);
    held_mark(hasher)
}
