// What an expression is made of.
ghost use Rattle.std.specs.Prelude.{◌≡◌, ◌<◌, ◌≤◌, ◌∷◌, [], length, pos, MatchOption, IfSome};
ghost use Rattle.std.specs.List.{prefix_len};
ghost use Rattle.std.specs.Char.{is_ascii_digit, is_ascii_uppercase};
ghost use Rattle.uu_map.specs.Expression.{kept};
ghost use Rattle.uu_map.specs.Token.{words, symbol_token, decimal, sign_token, word_token, tokens};
ghost use Rattle.uu_map.specs.Internal.Cutting.{word_len};

use uu_names::text::blanks_len;

/// An operator between terms, or a sign.
#[derive(Clone, Copy)]
pub(crate) enum Additive {
    Plus,
    Minus,
}

/// An operator between factors.
#[derive(Clone, Copy)]
pub(crate) enum Multiplicative {
    Times,
    Over,
}

/// The least part of an expression.
#[derive(Clone, Copy)]
pub(crate) enum Token {
    /// A number, or a symbol that means one; `None` if the number exceeds the limit.
    Amount(Option<i64>),
    /// The symbol `DEAD`.
    Dead,
    Open,
    Close,
    Additive(Additive),
    Multiplicative(Multiplicative),
    /// Anything that no expression contains.
    Other,
}

/// The greatest value within an expression.
pub(crate) const LIMIT: u64 = 1_000_000_000_000;

fn digits_len(text: &[u8]) -> usize
    ensures value { result ≡ prefix_len is_ascii_digit text.now }
    ensures bound { result ≤ length text.now }
{
    text.iter().take_while(|byte| byte.is_ascii_digit()).count()
}

fn capitals_len(text: &[u8]) -> usize
    ensures value { result ≡ prefix_len is_ascii_uppercase text.now }
    ensures bound { result ≤ length text.now }
{
    text.iter()
        .take_while(|byte| byte.is_ascii_uppercase())
        .count()
}

// The number that the digits say, or `None` if it exceeds the limit.
fn number(digits: &[u8]) -> Option<i64>
    ensures { result ≡ kept (pos (decimal digits.now)) }
{
    let mut number: u64 = 0;
    for digit in digits {
        number = (10 * number + u64::from(digit.saturating_sub(b'0'))).min(LIMIT + 1);
    }
    if number > LIMIT {
        None
    } else {
        Some(number as i64)
    }
}

fn symbol(name: &[u8]) -> Token
    ensures { result ≡ symbol_token name.now }
{
    if name == b"DEAD".as_slice() {
        Token::Dead
    } else if name == b"LOCAL".as_slice() {
        Token::Amount(Some(25))
    } else if name == b"DEDICATED".as_slice() {
        Token::Amount(Some(95))
    } else if name == b"DIRECT".as_slice() {
        Token::Amount(Some(200))
    } else if name == b"DEMAND".as_slice() {
        Token::Amount(Some(300))
    } else if name == b"HOURLY".as_slice() {
        Token::Amount(Some(500))
    } else if name == b"EVENING".as_slice() {
        Token::Amount(Some(1800))
    } else if name == b"DAILY".as_slice() {
        Token::Amount(Some(5000))
    } else if name == b"WEEKLY".as_slice() {
        Token::Amount(Some(30000))
    } else if name == b"HIGH".as_slice() {
        Token::Amount(Some(-5))
    } else if name == b"LOW".as_slice() {
        Token::Amount(Some(5))
    } else if name == b"FAST".as_slice() {
        Token::Amount(Some(-80))
    } else if name == b"POLLED".as_slice() {
        Token::Amount(Some(5000))
    } else {
        Token::Other
    }
}

fn sign(byte: u8) -> Token
    ensures { result ≡ sign_token byte }
{
    match byte {
        b'(' => Token::Open,
        b')' => Token::Close,
        b'+' => Token::Additive(Additive::Plus),
        b'-' => Token::Additive(Additive::Minus),
        b'*' => Token::Multiplicative(Multiplicative::Times),
        b'/' => Token::Multiplicative(Multiplicative::Over),
        _ => Token::Other,
    }
}

fn word_token(word: &[u8]) -> Token
    ensures { result ≡ word_token word.now }
{
    match word {
        [] => Token::Other,
        [first, ..] if first.is_ascii_digit() => Token::Amount(number(word)),
        [first, ..] if first.is_ascii_uppercase() => symbol(word),
        [first, ..] => sign(*first),
    }
}

// The length of the word that a text begins with.
fn word_len(text: &[u8]) -> usize
    ensures value { result ≡ word_len text.now }
    ensures some { 0 < length text.now → 0 < result }
    ensures bound { result ≤ length text.now }
{
    match text {
        [] => 0,
        [first, ..] if first.is_ascii_digit() => digits_len(text),
        [first, ..] if first.is_ascii_uppercase() => capitals_len(text),
        _ => 1,
    }
}

/// The first token of a text, and the text after it.
pub(crate) fn next_token(text: &[u8]) -> Option<(Token, &[u8])>
    ensures value { MatchOption result (tokens text.now ≡ [])
        (λ found. tokens text.now ≡ found.0 ∷ tokens found.1.now) }
    ensures shorter { IfSome result (λ found. length found.1.now < length text.now) }
{
    let (_, text) = text.split_at(blanks_len(text));
    if text.is_empty() {
        return None;
    }
    let (word, rest) = text.split_at(word_len(text));
    Some((word_token(word), rest))
}
