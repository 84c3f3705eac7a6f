//! The longest token at a place of a text.

ghost use Rattle.std.specs.Prelude.{◌≡◌, ◌+◌, ◌<◌, ◌≤◌, [], ◌∷◌, length, drop, MatchOption, option_map};
ghost use Rattle.std.specs.List.{prefix_len};
ghost use Rattle.pop_io.specs.Names.{is_name_byte};
ghost use Rattle.pres_tokens.specs.declared.scan.TheConstants.{PLACE_LIMIT};
ghost use Rattle.pres_tokens.specs.Symbols.{symbol_of, token_of};
ghost use Rattle.pres_tokens.specs.Tokens.{is_blank_byte, digit, byte_symbol, pair_symbol, first_sign, word_symbol};
ghost use Rattle.pres_tokens.specs.Tokens.{first_symbol, tokens_from};

use crate::token::{Kind, Relation, Token};
use pop_io::{begins_name, continues_name};

/// The most bytes of a text: a token's place has 32 bits.
pub const PLACE_LIMIT: usize = u32::MAX as usize;

fn is_blank(byte: u8) -> bool
    ensures { result ≡ is_blank_byte byte }
{
    byte == b' ' || byte == b'\t'
}

fn is_digit(byte: u8) -> bool
    ensures { result ≡ digit byte }
{
    b'0' <= byte && byte <= b'9'
}

// How many letters, digits and `_` the bytes begin with.
fn word_len(bytes: &[u8]) -> usize
    ensures value { result ≡ prefix_len is_name_byte bytes.now }
    ensures within { result ≤ length bytes.now }
{
    bytes
        .iter()
        .take_while(|byte| continues_name(**byte))
        .count()
}

fn digits_len(bytes: &[u8]) -> usize
    ensures value { result ≡ prefix_len digit bytes.now }
    ensures within { result ≤ length bytes.now }
{
    bytes.iter().take_while(|byte| is_digit(**byte)).count()
}

fn pair_kind(first: u8, second: u8) -> Option<Kind<'static>>
    ensures { option_map symbol_of result ≡ pair_symbol first second }
{
    match (first, second) {
        (b'<', b'=') => Some(Kind::Compare(Relation::AtMost)),
        (b'>', b'=') => Some(Kind::Compare(Relation::AtLeast)),
        (b'!', b'=') => Some(Kind::Compare(Relation::Unequal)),
        (b'&', b'&') => Some(Kind::And),
        (b'|', b'|') => Some(Kind::Or),
        _ => None,
    }
}

fn byte_kind(byte: u8) -> Kind<'static>
    ensures { symbol_of result ≡ byte_symbol byte }
{
    match byte {
        b'+' => Kind::Plus,
        b'-' => Kind::Minus,
        b'*' => Kind::Star,
        b'<' => Kind::Compare(Relation::Less),
        b'>' => Kind::Compare(Relation::Greater),
        b'=' => Kind::Compare(Relation::Equal),
        b'!' => Kind::Not,
        b'(' => Kind::Open,
        b')' => Kind::Close,
        _ => Kind::Stray,
    }
}

fn word_kind(word: &[u8]) -> Kind<'_>
    ensures { symbol_of result ≡ word_symbol word.now }
{
    if word == b"mod".as_slice() {
        Kind::Mod
    } else {
        Kind::Name(word)
    }
}

// The longest token that the bytes begin with, and its length.
fn first_kind(bytes: &[u8]) -> (Kind<'_>, usize)
    requires { 0 < length bytes.now }
    ensures value { (symbol_of result.0, result.1) ≡ first_symbol bytes.now }
    ensures some { 0 < result.1 }
    ensures within { result.1 ≤ length bytes.now }
{
    let first = bytes[0];
    if begins_name(first) {
        let len = word_len(bytes);
        (word_kind(&bytes[..len]), len)
    } else if is_digit(first) {
        let len = digits_len(bytes);
        (Kind::Number(&bytes[..len]), len)
    } else {
        signs(bytes)
    }
}

fn signs(bytes: &[u8]) -> (Kind<'_>, usize)
    requires { 0 < length bytes.now }
    ensures { (symbol_of result.0, result.1) ≡ first_sign bytes.now }
{
    if bytes.len() > 1 {
        if let Some(kind) = pair_kind(bytes[0], bytes[1]) {
            return (kind, 2);
        }
    }
    (byte_kind(bytes[0]), 1)
}

/// The next token of a text from the offset `at` on, and where it ends. Skips blanks before it. Allocates nothing.
pub fn next_token(text: &[u8], at: usize) -> Option<(Token<'_>, usize)>
    requires within { at ≤ length text.now }
    requires limit { length text.now ≤ PLACE_LIMIT }
    ensures tokens { MatchOption result (tokens_from 0 at (drop at text.now) ≡ [])
        (λ found. tokens_from 0 at (drop at text.now)
        ≡ token_of found.0 ∷ tokens_from 0 found.1 (drop found.1 text.now)) }
    ensures further { MatchOption result (Unit {0}) (λ found. (at < found.1) × (found.1 ≤ length text.now)) }
{
    let mut start = at;
    while start < text.len() && is_blank(text[start]) {
        start += 1;
    }
    if start == text.len() {
        return None;
    }
    let (kind, len) = first_kind(&text[start..]);
    let token = Token {
        place: start as u32,
        kind,
    };
    Some((token, start + len))
}
