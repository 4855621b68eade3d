//! The token that stands at a place of a text.

ghost use Rattle.std.specs.Prelude.{◌≡◌, ◌≤◌, ◌^◌, length, drop, false};
ghost use Rattle.std.specs.List.{prefix_len};
ghost use Rattle.nest_tokens.specs.Lexing.{is_letter, is_digit, is_name_byte, between, gap, decimal, numbered, named, lexed, below};

use crate::token::{BadToken, LONGEST_NAME, Mark, Name, Token};

/// Whether a name may begin with this byte.
fn is_letter(byte: u8) -> bool
    ensures { result ≡ is_letter byte }
{
    byte == b'_' || (b'a' <= byte && byte <= b'z')
}

fn is_digit(byte: u8) -> bool
    ensures { result ≡ is_digit byte }
{
    b'0' <= byte && byte <= b'9'
}

/// Whether a name may go on with this byte.
fn is_name_byte(byte: u8) -> bool
    ensures { result ≡ is_name_byte byte }
{
    is_letter(byte) || is_digit(byte)
}

/// Between tokens: whether what follows this byte is in a comment. None where a token begins.
#[tactic(auto, unfolding(crate::specs::Lexing::between))]
fn between(comment: bool, byte: u8) -> Option<bool>
    ensures { result ≡ between comment byte }
{
    if comment {
        return Some(byte != b'\n');
    }
    match byte {
        b' ' | b'\t' | b'\n' | b'\r' => Some(false),
        b'#' => Some(true),
        _ => None,
    }
}

/// Where the blanks and comments from here on end.
#[tactic(auto, using(crate::proofs::GapLaws::gaps))]
pub fn gap_end(text: &[u8], from: usize) -> usize
    requires { from ≤ length text.now }
    ensures gap { drop result text.now ≡ gap false (drop from text.now) }
    ensures within { result ≤ length text.now }
    ensures ahead { from ≤ result }
{
    let mut comment = false;
    let mut at = from;
    'bytes: while at < text.len() {
        match between(comment, text[at]) {
            None => return at,
            Some(next) => {
                comment = next;
                at += 1;
            }
        }
    }
    at
}

/// How many bytes from the front on may stand in a name.
fn name_len(text: &[u8]) -> usize
    ensures { result ≡ prefix_len is_name_byte text.now }
{
    text.iter().take_while(|byte| is_name_byte(**byte)).count()
}

/// How many digits stand in front.
fn digits_len(text: &[u8]) -> usize
    ensures { result ≡ prefix_len is_digit text.now }
{
    text.iter().take_while(|byte| is_digit(**byte)).count()
}

/// The value of decimal digits. None where it is no u64.
#[tactic(auto, unfolding(crate::specs::Lexing::decimal), using(crate::proofs::NumberLaws::values))]
fn value_of(digits: &[u8]) -> Option<u64>
    ensures { result ≡ below (2 ^ 64) (decimal digits.now) }
{
    let mut value = 0u64;
    for digit in digits {
        let times_ten = value.checked_mul(10)?;
        value = times_ten.checked_add(u64::from(digit.saturating_sub(b'0')))?;
    }
    Some(value)
}

/// The token of a run of digits.
#[tactic(auto, unfolding(crate::specs::Lexing::numbered))]
fn number(digits: &[u8]) -> Token
    ensures { result ≡ numbered digits.now }
{
    match value_of(digits) {
        Some(value) if value <= i64::MAX as u64 => Token::Number(value),
        _ => Token::Bad(BadToken::Number),
    }
}

/// The token of a run of letters, digits and `_`.
#[tactic(auto, unfolding(crate::specs::Lexing::named))]
fn name(spelled: &[u8]) -> Token
    ensures { result ≡ named spelled.now }
{
    if spelled.len() > LONGEST_NAME {
        return Token::Bad(BadToken::Name);
    }
    match Mark::keyword(spelled) {
        Some(keyword) => Token::Plain(keyword),
        None => {
            let mut bytes = [0; LONGEST_NAME];
            bytes[..spelled.len()].copy_from_slice(spelled);
            Token::Name(Name { bytes })
        }
    }
}

/// The token that a text begins with, and its number of bytes.
#[tactic(auto, unfolding(crate::specs::Lexing::lexed), using(crate::proofs::NameLaws::within))]
pub fn lex(text: &[u8]) -> (Token, usize)
    ensures token { result.0 ≡ (lexed text.now).token }
    ensures len { result.1 ≡ (lexed text.now).len }
    ensures within { result.1 ≤ length text.now }
{
    let Some(first) = text.first().copied() else {
        return (Token::End, 0);
    };
    if is_letter(first) {
        let len = name_len(text);
        return (name(&text[..len]), len);
    }
    if is_digit(first) {
        let len = digits_len(text);
        return (number(&text[..len]), len);
    }
    match Mark::sign(text) {
        Some(sign) => (Token::Plain(sign), sign.spelling().len()),
        None => (Token::Bad(BadToken::Byte), 1),
    }
}
