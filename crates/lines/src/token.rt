// What a piece of a line is by itself: a number, a side letter, or else a word (docs/RULES.md, "Instruction lines").
ghost use Rattle.std.specs.Prelude.{◌≡◌, ◌+◌, ◌*◌, ◌^◌, ◌≤◌, length};
ghost use Rattle.lines.specs.Token.{digits, sized, padded, number, side, mark, column_of, token_of};

use crate::instruction::Side;

const MOST_DIGITS: usize = 13;

// A piece of a line with its column, counted from 1. The text is borrowed from the line. An enum and no struct round one:
// each case holds all that a piece of its kind has.
#[derive(Clone, Copy, Debug, PartialEq, Eq)]
pub enum Token<'a> {
    Word {
        text: &'a [u8],
        column: usize,
    },
    Number {
        text: &'a [u8],
        value: u64,
        column: usize,
    },
    Letter {
        text: &'a [u8],
        side: Side,
        column: usize,
    },
}

impl Token<'_> {
    pub(crate) fn column(self) -> usize
        ensures { result ≡ column_of (mark self.entry) }
    {
        match self {
            Token::Word { column, .. }
            | Token::Number { column, .. }
            | Token::Letter { column, .. } => column,
        }
    }
}

// Reads on after the digits of `high`, which leave room for those that may come. Digits and letters are read by slice
// patterns, the first byte and the rest.
fn read_digits(text: &[u8], high: u64) -> Option<u64>
    requires { (high + 1) * 10 ^ length text.now ≤ 10 ^ 13 }
    ensures { result ≡ digits high text.now }
{
    match text {
        [] => Some(high),
        [b @ b'0'..=b'9', rest @ ..] => read_digits(rest, high * 10 + (*b - b'0') as u64),
        _ => None,
    }
}

fn is_sized(text: &[u8]) -> bool
    ensures { result ≡ sized text.now }
{
    matches!(text.len(), 1..=MOST_DIGITS)
}

// Whether a zero leads more digits.
fn is_padded(text: &[u8]) -> bool
    ensures { result ≡ padded text.now }
{
    matches!(text, [b'0', _, ..])
}

fn read_number(text: &[u8]) -> Option<u64>
    ensures { result ≡ number text.now }
{
    if !is_sized(text) || is_padded(text) {
        return None;
    }
    read_digits(text, 0)
}

fn read_side(text: &[u8]) -> Option<Side>
    ensures { result ≡ side text.now }
{
    match text {
        [b'o'] => Some(Side::Opens),
        [b'c'] => Some(Side::Closes),
        _ => None,
    }
}

// What a text is by itself, whatever the line asks for at its place.
#[tactic(auto, unfolding(crate::specs::Token::token_of))]
pub fn classify<'a>(text: &'a [u8], column: usize) -> Token<'a>
    ensures { mark result ≡ token_of text.now column }
{
    if let Some(value) = read_number(text) {
        return Token::Number {
            text,
            value,
            column,
        };
    }
    match read_side(text) {
        Some(side) => Token::Letter { text, side, column },
        None => Token::Word { text, column },
    }
}
