// How a line is parted: every space parts two pieces, the word and the fields (docs/RULES.md, "Instruction lines").
// A cursor goes from piece to piece.
ghost use Rattle.std.specs.Prelude.{◌≡◌, OnOk};
ghost use Rattle.lines.specs.Token.{mark, column_of};
ghost use Rattle.lines.specs.Field.{spot, ahead, next, token_at, number_at, numbers_at, side_at, spaces};

use crate::cursor::Cursor;
use crate::cut::cut;
use crate::instruction::{Side, Spoiled};
use crate::token::{Token, classify};
use refusal::Refusal;

// Each space begins a field, be it empty.
pub(crate) fn count_fields(line: &[u8]) -> usize
    ensures { result ≡ spaces line.now }
{
    line.iter().filter(|b| **b == b' ').count()
}

// A field of another kind than the line asks for.
fn bad_field(token: Token) -> Spoiled
    ensures { result ≡ record { refusal = Refusal.BadField; column = column_of (mark token.entry) } }
{
    Spoiled {
        refusal: Refusal::BadField,
        column: token.column(),
    }
}

impl<'a> Cursor<'a> {
    // The piece at the cursor, which is left behind with the space after it.
    pub(crate) fn token(&mut self) -> Token<'a>
        ensures value { mark result ≡ token_at (spot self.old) }
        ensures moved { spot self.new ≡ next (spot self.old) }
    {
        let column = self.column;
        let (text, after) = cut(self.rest, b' ');
        self.column += self.rest.len() - after.len();
        self.rest = after;
        classify(text, column)
    }

    // Beside `side`: the two differ in the case that they take, and a closure would have to name that case too.
    pub(crate) fn number(&mut self) -> Result<u64, Spoiled>
        ensures value { result ≡ number_at 0 (spot self.old) }
        ensures moved { spot self.new ≡ next (spot self.old) }
    {
        match self.token() {
            Token::Number { value, .. } => Ok(value),
            other => Err(bad_field(other)),
        }
    }

    // The next N numbers, or what is wrong with the first that is none.
    pub(crate) fn numbers<const N: usize>(&mut self) -> Result<[u64; N], Spoiled>
        ensures value { result ≡ numbers_at N (spot self.old) }
        ensures moved { OnOk result (spot self.new ≡ ahead N (spot self.old)) }
    {
        let mut numbers = [0; N];
        for number in &mut numbers {
            *number = self.number()?;
        }
        Ok(numbers)
    }

    pub(crate) fn side(&mut self) -> Result<Side, Spoiled>
        ensures value { result ≡ side_at 0 (spot self.old) }
        ensures moved { spot self.new ≡ next (spot self.old) }
    {
        match self.token() {
            Token::Letter { side, .. } => Ok(side),
            other => Err(bad_field(other)),
        }
    }

    // The column of the piece that follows `pieces` more. The loop only repeats: it counts no index.
    pub(crate) fn column_after(mut self, pieces: usize) -> usize
        ensures { result ≡ (ahead pieces (spot self.entry)).column }
    {
        for _piece in 0..pieces {
            let _ = self.token();
        }
        self.column
    }
}
