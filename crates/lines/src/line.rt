// A line read as an instruction, however spoiled it is (docs/RULES.md, "Instruction lines").
ghost use Rattle.std.specs.Prelude.{◌≡◌, ◌≤◌, length, nat_lt};
ghost use Rattle.lines.specs.Token.{mark};
ghost use Rattle.lines.specs.Field.{spot};
ghost use Rattle.lines.specs.Line.{verb_in, counted, fields_at, instruction_of};

use crate::cursor::Cursor;
use crate::field::count_fields;
use crate::instruction::{Instruction, Spoiled};
use crate::token::Token;
use crate::verb::{Verb, read_verb};
use refusal::Refusal;

const MOST_BYTES: usize = 80;

fn is_too_long(line: &[u8]) -> bool
    ensures { result ≡ nat_lt 80 (length line.now) }
{
    line.len() > MOST_BYTES
}

// Whether the line has as many fields as are wanted; `cursor` is at the first of them.
fn check_count(line: &[u8], cursor: Cursor, wanted: usize) -> Result<(), Spoiled>
    requires { length line.now ≤ 80 }
    ensures { result ≡ counted line.now (spot cursor.entry) wanted }
{
    let refusal = Refusal::FieldCount;
    let fields = count_fields(line);
    if fields < wanted {
        let column = line.len() + 1;
        return Err(Spoiled { refusal, column });
    }
    if fields > wanted {
        let column = cursor.column_after(wanted);
        return Err(Spoiled { refusal, column });
    }
    Ok(())
}

// The word at the front of a line. A number or a side letter is none.
fn verb_in(token: Token) -> Result<Verb, Spoiled>
    ensures { result ≡ verb_in (mark token.entry) }
{
    let unknown = Spoiled {
        refusal: Refusal::UnknownWord,
        column: 1,
    };
    match token {
        Token::Word { text, .. } => read_verb(text).ok_or(unknown),
        _ => Err(unknown),
    }
}

// The fields that belong to a word; `cursor` is at the first of them.
fn take_fields(verb: Verb, mut cursor: Cursor) -> Result<Instruction, Spoiled>
    ensures { result ≡ fields_at verb (spot cursor.entry) }
{
    match verb {
        Verb::Found => {
            let [book, rate] = cursor.numbers::<2>()?;
            Ok(Instruction::Found { book, rate })
        }
        Verb::List => {
            let [place, number, base, ratio, fee, delivery, last] = cursor.numbers::<7>()?;
            Ok(Instruction::List {
                place,
                number,
                base,
                ratio,
                fee,
                delivery,
                last,
            })
        }
        Verb::Ratio => {
            let [place, ratio] = cursor.numbers::<2>()?;
            Ok(Instruction::Ratio { place, ratio })
        }
        Verb::Day => Ok(Instruction::Day),
        Verb::In => {
            let [account, fen] = cursor.numbers::<2>()?;
            Ok(Instruction::In { account, fen })
        }
        Verb::Out => {
            let [account, fen] = cursor.numbers::<2>()?;
            Ok(Instruction::Out { account, fen })
        }
        Verb::Quote => {
            let [place, bid, ask] = cursor.numbers::<3>()?;
            Ok(Instruction::Quote { place, bid, ask })
        }
        Verb::Trade => {
            let [place, price, quantity, buyer] = cursor.numbers::<4>()?;
            let buying = cursor.side()?;
            let seller = cursor.number()?;
            let selling = cursor.side()?;
            Ok(Instruction::Trade {
                place,
                price,
                quantity,
                buyer,
                buying,
                seller,
                selling,
            })
        }
        Verb::Deliver => {
            let [place, price] = cursor.numbers::<2>()?;
            Ok(Instruction::Deliver { place, price })
        }
        Verb::End => {
            let rate = cursor.number()?;
            Ok(Instruction::End { rate })
        }
        Verb::Settle => Ok(Instruction::Settle),
    }
}

// The instruction that a line says, or the first thing that is wrong with it.
pub fn read(line: &[u8]) -> Result<Instruction, Spoiled>
    ensures { result ≡ instruction_of line.now }
{
    if is_too_long(line) {
        return Err(Spoiled {
            refusal: Refusal::LineLength,
            column: 1,
        });
    }
    let mut cursor = Cursor {
        rest: line,
        column: 1,
    };
    let verb = verb_in(cursor.token())?;
    check_count(line, cursor, verb.fields())?;
    take_fields(verb, cursor)
}
