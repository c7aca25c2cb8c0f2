// The eleven words that may begin a line, and how many fields follow each (docs/RULES.md, "Instruction lines").
ghost use Rattle.std.specs.Prelude.{◌≡◌};
ghost use Rattle.lines.specs.Verb.{verb_of, fields_of};

#[derive(Clone, Copy, Debug, PartialEq, Eq)]
pub enum Verb {
    Found,
    List,
    Ratio,
    Day,
    In,
    Out,
    Quote,
    Trade,
    Deliver,
    End,
    Settle,
}

pub fn read_verb(text: &[u8]) -> Option<Verb>
    ensures { result ≡ verb_of text.now }
{
    match text {
        b"found" => Some(Verb::Found),
        b"list" => Some(Verb::List),
        b"ratio" => Some(Verb::Ratio),
        b"day" => Some(Verb::Day),
        b"in" => Some(Verb::In),
        b"out" => Some(Verb::Out),
        b"quote" => Some(Verb::Quote),
        b"trade" => Some(Verb::Trade),
        b"deliver" => Some(Verb::Deliver),
        b"end" => Some(Verb::End),
        b"settle" => Some(Verb::Settle),
        _ => None,
    }
}

impl Verb {
    pub fn fields(self) -> usize
        ensures { result ≡ fields_of self }
    {
        match self {
            Verb::Day | Verb::Settle => 0,
            Verb::End => 1,
            Verb::Found | Verb::Ratio | Verb::In | Verb::Out | Verb::Deliver => 2,
            Verb::Quote => 3,
            Verb::List | Verb::Trade => 7,
        }
    }
}
