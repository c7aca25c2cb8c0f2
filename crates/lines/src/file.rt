// A file cut into its lines (docs/RULES.md, "Instruction lines").
ghost use Rattle.std.specs.Prelude.{◌≡◌, ◌<◌, length, MatchOption};
ghost use Rattle.std.specs.Iterator.{YieldsFirstRef, item_count};
ghost use Rattle.lines.specs.File.{first_line, lines_of, opened, texts};

use crate::cut::cut;

// The first line of a file and what follows it, or none in an empty file.
#[tactic(auto, using(crate::proofs::Openings::lines_cut))]
pub fn first_line<'a>(file: &'a [u8]) -> Option<(&'a [u8], &'a [u8])>
    ensures value { texts result ≡ first_line file.now }
    ensures lines { lines_of file.now ≡ opened (texts result) }
    ensures shorter { MatchOption result (length file.now ≡ 0) (λ p. length p.1.now < length file.now) }
{
    if file.is_empty() {
        None
    } else {
        Some(cut(file, b'\n'))
    }
}

// The lines of the bytes that are left of a file, from the first on.
#[derive(Clone, Debug, Drop)]
pub struct Lines<'a>(pub &'a [u8]);

impl<'a> Iterator for Lines<'a> {
    type Item = &'a [u8];

    ghost next_gives = { YieldsFirstRef (λ l. lines_of l.0.now) };

    ghost remaining = { item_count (λ l. lines_of l.0.now) };

    fn next(&mut self) -> Option<&'a [u8]> {
        let (line, rest) = first_line(self.0)?;
        self.0 = rest;
        Some(line)
    }
}
