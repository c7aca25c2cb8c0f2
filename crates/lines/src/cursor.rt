// What is left of a line while it is read, piece after piece (docs/RULES.md, "Instruction lines").
ghost use Rattle.std.specs.Prelude.{◌+◌, ◌≤◌, length};

// The bytes from a piece's first on, and the column at which they begin, in a line of at most 80 bytes.
#[derive(Clone, Copy, Debug, PartialEq, Eq)]
pub struct Cursor<'a> {
    pub rest: &'a [u8],
    pub column: usize,
    ghost few: { column + length rest.now ≤ 81 },
}
