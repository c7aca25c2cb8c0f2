// The lines worked in docs/RULES.md, "Worked example" and "Instruction lines", and the laws by which the definitions that
// the contracts cite mean what the rules say.
ghost use Rattle.std.specs.Prelude.{◌≡◌, map, length};
ghost use Rattle.lines.specs.Field.{ColumnsArePositions, SpacesPartPieces};
ghost use Rattle.lines.specs.File.{lines_of, FirstLinesAreTheLines};
ghost use Rattle.lines.specs.Line.{instruction_of};
ghost use Rattle.lines.specs.Examples.{examples, file_of};

// How many lines are worked. It promises that each is read as the rules say, and the laws of lines, pieces and columns.
pub fn worked() -> usize
    ensures count { result ≡ length examples }
    ensures read { map instruction_of (lines_of (file_of examples)) ≡ map (λ e. e.1) examples }
    ensures lines { FirstLinesAreTheLines }
    ensures pieces { SpacesPartPieces }
    ensures columns { ColumnsArePositions }
{
    16
}
