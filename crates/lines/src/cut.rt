// The one place where bytes are cut in two: a file at byte 10, a line at a space (docs/RULES.md, "Instruction lines").
ghost use Rattle.std.specs.Prelude.{◌≡◌, ◌-◌, ◌≤◌, ◌==◌, length, position};
ghost use Rattle.lines.specs.Cut.{reach, before, past};

fn first_place(bytes: &[u8], stop: u8) -> Option<usize>
    ensures { result ≡ position (λ b. b == stop) bytes.now }
{
    bytes.iter().position(|b| *b == stop)
}

// How many bytes stand before the first `stop`.
#[tactic(auto, using(crate::proofs::Reaches::reaches))]
fn passed_before(bytes: &[u8], stop: u8) -> usize
    ensures exact { result ≡ reach stop bytes.now }
    ensures within { result ≤ length bytes.now }
{
    first_place(bytes, stop).unwrap_or(bytes.len())
}

// The bytes before the first `stop`, and those after it.
pub(crate) fn cut<'a>(bytes: &'a [u8], stop: u8) -> (&'a [u8], &'a [u8])
    ensures front { result.0.now ≡ before stop bytes.now }
    ensures back { result.1.now ≡ past stop bytes.now }
    ensures less { length result.1.now ≤ length bytes.now - 1 }
{
    let (front, back) = bytes.split_at(passed_before(bytes, stop));
    match back {
        [] => (front, back),
        [_, rest @ ..] => (front, rest),
    }
}
