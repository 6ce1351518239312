ghost use Rattle.std.specs.Prelude.{◌≡◌};
ghost use Rattle.text_parts.specs.Lines.{without_return};

/// A line without the carriage return at its end, if it has one.
#[tactic(auto, using(crate::proofs::LineLaws::return_off, crate::proofs::LineLaws::return_kept, crate::proofs::LineLaws::return_none))]
pub fn without_return(line: &[u8]) -> &[u8]
    ensures { result.now ≡ without_return line.now }
{
    match line {
        [text @ .., b'\r'] => text,
        _ => line,
    }
}
