//! The lines of a text.

ghost use Rattle.std.specs.Prelude.{◌≡◌, ◌<◌, ◌==◌, length, position, IfSome};
ghost use Rattle.std.specs.Str.Lines.{strip_carriage_return as without_return};

/// Where the first line ends, counted from 0: the index of the first LF, if there is one.
pub fn line_end(text: &[u8]) -> Option<usize>
    ensures end { result ≡ position (λ b. b == 10) text.now }
    ensures within { IfSome result (λ end. end < length text.now) }
{
    text.iter().position(|b| *b == b'\n')
}

/// A line without the carriage return at its end, if it has one.
pub fn without_return(line: &[u8]) -> &[u8]
    ensures front { result.now ≡ without_return line.now }
{
    match line {
        [front @ .., b'\r'] => front,
        _ => line,
    }
}
