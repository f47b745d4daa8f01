//! Lines cut into words.

ghost use Rattle.std.specs.Prelude.{◌≡◌, ◌<◌, ◌==◌, length, position, IfSome};
ghost use Rattle.rdm_trace.specs.Reading.{first_word, behind_word};

/// The first word of a line, and what follows the space behind it.
#[tactic(auto, unfolding(crate::specs::Reading::first_word, crate::specs::Reading::behind_word))]
pub(crate) fn first_word(line: &[u8]) -> (&[u8], &[u8])
    ensures word { result.0.now ≡ first_word line.now }
    ensures behind { result.1.now ≡ behind_word line.now }
{
    match word_end(line) {
        Some(end) => (&line[..end], &line[end + 1..]),
        None => (line, &[]),
    }
}

/// Where the first word of a line ends, if a space ends it.
fn word_end(line: &[u8]) -> Option<usize>
    ensures end { result ≡ position (λ b. b == 32) line.now }
    ensures within { IfSome result (λ end. end < length line.now) }
{
    line.iter().position(|b| *b == b' ')
}
