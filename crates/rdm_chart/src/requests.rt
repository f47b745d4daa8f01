//! How many requests a trace has, before its lines are read.

ghost use Rattle.std.specs.Prelude.{◌≡◌, ◌≤◌, length};
ghost use Rattle.rdm_trace.specs.Traces.{pieces_of};
ghost use Rattle.rdm_chart.specs.Requests.{begins_request, one_of, request_count};

use rdm_streams::line_end;

/// How many lines of a text begin as a request does.
pub(crate) fn request_count(trace: &[u8]) -> usize
    ensures { result ≡ request_count (pieces_of trace.now) }
{
    let mut count = 0;
    let mut rest = trace;
    while let Some(end) = line_end(rest) {
        count += one_of(&rest[..end]);
        rest = &rest[end + 1..];
    }
    count + one_of(rest)
}

/// Whether a line begins as a request does: 1, or else 0.
fn one_of(line: &[u8]) -> usize
    ensures count { result ≡ one_of line.now }
    ensures within { result ≤ 1 }
{
    if begins_request(line) { 1 } else { 0 }
}

/// Whether a line begins as a request does.
#[tactic(auto, unfolding(crate::specs::Requests::begins_request))]
fn begins_request(line: &[u8]) -> bool
    ensures { result ≡ begins_request line.now }
{
    &line[..line.len().min(5)] == b"send ".as_slice()
}
