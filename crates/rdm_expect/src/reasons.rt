//! The names of the reasons of a NACK.

ghost use Rattle.std.specs.Prelude.{◌≡◌, find, map, option_map};
ghost use Rattle.std.specs.Str.{bytes_eq};
ghost use Rattle.rdm_expect.specs.Reasons.{reasons, code_in, bare, reason_in};

use rdm_frame::digits::word_in;

/// The reasons of E1.20 table A-17: the code and the name, which the table writes with `NR_` in front.
pub(crate) const REASONS: &[(u16, &str)] = &[
    (0x0000, "UNKNOWN_PID"),
    (0x0001, "FORMAT_ERROR"),
    (0x0002, "HARDWARE_FAULT"),
    (0x0003, "PROXY_REJECT"),
    (0x0004, "WRITE_PROTECT"),
    (0x0005, "UNSUPPORTED_COMMAND_CLASS"),
    (0x0006, "DATA_OUT_OF_RANGE"),
    (0x0007, "BUFFER_FULL"),
    (0x0008, "PACKET_SIZE_UNSUPPORTED"),
    (0x0009, "SUB_DEVICE_OUT_OF_RANGE"),
    (0x000A, "PROXY_BUFFER_FULL"),
];

/// The code of the reason that a word says: by its name, or by the four digits of its code.
#[tactic(auto, unfolding(crate::specs::Reasons::reason_in))]
pub(crate) fn reason_in(word: &[u8]) -> Option<u16>
    ensures { result ≡ reason_in word.now }
{
    match named(bare(word)) {
        Some(code) => Some(code),
        None => word_in(word),
    }
}

/// A name without the `NR_` in front of it, if it has that.
fn bare(name: &[u8]) -> &[u8]
    ensures { result.now ≡ bare name.now }
{
    let front = name.len().min(3);
    if &name[..front] == b"NR_".as_slice() {
        &name[front..]
    } else {
        name
    }
}

/// The code of the reason with this name.
fn named(name: &[u8]) -> Option<u16>
    ensures { result ≡ code_in reasons name.now }
{
    code_in(REASONS, name)
}

/// The code that stands beside a name in these rows.
fn code_in(rows: &'static [(u16, &'static str)], name: &[u8]) -> Option<u16>
    ensures { result ≡ code_in (map (λ row. (row.0, row.1.now)) rows.now) name.now }
{
    match row_named(rows, name) {
        Some(row) => Some(row.0),
        None => None,
    }
}

/// The first row with this name.
fn row_named(
    rows: &'static [(u16, &'static str)],
    name: &[u8],
) -> Option<&'static (u16, &'static str)>
    ensures { option_map (λ row. row.now) result ≡ find (λ row. bytes_eq name.now row.1.now) rows.now }
{
    rows.iter().find(|row| name == row.1.as_bytes())
}
