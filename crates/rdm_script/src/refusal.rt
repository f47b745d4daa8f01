//! What is told of a faulty line of a friendly script: its first word that isn't what it has to be.

ghost use Rattle.std.specs.Prelude.{◌≡◌, ◌+◌, ◌^◌, ◌<◌, ◌≤◌, length, take};

use arrayvec::ArrayVec;
use std::fmt;

/// How many bytes of a word a message shows at most.
const MOST_SHOWN: usize = 40;

/// A word as a message shows it: its first 40 bytes.
pub type Excerpt = ArrayVec<u8, MOST_SHOWN>;

/// What a word should have been.
#[derive(Clone, Copy, Debug, PartialEq, Eq)]
pub enum Wanted {
    /// The name of a step.
    Step,
    /// Another step: a setup stands before all others.
    SetupFirst,
    /// Whom a command is for.
    Destination,
    /// A sub-device.
    SubDevice,
    /// A parameter.
    Parameter,
    /// A parameter, which may be one of the maker's own, by its name in double quotes.
    AnyParameter,
    /// A parameter, and not one of the maker's own by its name: no such name is known.
    StandardParameter,
    /// The data of a command.
    Load,
    /// The double quote that ends a text.
    QuoteEnd,
    /// A text of printable ASCII characters.
    Printable,
    /// Data of at most 255 bytes.
    ShorterLoad,
    /// What goes wrong with a transaction.
    Fault,
    /// A slot.
    Slot,
    /// By how much a slot is raised.
    Raise,
    /// How many times nothing may be found.
    Empties,
    /// How many sub-devices there are.
    SubDevices,
    /// For how many results of slow commands there is room.
    Room,
    /// Which status entries the controller wants.
    Messages,
    /// The end of the line.
    End,
}

impl Wanted {
    /// What is told of a word that isn't what was wanted.
    fn complaint(self) -> &'static str {
        match self {
            Wanted::Step => "isn't a valid step",
            Wanted::SetupFirst => "comes too late",
            Wanted::Destination => "isn't a valid destination",
            Wanted::SubDevice => "isn't a valid sub-device",
            Wanted::Parameter | Wanted::AnyParameter | Wanted::StandardParameter => {
                "isn't a valid parameter"
            }
            Wanted::Load => "isn't valid data",
            Wanted::QuoteEnd => "isn't closed",
            Wanted::Printable => "isn't valid text",
            Wanted::ShorterLoad => "is too long",
            Wanted::Fault => "isn't a valid fault",
            Wanted::Slot => "isn't a valid slot",
            Wanted::Raise => "isn't a valid raise",
            Wanted::Empties => "isn't a valid count",
            Wanted::SubDevices => "isn't a valid number of sub-devices",
            Wanted::Room => "isn't a valid number of results",
            Wanted::Messages => "isn't a valid status type",
            Wanted::End => "is one word too many",
        }
    }

    /// What was wanted.
    fn words(self) -> &'static str {
        match self {
            Wanted::Step => {
                // The lines `expect` of a script are taken out before its steps are read.
                "setup, get, set, disc, find, collect, draw, settle, panel or expect"
            }
            Wanted::SetupFirst => "it before all other steps",
            Wanted::Destination => "dev, all, maker, or a UID such as 7FF0:00000001",
            Wanted::SubDevice => "4 hexadecimal digits, root, or 0 to 512",
            Wanted::Parameter => "4 hexadecimal digits, or a name in E1.20 such as DEVICE_INFO",
            Wanted::AnyParameter => {
                "4 hexadecimal digits, a name in E1.20 such as DEVICE_INFO, or a name of the maker's own in double quotes"
            }
            Wanted::StandardParameter => {
                "4 hexadecimal digits, or a name in E1.20 such as DEVICE_INFO; a name in double quotes is a maker's own, and none is known"
            }
            Wanted::Load => "-, two hexadecimal digits for each byte, or a text in double quotes",
            Wanted::QuoteEnd => "a double quote at the end of the text",
            Wanted::Printable => "printable ASCII characters in double quotes",
            Wanted::ShorterLoad => "at most 255 bytes",
            Wanted::Fault => "lost-request, lost-reply, bad-request or bad-reply",
            Wanted::Slot => "0 to 255",
            Wanted::Raise => "1 to 255",
            Wanted::Empties => "0 to 4294967295",
            Wanted::SubDevices | Wanted::Room => "0 to 65535",
            Wanted::Messages => "advisory, warning or error",
            Wanted::End => "the end of the line",
        }
    }
}

/// The first word of a script that isn't what it has to be. Its text is `LINE:COLUMN: WORD isn't a valid ..: expected ..`.
#[derive(Debug, Drop, PartialEq, Eq)]
pub struct Refusal {
    /// The line, from 1.
    pub line: usize,
    /// The column at which the word begins, in bytes from 1. If a word is missing, it is the end of the line.
    pub column: usize,
    /// The word, or nothing if it is missing.
    pub word: Excerpt,
    /// What was wanted there.
    pub wanted: Wanted,
}

impl Refusal {
    /// At the word of a line that begins at this byte, or at the end of the line, if it is missing.
    pub(crate) fn at(line: usize, at: usize, word: &[u8], wanted: Wanted) -> Refusal
        ensures line { result.line ≡ line }
        ensures column { at < 2 ^ 63 → result.column ≡ at + 1 }
        ensures word { result.word.items ≡ take 40 word.now }
    {
        Refusal {
            line,
            column: at.saturating_add(1),
            word: excerpt_of(word),
            wanted,
        }
    }

    /// What is told of it without its place, as `WORD isn't a valid ..: expected ..`: for words that stand in no file.
    pub fn reason(&self) -> Reason<'_> {
        Reason { refusal: self }
    }
}

/// What is told of a word, without its place.
#[derive(Clone, Copy, Debug)]
pub struct Reason<'a> {
    refusal: &'a Refusal,
}

/// As much of a word as is shown.
fn excerpt_of(word: &[u8]) -> Excerpt
    ensures { result.items ≡ take 40 word.now }
{
    let mut excerpt = Excerpt::new();
    let _ = excerpt.try_extend_from_slice(front_of(word));
    excerpt
}

/// The first bytes of a word, as many as are shown at most.
fn front_of(word: &[u8]) -> &[u8]
    ensures value { result.now ≡ take 40 word.now }
    ensures fits { length result.now ≤ 40 }
{
    &word[..word.len().min(MOST_SHOWN)]
}

impl fmt::Display for Refusal {
    fn fmt<W: fmt::Write>(&self, f: &mut fmt::Formatter<W>) -> fmt::Result {
        let Refusal { line, column, .. } = self;
        let reason = self.reason();
        write!(f, "{line}:{column}: {reason}")
    }
}

impl fmt::Display for Reason<'_> {
    fn fmt<W: fmt::Write>(&self, f: &mut fmt::Formatter<W>) -> fmt::Result {
        let wanted = self.refusal.wanted.words();
        if self.refusal.word.is_empty() {
            return write!(f, "a word is missing: expected {wanted}");
        }
        f.write_str("\"")?;
        for byte in without_quotes(self.refusal.word.as_slice()) {
            write_shown(f, *byte)?;
        }
        let complaint = self.refusal.wanted.complaint();
        write!(f, "\" {complaint}: expected {wanted}")
    }
}

/// A word without the double quotes that a text has, since a message shows each word in double quotes. A text that isn't closed, or isn't
/// shown to its end, has but the first of them.
fn without_quotes(word: &[u8]) -> &[u8] {
    match word {
        [b'"', text @ .., b'"'] => text,
        [b'"', text @ ..] => text,
        _ => word,
    }
}

/// Writes a byte of a word: as it is if it is printable ASCII, else by its number. A double quote and a backslash are escaped.
fn write_shown<W: fmt::Write>(f: &mut fmt::Formatter<W>, byte: u8) -> fmt::Result {
    match byte {
        b'"' => f.write_str("\\\""),
        b'\\' => f.write_str("\\\\"),
        0x20..=0x7E => f.write_char(char::from(byte)),
        _ => write!(f, "\\x{byte:02X}"),
    }
}
