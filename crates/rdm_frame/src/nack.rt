//! Why a command is rejected.

ghost use Rattle.std.specs.Prelude.{◌≡◌, option_map};
ghost use Rattle.rdm_frame.specs.Nacks.{nack_code, reason_name};
ghost use Rattle.rdm_frame.specs.Names.{for_c};

/// The reason of a NACK (E1.20 section 6.3.4 and table A-17).
#[derive(Clone, Copy, Debug, PartialEq, Eq)]
pub enum Nack {
    /// The addressed device has no such parameter.
    UnknownPid,
    /// The parameter data doesn't have the length of the command.
    FormatError,
    /// The parameter has no such command.
    UnsupportedCommandClass,
    /// The parameter data isn't in the range of the command.
    DataOutOfRange,
    /// The value can only be read now.
    WriteProtect,
    /// There is no room for the command now.
    BufferFull,
    /// There is no such sub-device, or the command can't be given to all sub-devices at once.
    SubDeviceOutOfRange,
}

impl Nack {
    /// The code of the reason, from table A-17.
    pub fn code(self) -> u16
        ensures { result ≡ nack_code self }
    {
        match self {
            Nack::UnknownPid => 0,
            Nack::FormatError => 1,
            Nack::UnsupportedCommandClass => 5,
            Nack::DataOutOfRange => 6,
            Nack::WriteProtect => 4,
            Nack::BufferFull => 7,
            Nack::SubDeviceOutOfRange => 9,
        }
    }
}

/// The reasons of table A-17, a row each: the code and the words.
macro_rules! reason_rows {
    ($use:ident!($argument:ident)) => {
        $use! {
            ($argument)
            (0 "unknown PID")
            (1 "format error")
            (2 "hardware fault")
            (3 "proxy reject")
            (4 "write protect")
            (5 "unsupported command class")
            (6 "data out of range")
            (7 "buffer full")
            (8 "packet size unsupported")
            (9 "sub-device out of range")
            (10 "proxy buffer full")
        }
    };
}

macro_rules! words {
    (($code:ident) $(($number:literal $text:literal))*) => {
        match $code {
            $($number => Some($text),)*
            _ => None,
        }
    };
}

macro_rules! words_for_c {
    (($code:ident) $(($number:literal $text:literal))*) => {
        match $code {
            $($number => Some(concat!($text, "\0").as_bytes()),)*
            _ => None,
        }
    };
}

/// The reason of this code in words, such as `data out of range`, or `None` if table A-17 has none: also those that no responder
/// here gives.
pub fn reason_name(code: u16) -> Option<&'static str>
    ensures { option_map (λ text. text.now) result ≡ reason_name code }
{
    reason_rows!(words!(code))
}

/// The same words and a NUL behind them, as C wants a text.
pub fn reason_name_for_c(code: u16) -> Option<&'static [u8]>
    ensures { option_map (λ text. text.now) result ≡ option_map for_c (reason_name code) }
{
    reason_rows!(words_for_c!(code))
}
