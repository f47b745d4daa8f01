//! What the words of a command say.

ghost use Rattle.std.specs.Prelude.{◌≡◌, ◌≤◌, length, true};
ghost use Rattle.std.specs.List.{list_all};
ghost use Rattle.rdm_script.specs.Grammar.{action_in, destination_in, is_plain, sub_in, sub_named, own_named, pid_by_name, pid_in, bytes_load_in, is_shown, is_quoted, quoted_in, load_in, command_in};

use super::decimals;
use crate::dialect::{Dialect, Spelling};
use rdm_bus::{Action, Command};
use rdm_device::ParameterDef;
use rdm_frame::digits::{bytes_in, word_in};
use rdm_frame::{Load, Uid};
use rdm_params::pid_named;

/// How many digits a sub-device has at most, if it is a decimal number.
const MOST_DIGITS: usize = 3;

/// The command that five words say, to the device of the dialect among others.
#[tactic(auto, unfolding(crate::specs::Grammar::command_in))]
pub(crate) fn command_in(
    dialect: &Dialect<'_>,
    action: &[u8],
    dst: &[u8],
    sub: &[u8],
    pid: &[u8],
    load: &[u8],
) -> Option<Command>
    ensures { result ≡ command_in dialect.now action.now dst.now sub.now pid.now load.now }
{
    Some(Command {
        action: action_in(action)?,
        dst: destination_in(dialect.device, dst)?,
        sub: sub_in(dialect.spelling, sub)?,
        pid: pid_in(dialect.spelling, dialect.own, pid)?,
        load: load_in(dialect.spelling, load)?,
    })
}

/// What a command does.
pub(crate) fn action_in(word: &[u8]) -> Option<Action>
    ensures { result ≡ action_in word.now }
{
    if word == b"get".as_slice() {
        Some(Action::Get)
    } else if word == b"set".as_slice() {
        Some(Action::Set)
    } else if word == b"disc".as_slice() {
        Some(Action::Disc)
    } else {
        None
    }
}

/// Whom a command is for: a name, of which two are of this device, or a UID.
#[tactic(auto, unfolding(crate::specs::Grammar::destination_in))]
pub(crate) fn destination_in(device: Uid, word: &[u8]) -> Option<Uid>
    ensures { result ≡ destination_in device word.now }
{
    if word == b"dev".as_slice() {
        Some(device)
    } else if word == b"all".as_slice() {
        Some(Uid::ALL)
    } else if word == b"maker".as_slice() {
        Some(Uid::all_of(device.maker))
    } else {
        Uid::from_text(word)
    }
}

/// The sub-device that a command is for: four digits, or as a friendly script may say it.
#[tactic(auto, unfolding(crate::specs::Grammar::sub_in))]
pub(crate) fn sub_in(spelling: Spelling, word: &[u8]) -> Option<u16>
    ensures { result ≡ sub_in spelling word.now }
{
    match spelling {
        Spelling::Strict => word_in(word),
        Spelling::Friendly => match word_in(word) {
            Some(sub) => Some(sub),
            None => sub_named(word),
        },
    }
}

/// The root by its name, or a number up to 512 with no zero in front: with one it could be taken for hexadecimal digits of
/// which one is missing.
#[tactic(auto, unfolding(crate::specs::Grammar::sub_named))]
fn sub_named(word: &[u8]) -> Option<u16>
    ensures { result ≡ sub_named word.now }
{
    if word == b"root".as_slice() {
        Some(0)
    } else if is_plain(word) {
        decimals::sub_in(word)
    } else {
        None
    }
}

/// Whether a word has one to three characters, and no zero in front of others.
fn is_plain(word: &[u8]) -> bool
    ensures { result ≡ is_plain word.now }
{
    word.len() <= MOST_DIGITS && !(word.len() > 1 && word[0] == b'0')
}

/// The parameter: four digits, or in a friendly script its name.
#[tactic(auto, unfolding(crate::specs::Grammar::pid_in))]
pub(crate) fn pid_in(spelling: Spelling, own: &[ParameterDef], word: &[u8]) -> Option<u16>
    ensures { result ≡ pid_in spelling own.now word.now }
{
    match spelling {
        Spelling::Strict => word_in(word),
        Spelling::Friendly => match word_in(word) {
            Some(pid) => Some(pid),
            None => pid_by_name(own, word),
        },
    }
}

/// The parameter of this name: in double quotes one of the maker's own, else one of the standard's.
#[tactic(auto, unfolding(crate::specs::Grammar::pid_by_name))]
fn pid_by_name(own: &[ParameterDef], word: &[u8]) -> Option<u16>
    ensures { result ≡ pid_by_name own.now word.now }
{
    if is_quoted(word) {
        own_named(own, &word[1..word.len() - 1])
    } else {
        pid_named(word)
    }
}

/// The first parameter of the maker's own with this name.
fn own_named(own: &[ParameterDef], name: &[u8]) -> Option<u16>
    ensures { result ≡ own_named own.now name.now }
{
    let def = own.iter().find(|def| name == def.name.as_slice())?;
    Some(def.pid)
}

/// The data of a command, which may be a text in a friendly script.
#[tactic(auto, unfolding(crate::specs::Grammar::load_in))]
pub(crate) fn load_in(spelling: Spelling, word: &[u8]) -> Option<Load>
    ensures { result ≡ load_in spelling word.now }
{
    match spelling {
        Spelling::Strict => bytes_load_in(word),
        Spelling::Friendly => match bytes_load_in(word) {
            Some(load) => Some(load),
            None => quoted_in(word),
        },
    }
}

/// The text that stands in double quotes.
#[tactic(auto, unfolding(crate::specs::Grammar::quoted_in))]
fn quoted_in(word: &[u8]) -> Option<Load>
    ensures { result ≡ quoted_in word.now }
{
    if !is_quoted(word) {
        return None;
    }
    let text = &word[1..word.len() - 1];
    if are_shown(text) {
        Load::from_slice(text)
    } else {
        None
    }
}

/// Whether double quotes stand at both ends of a word.
fn is_quoted(word: &[u8]) -> bool
    ensures ends { result ≡ is_quoted word.now }
    ensures long { result ≡ true → 2 ≤ length word.now }
{
    word.len() >= 2 && word[0] == b'"' && word[word.len() - 1] == b'"'
}

/// Whether every character is a printable one of ASCII, and none a double quote.
pub(crate) fn are_shown(text: &[u8]) -> bool
    ensures { result ≡ list_all is_shown text.now }
{
    text.iter().all(|b| (0x20..=0x7E).contains(b) && *b != b'"')
}

/// The data of a command: a hyphen for none, or the digits of at most 255 bytes.
#[tactic(auto, unfolding(crate::specs::Grammar::bytes_load_in))]
fn bytes_load_in(word: &[u8]) -> Option<Load>
    ensures { result ≡ bytes_load_in word.now }
{
    if word == b"-".as_slice() {
        Some(Load::new())
    } else if word.len() <= 510 {
        bytes_in(word)
    } else {
        None
    }
}
