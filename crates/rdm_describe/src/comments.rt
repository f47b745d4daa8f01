//! What is written of a fixture that answered.

ghost use Rattle.std.specs.Prelude.{◌≡◌, ◌↔◌, ◌++◌, map, Err, IfOk, OnOk, decimal};
ghost use Rattle.std.specs.List.{flat_map};
ghost use Rattle.rdm_fixture.specs.Describable.{CanBeDescribed};
ghost use Rattle.rdm_describe.specs.Answers.{about_of as way_of};
ghost use Rattle.rdm_describe.specs.Comments as spec;
ghost use Rattle.rdm_describe.specs.Drafts.{shown};
ghost use Rattle.rdm_describe.specs.Texts.{printed};
ghost use Rattle.toml.specs.Parse.{skip_bom};

use crate::answers::{About, Answer, Question, about_of, data_of, slot_at};
use crate::describing::Description;
use crate::notes::Note;
use crate::own::PARAMETER_DESCRIPTION;
use crate::scenes::{PRESET_STATUS, scene};
use crate::texts::{behind, printed};
use crate::units::info;
use itoa::Buffer;
use rdm_fixture::WriteError;
use rdm_frame::Uid;
use rdm_frame::digits::put_digits;
use rdm_table::parameter_name;
use std::alloc::{AllocError, Global};

/// Why a fixture wasn't written.
#[derive(Clone, Copy, Debug, PartialEq, Eq, thiserror::Error)]
pub enum DescribeError {
    /// Out of memory for its text.
    #[error("out of memory")]
    OutOfMemory,
    /// No file can describe it.
    #[error("no file can describe the fixture")]
    Indescribable,
}

/// The text of a fixture's file, with its notes as comments before it.
pub fn put_description(
    alloc: Global,
    answers: &[Answer],
    description: &Description,
) -> Result<Vec<u8>, DescribeError>
    ensures ok { IfOk result (λ text. spec.IsFileOf description.now.fixture.uid answers.now description.now.notes.items description.now.fixture text.items) }
    ensures indescribable { (result ≡ Err DescribeError.Indescribable) ↔ ¬ CanBeDescribed description.now.fixture }
{
    let file = match description.fixture.to_toml(alloc) {
        Ok(file) => file,
        Err(WriteError::Indescribable) => return Err(DescribeError::Indescribable),
        Err(WriteError::OutOfMemory) => return Err(DescribeError::OutOfMemory),
    };
    match with_comments(alloc, answers, description, file.as_bytes()) {
        Ok(text) => Ok(text),
        Err(_) => Err(DescribeError::OutOfMemory),
    }
}

/// The comments, and this behind them.
fn with_comments(
    alloc: Global,
    answers: &[Answer],
    description: &Description,
    file: &[u8],
) -> Result<Vec<u8>, AllocError>
    ensures { IfOk result (λ text. text.items ≡ spec.comments description.now.fixture.uid answers.now description.now.notes.items ++ skip_bom file.now) }
{
    let mut text = Vec::new(alloc);
    put_heading(alloc, description.fixture.uid, &mut text)?;
    put_notes(alloc, answers, description.notes.as_slice(), &mut text)?;
    text.extend_from_slice(without_mark(file))?;
    Ok(text)
}

/// A text without a byte order mark, which can stand only where nothing is before it.
#[tactic(auto, unfolding(toml::specs::Parse::skip_bom))]
fn without_mark(text: &[u8]) -> &[u8]
    ensures { result.now ≡ skip_bom text.now }
{
    if slot_at(text, 0) == 0xEF && slot_at(text, 1) == 0xBB && slot_at(text, 2) == 0xBF {
        behind(text, 3)
    } else {
        text
    }
}

// ---- comments

/// A comment with these words.
fn put_comment(words: &[u8], text: &mut Vec<u8>) -> Result<(), AllocError>
    ensures { OnOk result (text.new.items ≡ text.old.items ++ spec.comment words.now) }
{
    text.extend_from_slice(b"# ")?;
    put_printed(words, text)?;
    text.extend_from_slice(b"\n")
}

/// Characters, of which those that aren't printable are question marks.
fn put_printed(words: &[u8], text: &mut Vec<u8>) -> Result<(), AllocError>
    ensures { OnOk result (text.new.items ≡ text.old.items ++ map printed words.now) }
{
    for word in words {
        text.push(printed(*word))?;
    }
    Ok(())
}

fn put_heading(alloc: Global, uid: Uid, text: &mut Vec<u8>) -> Result<(), AllocError>
    ensures { OnOk result (text.new.items ≡ text.old.items ++ spec.heading uid) }
{
    put_first_line(alloc, uid, text)?;
    put_comment(
        b"how jobs end (outcome), who has them (workers), how long SETs take (estimates), what lock states lock (lock), what",
        text,
    )?;
    put_comment(
        b"FACTORY_DEFAULTS resets, how many presets there are without PRESET_INFO, self tests above 32, status IDs above 0x801F,",
        text,
    )?;
    put_comment(
        b"what DISC_MUTE tells (binding_uid, boot_loader, proxied_device), whether newer messages replace older ones (newest_only).",
        text,
    )
}

/// Whose answers these are.
fn put_first_line(alloc: Global, uid: Uid, text: &mut Vec<u8>) -> Result<(), AllocError>
    ensures { OnOk result (text.new.items ≡ text.old.items ++ spec.comment (spec.heading_words uid)) }
{
    let mut words = Vec::new(alloc);
    put_heading_words(uid, &mut words)?;
    put_comment(words.as_slice(), text)
}

fn put_heading_words(uid: Uid, words: &mut Vec<u8>) -> Result<(), AllocError>
    ensures { OnOk result (words.new.items ≡ words.old.items ++ spec.heading_words uid) }
{
    words.extend_from_slice(b"What ")?;
    words.extend_from_slice(&uid.text())?;
    words.extend_from_slice(
        b" answered on a line. No answer tells these, which can be written here by hand:",
    )
}

fn put_notes(
    alloc: Global,
    answers: &[Answer],
    notes: &[Note],
    text: &mut Vec<u8>,
) -> Result<(), AllocError>
    ensures { OnOk result (text.new.items ≡ text.old.items ++ flat_map (λ note. spec.comment (spec.note_words answers.now note)) notes.now) }
{
    for note in notes {
        put_note(alloc, answers, note, text)?;
    }
    Ok(())
}

fn put_note(
    alloc: Global,
    answers: &[Answer],
    note: &Note,
    text: &mut Vec<u8>,
) -> Result<(), AllocError>
    ensures { OnOk result (text.new.items ≡ text.old.items ++ spec.comment (spec.note_words answers.now note.now)) }
{
    let mut words = Vec::new(alloc);
    put_note_words(answers, note, &mut words)?;
    put_comment(words.as_slice(), text)
}

// ---- words

fn put_note_words(answers: &[Answer], note: &Note, words: &mut Vec<u8>) -> Result<(), AllocError>
    ensures { OnOk result (words.new.items ≡ words.old.items ++ spec.note_words answers.now note.now) }
{
    match note {
        Note::Unread(question) => put_unread_words(*question, words),
        Note::Altered(question) => put_altered_words(answers, *question, words),
        Note::Cut { pid, told, kept } => put_cut_words(*pid, *told, *kept, words),
        Note::Unsayable(pid) => put_unsayable_words(answers, *pid, words),
        Note::OtherScene(number) => put_scene_words(answers, *number, words),
        Note::Kept(pid) => {
            put_name(*pid, words)?;
            words.extend_from_slice(b" isn't a parameter of the fixture, but is one here")
        }
        Note::Differs(sub) => put_different_words(answers, *sub, words),
        Note::InPersonality(number) => put_personality_words(*number, words),
    }
}

fn put_unread_words(question: Question, words: &mut Vec<u8>) -> Result<(), AllocError>
    ensures { OnOk result (words.new.items ≡ words.old.items ++ spec.unread_words question) }
{
    put_question(question, words)?;
    words.extend_from_slice(b" wasn't answered")
}

fn put_personality_words(number: u8, words: &mut Vec<u8>) -> Result<(), AllocError>
    ensures { OnOk result (words.new.items ≡ words.old.items ++ spec.personality_words number) }
{
    words.extend_from_slice(b"the fixture has personality ")?;
    put_number(number as usize, words)?;
    words.extend_from_slice(b" now, and starts with 1 here")
}

fn put_altered_words(
    answers: &[Answer],
    question: Question,
    words: &mut Vec<u8>,
) -> Result<(), AllocError>
    ensures { OnOk result (words.new.items ≡ words.old.items ++ spec.altered_words answers.now question) }
{
    put_question(question, words)?;
    words.extend_from_slice(
        b" isn't a text of at most 32 printable characters, and is another one here; it told ",
    )?;
    let Question { sub, pid, about } = question;
    put_told(data_of(answers, sub, pid, about), words)
}

fn put_cut_words(pid: u16, told: usize, kept: usize, words: &mut Vec<u8>) -> Result<(), AllocError>
    ensures { OnOk result (words.new.items ≡ words.old.items ++ spec.cut_words pid told kept) }
{
    put_name(pid, words)?;
    words.extend_from_slice(b": the fixture has ")?;
    put_number(told, words)?;
    words.extend_from_slice(b", of which the first are here: ")?;
    put_number(kept, words)
}

fn put_unsayable_words(answers: &[Answer], pid: u16, words: &mut Vec<u8>) -> Result<(), AllocError>
    ensures { OnOk result (words.new.items ≡ words.old.items ++ spec.unsayable_words answers.now pid) }
{
    put_name(pid, words)?;
    words.extend_from_slice(b" is a parameter of the fixture that isn't here. It told ")?;
    put_shown(answers, pid, words)?;
    words.extend_from_slice(b", and PARAMETER_DESCRIPTION ")?;
    put_told(data_of(answers, 0, PARAMETER_DESCRIPTION, pid), words)
}

/// What the fixture answered to the GET of a parameter.
fn put_shown(answers: &[Answer], pid: u16, words: &mut Vec<u8>) -> Result<(), AllocError>
    ensures { OnOk result (words.new.items ≡ words.old.items ++ spec.told (shown answers.now pid)) }
{
    put_told(data_of(answers, 0, pid, 0), words)
}

fn put_scene_words(answers: &[Answer], number: u16, words: &mut Vec<u8>) -> Result<(), AllocError>
    ensures { OnOk result (words.new.items ≡ words.old.items ++ spec.scene_words answers.now number) }
{
    put_name(PRESET_STATUS, words)?;
    words.extend_from_slice(b": scene ")?;
    put_number(number as usize, words)?;
    words.extend_from_slice(b" starts without what it told: ")?;
    put_told(scene(answers, number), words)
}

fn put_different_words(answers: &[Answer], sub: u16, words: &mut Vec<u8>) -> Result<(), AllocError>
    ensures { OnOk result (words.new.items ≡ words.old.items ++ spec.different_words answers.now sub) }
{
    put_place(sub, words)?;
    words.extend_from_slice(
        b"it is another device than sub-device 1, as which it is here, and told ",
    )?;
    put_told(info(answers, sub), words)
}

/// The sub-device, the parameter, and what it is asked about.
fn put_question(question: Question, words: &mut Vec<u8>) -> Result<(), AllocError>
    ensures { OnOk result (words.new.items ≡ words.old.items ++ spec.question_words question) }
{
    put_place(question.sub, words)?;
    put_name(question.pid, words)?;
    put_about(question.pid, question.about, words)
}

fn put_about(pid: u16, number: u16, words: &mut Vec<u8>) -> Result<(), AllocError>
    ensures { OnOk result (words.new.items ≡ words.old.items ++ spec.number_of (way_of pid) number) }
{
    match about_of(pid) {
        About::Nothing => Ok(()),
        About::Byte => {
            words.extend_from_slice(b" ")?;
            put_number(number as usize, words)
        }
        About::Word => {
            words.extend_from_slice(b" ")?;
            put_hex(number, words)
        }
    }
}

fn put_place(sub: u16, words: &mut Vec<u8>) -> Result<(), AllocError>
    ensures { OnOk result (words.new.items ≡ words.old.items ++ spec.place_of sub) }
{
    if sub == 0 {
        return Ok(());
    }
    put_sub(sub, words)
}

fn put_sub(sub: u16, words: &mut Vec<u8>) -> Result<(), AllocError>
    ensures { OnOk result (words.new.items ≡ words.old.items ++ spec.sub_words sub) }
{
    words.extend_from_slice(b"sub-device ")?;
    put_number(sub as usize, words)?;
    words.extend_from_slice(b": ")
}

fn put_name(pid: u16, words: &mut Vec<u8>) -> Result<(), AllocError>
    ensures { OnOk result (words.new.items ≡ words.old.items ++ spec.name_of pid) }
{
    match parameter_name(pid) {
        Some(name) => words.extend_from_slice(name.as_bytes()),
        None => put_hex(pid, words),
    }
}

fn put_hex(number: u16, words: &mut Vec<u8>) -> Result<(), AllocError>
    ensures { OnOk result (words.new.items ≡ words.old.items ++ spec.hex number) }
{
    words.extend_from_slice(b"0x")?;
    put_digits(words, &number.to_be_bytes())
}

fn put_number(number: usize, words: &mut Vec<u8>) -> Result<(), AllocError>
    ensures { OnOk result (words.new.items ≡ words.old.items ++ decimal number) }
{
    words.extend_from_slice(Buffer::new().format(number).as_bytes())
}

/// Data in hexadecimal digits.
fn put_told(slots: &[u8], words: &mut Vec<u8>) -> Result<(), AllocError>
    ensures { OnOk result (words.new.items ≡ words.old.items ++ spec.told slots.now) }
{
    if slots.is_empty() {
        return words.extend_from_slice(b"nothing");
    }
    put_digits(words, slots)
}
