//! What a device is made with.

ghost use Rattle.std.specs.Prelude.{◌≡◌, ◌≢◌, ◌+◌, ◌≤◌, ◌↔◌, ℕ, min, Some, None, IfOk, IfErr, IfSome, IsTrue, AllPairs, length, [], ◌∷◌, codes};
ghost use Rattle.std.specs.Result.{result_ok};
ghost use Rattle.toml.specs.Data.{get_member};
ghost use Rattle.toml.specs.View.{view, array_view, table_view};
ghost use Rattle.rdm_fixture_keys.specs.Faults.{fault, in_entry, told};
ghost use Rattle.rdm_fixture.specs.FirstWrong as parts;
ghost use Rattle.rdm_fixture.specs.Drafts.{profile_with};
ghost use Rattle.rdm_fixture_keys.specs.Entries.{IsSlot, IsSelfTest, IsStatus, slot_parts, self_test_parts, status_parts};
ghost use Rattle.rdm_fixture.specs.Format.{IsProfile, LanguagesAt, slot_count};
ghost use Rattle.rdm_fixture_keys.specs.Keys.{Reads, may};
ghost use Rattle.rdm_fixture.specs.Lists.{OfTable, EachIs, Lists, entries};
ghost use Rattle.rdm_fixture.specs.OwnSlots.{AreModes, modes_part};
ghost use Rattle.rdm_fixture_keys.specs.Values as says;
ghost use Rattle.rdm_fixture_keys.specs.Wrong.{FirstWrong, free_number};
ghost use Rattle.rdm_fixture_keys.specs.declared.refusal.Wanted.TheVariants as wanted;

mod added;
mod locks;

use crate::estimates::estimates;
use crate::lists::list;
use crate::modes::behind;
use crate::muting::mute_reply;
use crate::unit::{sub_devices, unit};
use crate::workers::workers;
pub(crate) use added::Added;
use added::{additions, without};
use arrayvec::ArrayVec;
use rdm_device::{Estimates, Modes, MuteReply, Particulars, Profile, SelfTest, Slot, StatusText};
use rdm_fixture_keys::keys::{find, flag_or, number_or, text_or_none};
use rdm_fixture_keys::{Refusal, Wanted};
use toml::value::Array;
use toml::{Table, Value};

/// What sets a fixture apart, before there is memory for it.
#[derive(Drop)]
pub(crate) struct Apart {
    pub(crate) added: Added,
    pub(crate) without: ArrayVec<u16, 36>,
    pub(crate) more_slots: u16,
    pub(crate) estimates: Estimates,
    pub(crate) mute_reply: MuteReply,
    pub(crate) newest_only: bool,
    pub(crate) modes: Modes,
}

/// The profile of a table, of which only the keys of a profile are looked at. What sets it apart, and takes memory, stands beside it. Its
/// modes were read before, or refused.
pub(crate) fn profile(
    table: &Table,
    modes: Result<Modes, Refusal>,
) -> Result<(Profile, Apart), Refusal>
    requires modes { Reads AreModes (table_view table.now) modes }
    requires refusal { IfErr modes (λ e. modes_part.Wrong (table_view table.now) (told e)) }
    ensures read { Reads (λ t r. IsProfile t (profile_with r.0 r.1)) (table_view table.now) result }
    ensures wrong { IfErr result (λ e. FirstWrong parts.profile_parts (table_view table.now) (told e)) }
{
    let boot = number_or(table, "boot_software_version_id", 0, 0, 0xFFFF_FFFF)?;
    let boot_text = text_or_none(table, "boot_software_version_label")?;
    let languages = languages(table)?;
    let presets = number_or(table, "presets", 0, 0, 65534)? as u16;
    let more_slots = more_slots(table)?;
    let slots = slots(table)?;
    let count = root_slots(slots.len(), more_slots);
    let root = unit(table, count)?;
    let (subs, sub) = sub_devices(table, count)?;
    let sensors = list(table, "sensor", 0, 0)?;
    let tests = self_tests(table)?;
    let status_texts = status_texts(table)?;
    let without = without(table)?;
    let added = additions(table)?;
    let estimates = estimates(table)?;
    let workers = workers(table)?;
    let mute_reply = mute_reply(table)?;
    let newest_only = flag_or(table, "newest_only", false)?;
    let modes = behind(root.personalities.len(), modes)?;
    let profile = Profile {
        root,
        sub,
        subs,
        presets,
        workers,
        boot,
        boot_text,
        languages,
        slots,
        sensors,
        tests,
        status_texts,
        particulars: Particulars::usual(),
    };
    let apart = Apart {
        added,
        without,
        more_slots,
        estimates,
        mute_reply,
        newest_only,
        modes,
    };
    Ok((profile, apart))
}

/// How many slots the root uses besides those that are described.
fn more_slots(table: &Table) -> Result<u16, Refusal>
    ensures value { result_ok result ≡ may 0 (says.number 0 512) (get_member (codes "more_slots") (table_view table.now)) }
    ensures within { IfOk result (λ n. n ≤ 512) }
    ensures wrong { IfErr result (λ e. (free_number (codes "more_slots") 0 512).Wrong (table_view table.now) (told e)) }
{
    match number_or(table, "more_slots", 0, 0, 512) {
        Ok(more) => Ok(more as u16),
        Err(refusal) => Err(refusal),
    }
}

/// How many slots the root can use: those that are described, and so many more, of the 512 that there are.
fn root_slots(described: usize, more: u16) -> u16
    requires few { described ≤ 46 }
    requires more { more ≤ 512 }
    ensures { result ≡ min 512 (described + more) }
{
    (described as u16 + more).min(512)
}

fn slots(table: &Table) -> Result<ArrayVec<Slot, 46>, Refusal>
    ensures read { Reads (λ t xs. Lists t (codes "slot") (OfTable IsSlot) 0 46 xs.items) (table_view table.now) result }
    ensures count { IfOk result (λ xs. length xs.items ≡ slot_count (get_member (codes "slot") (table_view table.now))) }
    ensures wrong { IfErr result (λ e. (entries (codes "slot") IsSlot (FirstWrong slot_parts) 0 46).Wrong (table_view table.now) (told e)) }
{
    list(table, "slot", 0, 0)
}

/// The languages, of which there is one at least.
fn languages(table: &Table) -> Result<ArrayVec<u16, 8>, Refusal>
    ensures read { Reads (λ t xs. LanguagesAt (get_member (codes "languages") t) xs.items) (table_view table.now) result }
    ensures wrong { IfErr result (λ e. parts.WrongLanguages (get_member (codes "languages") (table_view table.now)) (told e)) }
{
    let Some(value) = find(table, "languages") else {
        let mut english = ArrayVec::new();
        english.push(u16::from_be_bytes(*b"en"));
        return Ok(english);
    };
    let Value::Array(codes) = value else {
        return Err(Refusal::at("languages", Wanted::List { least: 1, most: 8 }));
    };
    if codes.is_empty() || codes.len() > 8 {
        return Err(Refusal::at("languages", Wanted::List { least: 1, most: 8 }));
    }
    languages_of(codes)
}

fn languages_of(list: &Array) -> Result<ArrayVec<u16, 8>, Refusal>
    requires { length list.now.items ≤ 8 }
    ensures read { Reads (λ ds xs. EachIs (λ d x. says.language d ≡ Some x) ds xs.items) (array_view list.now) result }
    ensures wrong { IfErr result (λ e. told e ≡ fault (codes "languages") wanted.Language) }
{
    let mut languages = ArrayVec::new();
    for code in list {
        let Some(language) = language_of(code) else {
            return Err(Refusal::at("languages", Wanted::Language));
        };
        languages.push(language);
    }
    Ok(languages)
}

fn language_of(code: &Value) -> Option<u16>
    ensures { result ≡ says.language (view code.now) }
{
    let Value::String(text) = code else {
        return None;
    };
    match text.as_bytes() {
        [a, b] if a.is_ascii_lowercase() && b.is_ascii_lowercase() => {
            Some(u16::from_be_bytes([*a, *b]))
        }
        _ => None,
    }
}

/// The self tests, of which no two have one number.
fn self_tests(table: &Table) -> Result<ArrayVec<SelfTest, 8>, Refusal>
    ensures read { Reads (λ t xs. Lists t (codes "self_test") (OfTable IsSelfTest) 0 8 xs.items
        × AllPairs (λ a b. a.number ≢ b.number) xs.items) (table_view table.now) result }
    ensures wrong { IfErr result (λ e. FirstWrong (entries (codes "self_test") IsSelfTest (FirstWrong self_test_parts) 0 8
        ∷ parts.differing (codes "self_test") (codes "number") IsSelfTest (λ a. a.number) ∷ []) (table_view table.now) (told e)) }
{
    let tests = list(table, "self_test", 0, 0)?;
    match test_again(tests.as_slice()) {
        None => Ok(tests),
        Some(again) => Err(Refusal::at("number", Wanted::Other).in_entry("self_test", again + 1)),
    }
}

/// The first test that has the number of an earlier one, if there is one.
fn test_again(tests: &[SelfTest]) -> Option<usize>
    ensures none { (result ≡ None) ↔ AllPairs (λ a b. a.number ≢ b.number) tests.now }
    ensures first { IfSome result (λ n. parts.IsFirstAgain (λ a. a.number) tests.now n) }
{
    for n in 0..tests.len() {
        for i in 0..n {
            if tests[i].number == tests[n].number {
                return Some(n);
            }
        }
    }
    None
}

/// The status IDs, of which no two are alike.
fn status_texts(table: &Table) -> Result<ArrayVec<StatusText, 8>, Refusal>
    ensures read { Reads (λ t xs. Lists t (codes "status") (OfTable IsStatus) 0 8 xs.items
        × AllPairs (λ a b. a.id ≢ b.id) xs.items) (table_view table.now) result }
    ensures wrong { IfErr result (λ e. FirstWrong (entries (codes "status") IsStatus (FirstWrong status_parts) 0 8
        ∷ parts.differing (codes "status") (codes "id") IsStatus (λ a. a.id) ∷ []) (table_view table.now) (told e)) }
{
    let texts = list(table, "status", 0, 0)?;
    match status_again(texts.as_slice()) {
        None => Ok(texts),
        Some(again) => Err(Refusal::at("id", Wanted::Other).in_entry("status", again + 1)),
    }
}

/// The first status ID that is an earlier one again, if there is one.
fn status_again(texts: &[StatusText]) -> Option<usize>
    ensures none { (result ≡ None) ↔ AllPairs (λ a b. a.id ≢ b.id) texts.now }
    ensures first { IfSome result (λ n. parts.IsFirstAgain (λ a. a.id) texts.now n) }
{
    for n in 0..texts.len() {
        for i in 0..n {
            if texts[i].id == texts[n].id {
                return Some(n);
            }
        }
    }
    None
}
