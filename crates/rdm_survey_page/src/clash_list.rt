//! What is wrong with slots, in words.

ghost use Rattle.std.specs.Prelude.{◌≡◌, ◌++◌, decimal, max, min, OnOk};
ghost use Rattle.std.specs.List.{flat_map};
ghost use Rattle.rdm_survey.specs.Members.{uid_word};
ghost use Rattle.rdm_survey.specs.declared.place.Clash.TheVariants.{Overlap, PastEnd};
ghost use Rattle.rdm_survey_page.specs.Clashes.{clash_item, clash_list, clash_words, is_in_clash, names, one_words, place_words, several_words, shared_words, sub_words};

use crate::escaping::put_escaped;
use itoa::Buffer;
use rdm_frame::Uid;
use rdm_survey::{Clash, Place};
use std::alloc::{AllocError, Global};

/// An item for each clash, or that there are none.
pub(crate) fn put_clash_list(
    alloc: Global,
    clashes: &[Clash],
    text: &mut Vec<u8>,
) -> Result<(), AllocError>
    ensures { OnOk result (text.new.items ≡ text.old.items ++ clash_list clashes.now) }
{
    if clashes.is_empty() {
        return text.extend_from_slice(b"<p>No clashes.</p>\n");
    }
    text.extend_from_slice(b"<ul>\n")?;
    put_items(alloc, clashes, text)?;
    text.extend_from_slice(b"</ul>\n")
}

/// An item for each clash.
fn put_items(alloc: Global, clashes: &[Clash], text: &mut Vec<u8>) -> Result<(), AllocError>
    ensures { OnOk result (text.new.items ≡ text.old.items ++ flat_map clash_item clashes.now) }
{
    for clash in clashes {
        put_item(alloc, *clash, text)?;
    }
    Ok(())
}

/// The item of a clash.
#[tactic(auto, unfolding(crate::specs::Clashes::clash_item))]
fn put_item(alloc: Global, clash: Clash, text: &mut Vec<u8>) -> Result<(), AllocError>
    ensures { OnOk result (text.new.items ≡ text.old.items ++ clash_item clash) }
{
    let mut words = Vec::new(alloc);
    put_clash(&mut words, clash)?;
    text.extend_from_slice(b"<li>")?;
    put_escaped(text, words.as_slice())?;
    text.extend_from_slice(b"</li>\n")
}

/// Puts the words of a clash at the end of a text: which device goes past slot 512, or which two share which slots. A device is its UID, and
/// behind it the number of a sub-device (E1.20 section 9.1).
pub fn put_clash(text: &mut Vec<u8>, clash: Clash) -> Result<(), AllocError>
    ensures { OnOk result (text.new.items ≡ text.old.items ++ clash_words clash) }
{
    match clash {
        Clash::PastEnd(place) => put_past_end(text, place),
        Clash::Overlap(earlier, later) => put_overlap(text, earlier, later),
    }
}

/// A place that goes past slot 512.
fn put_past_end(text: &mut Vec<u8>, place: Place) -> Result<(), AllocError>
    ensures { OnOk result (text.new.items ≡ text.old.items ++ clash_words (PastEnd place)) }
{
    put_place(text, place)?;
    text.extend_from_slice(b" goes past slot 512")
}

/// Two places that share slots.
fn put_overlap(text: &mut Vec<u8>, earlier: Place, later: Place) -> Result<(), AllocError>
    ensures { OnOk result (text.new.items ≡ text.old.items ++ clash_words (Overlap earlier later)) }
{
    put_place(text, earlier)?;
    text.extend_from_slice(b" and ")?;
    put_place(text, later)?;
    put_shared_by(text, earlier, later)
}

/// Which slots these two share.
fn put_shared_by(text: &mut Vec<u8>, earlier: Place, later: Place) -> Result<(), AllocError>
    ensures { OnOk result (text.new.items
        ≡ text.old.items ++ shared_words (max earlier.first later.first) (min earlier.last later.last)) }
{
    put_shared(
        text,
        first_shared(earlier, later),
        last_shared(earlier, later),
    )
}

/// The first slot that two places share.
fn first_shared(earlier: Place, later: Place) -> u32
    ensures { result ≡ max earlier.first later.first }
{
    u32::from(earlier.first.max(later.first))
}

/// The last slot that two places share.
fn last_shared(earlier: Place, later: Place) -> u32
    ensures { result ≡ min earlier.last later.last }
{
    earlier.last.min(later.last)
}

/// Whose slots they are.
#[tactic(auto, unfolding(crate::specs::Clashes::place_words))]
fn put_place(text: &mut Vec<u8>, place: Place) -> Result<(), AllocError>
    ensures { OnOk result (text.new.items ≡ text.old.items ++ place_words place) }
{
    put_uid(text, place.uid)?;
    put_sub(text, place.sub)
}

/// A UID.
#[tactic(auto, unfolding(rdm_survey::specs::Members::uid_word))]
fn put_uid(text: &mut Vec<u8>, uid: Uid) -> Result<(), AllocError>
    ensures { OnOk result (text.new.items ≡ text.old.items ++ uid_word uid) }
{
    text.extend_from_slice(&uid.text())
}

/// Which sub-device it is; nothing for the root.
fn put_sub(text: &mut Vec<u8>, sub: u16) -> Result<(), AllocError>
    ensures { OnOk result (text.new.items ≡ text.old.items ++ sub_words sub) }
{
    if sub == 0 {
        return Ok(());
    }
    text.extend_from_slice(b" sub-device ")?;
    put_number(text, u32::from(sub))
}

/// Which slots two places share, from the first to the last.
fn put_shared(text: &mut Vec<u8>, first: u32, last: u32) -> Result<(), AllocError>
    ensures { OnOk result (text.new.items ≡ text.old.items ++ shared_words first last) }
{
    if first < last {
        return put_several(text, first, last);
    }
    put_one(text, first)
}

/// Slots that they share.
fn put_several(text: &mut Vec<u8>, first: u32, last: u32) -> Result<(), AllocError>
    ensures { OnOk result (text.new.items ≡ text.old.items ++ several_words first last) }
{
    text.extend_from_slice(b" share slots ")?;
    put_number(text, first)?;
    text.extend_from_slice(b" to ")?;
    put_number(text, last)
}

/// The slot that they share.
fn put_one(text: &mut Vec<u8>, slot: u32) -> Result<(), AllocError>
    ensures { OnOk result (text.new.items ≡ text.old.items ++ one_words slot) }
{
    text.extend_from_slice(b" share slot ")?;
    put_number(text, slot)
}

/// A number in decimal digits.
fn put_number(text: &mut Vec<u8>, number: u32) -> Result<(), AllocError>
    ensures { OnOk result (text.new.items ≡ text.old.items ++ decimal number) }
{
    text.extend_from_slice(Buffer::new().format(number).as_bytes())
}

/// Whether slots of a fixture clash.
#[tactic(auto, unfolding(crate::specs::Clashes::is_in_clash))]
pub(crate) fn is_in_clash(clashes: &[Clash], uid: Uid) -> bool
    ensures { result ≡ is_in_clash clashes.now uid }
{
    clashes.iter().any(|clash| names(uid, *clash))
}

/// Whether a clash is one of slots of this fixture.
fn names(uid: Uid, clash: Clash) -> bool
    ensures { result ≡ names uid clash }
{
    match clash {
        Clash::PastEnd(place) => place.uid == uid,
        Clash::Overlap(earlier, later) => earlier.uid == uid || later.uid == uid,
    }
}
