//! What a fixture clashes with.

ghost use Rattle.std.specs.Prelude.{◌≡◌, ◌++◌, IfOk, OnOk};
ghost use Rattle.rdm_survey.specs.Members.{other_of, partner_word, partners, place_word, sub_word, uid_word};

use crate::Clash;
use itoa::Buffer;
use rdm_frame::Uid;
use std::alloc::{AllocError, Global};

/// What the slots of a fixture clash with.
#[derive(Clone, Copy)]
pub(crate) enum Partner {
    /// The end of DMX512: they go past slot 512.
    PastEnd,
    /// The slots of the root or of a sub-device.
    Place(Uid, u16),
}

/// What a fixture clashes with, in the order of the clashes.
pub(crate) fn partners(
    alloc: Global,
    uid: Uid,
    clashes: &[Clash],
) -> Result<Vec<Partner>, AllocError>
    ensures { IfOk result (λ list. list.items ≡ partners uid clashes.now) }
{
    let mut list = Vec::new(alloc);
    for clash in clashes {
        put_other(&mut list, uid, *clash)?;
    }
    Ok(list)
}

/// What it clashes with by one clash.
fn put_other(list: &mut Vec<Partner>, uid: Uid, clash: Clash) -> Result<(), AllocError>
    ensures { OnOk result (list.new.items ≡ list.old.items ++ other_of uid clash) }
{
    match clash {
        Clash::PastEnd(place) => {
            if place.uid == uid {
                list.push(Partner::PastEnd)?;
            }
        }
        Clash::Overlap(first, second) => {
            if first.uid == uid {
                list.push(Partner::Place(second.uid, second.sub))?;
            }
            if second.uid == uid {
                list.push(Partner::Place(first.uid, first.sub))?;
            }
        }
    }
    Ok(())
}

/// `past 512`, the UID of a root, or that of a sub-device with a slash and its number behind it.
pub(crate) fn put_partner(text: &mut Vec<u8>, partner: Partner) -> Result<(), AllocError>
    ensures { OnOk result (text.new.items ≡ text.old.items ++ partner_word partner) }
{
    match partner {
        Partner::PastEnd => text.extend_from_slice(b"past 512"),
        Partner::Place(uid, sub) => put_place(text, uid, sub),
    }
}

/// Puts the UID of a fixture at the end of a text, and behind it what the sub-device with a number has: a slash and its number, or nothing
/// for 0, which is the root.
pub fn put_place(text: &mut Vec<u8>, uid: Uid, sub: u16) -> Result<(), AllocError>
    ensures { OnOk result (text.new.items ≡ text.old.items ++ place_word uid sub) }
{
    put_uid(text, uid)?;
    put_sub(text, sub)
}

/// A UID.
#[tactic(auto, unfolding(crate::specs::Members::uid_word))]
pub(crate) fn put_uid(text: &mut Vec<u8>, uid: Uid) -> Result<(), AllocError>
    ensures { OnOk result (text.new.items ≡ text.old.items ++ uid_word uid) }
{
    text.extend_from_slice(&uid.text())
}

/// A slash and the number of a sub-device; nothing for the root.
fn put_sub(text: &mut Vec<u8>, sub: u16) -> Result<(), AllocError>
    ensures { OnOk result (text.new.items ≡ text.old.items ++ sub_word sub) }
{
    if sub == 0 {
        return Ok(());
    }
    text.extend_from_slice(b"/")?;
    text.extend_from_slice(Buffer::new().format(sub).as_bytes())
}
