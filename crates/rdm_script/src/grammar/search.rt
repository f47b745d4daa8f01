//! A search of a line that has one fixture alone, as a friendly script says it.

ghost use Rattle.std.specs.Prelude.{◌≡◌, ◌++◌, ◌+◌, ◌≤◌, [], ◌∷◌, length, map};
ghost use Rattle.rdm_frame.specs.FrameText.{uid_slots};
ghost use Rattle.rdm_script.specs.Grammar.{is_find};
ghost use Rattle.rdm_script.specs.Search.{discovery, whole_branch, search_of};

use crate::dialect::Spelling;
use rdm_bus::{Action, Command, Fault};
use rdm_crew::CrewStep;
use rdm_frame::standard::{DISC_MUTE, DISC_UN_MUTE, DISC_UNIQUE_BRANCH, ROOT_DEVICE};
use rdm_frame::{Load, Uid};

/// The least UID.
const LEAST: Uid = Uid {
    maker: 0,
    device: 0,
};

/// Whether words say a search. Those of a strict script never do.
pub(crate) fn is_find(spelling: Spelling, words: &[&[u8]]) -> bool
    ensures { result ≡ is_find spelling (map (λ word. word.now) words.now) }
{
    match spelling {
        Spelling::Strict => false,
        Spelling::Friendly => match words {
            [name] => *name == b"find".as_slice(),
            _ => false,
        },
    }
}

/// Whether a word is the name of a search. A strict script has none.
pub(crate) fn is_find_name(spelling: Spelling, word: &[u8]) -> bool
    ensures { result ≡ is_find spelling (word.now ∷ []) }
{
    is_find(spelling, &[word])
}

/// The steps of a search that finds this device and no other (E1.20 sections 7.5 and 7.6): those that rdm_search sends.
pub(crate) fn search_of(device: Uid) -> [CrewStep; 4]
    ensures { result ≡ search_of device }
{
    [
        discovery(Uid::ALL, DISC_UN_MUTE, Load::new()),
        whole_branch(),
        discovery(device, DISC_MUTE, Load::new()),
        whole_branch(),
    ]
}

/// Who is there, from the least UID to the greatest?
fn whole_branch() -> CrewStep
    ensures { result ≡ whole_branch }
{
    let mut bounds = Load::new();
    put_uid(&mut bounds, LEAST);
    put_uid(&mut bounds, Uid::ALL);
    discovery(Uid::ALL, DISC_UNIQUE_BRANCH, bounds)
}

/// Puts the slots of a UID behind other data.
fn put_uid(load: &mut Load, uid: Uid)
    requires { length load.old + 6 ≤ 255 }
    ensures { load.new ≡ load.old ++ uid_slots uid }
{
    load.append(&uid.maker.to_be_bytes());
    load.append(&uid.device.to_be_bytes());
}

/// A discovery command for the root, with which nothing goes wrong.
fn discovery(dst: Uid, pid: u16, load: Load) -> CrewStep
    ensures { result ≡ discovery dst pid load }
{
    let command = Command {
        dst,
        action: Action::Disc,
        sub: ROOT_DEVICE,
        pid,
        load,
    };
    CrewStep::Ask(command, Fault::None)
}
