//! What a fixture tells when it is muted.

ghost use Rattle.std.specs.Prelude.{◌≡◌, false, None, IfErr, codes};
ghost use Rattle.toml.specs.Data.{get_member};
ghost use Rattle.toml.specs.View.{table_view};
ghost use Rattle.rdm_fixture_keys.specs.Faults.{told};
ghost use Rattle.rdm_fixture.specs.FirstWrong.{muting_parts};
ghost use Rattle.rdm_fixture.specs.Format.{IsMuteReply};
ghost use Rattle.rdm_fixture_keys.specs.Keys.{may, Reads};
ghost use Rattle.rdm_fixture_keys.specs.Values.{flag as says_flag, only_uid};
ghost use Rattle.rdm_fixture_keys.specs.Wrong.{FirstWrong};

use rdm_device::MuteReply;
use rdm_fixture_keys::keys::{find, flag_in, uid_in};
use rdm_fixture_keys::{Refusal, Wanted};
use rdm_frame::Uid;
use toml::Table;

/// What the answers to DISC_MUTE and DISC_UN_MUTE tell of the fixture. A binding UID is that of a port, not a broadcast.
pub(crate) fn mute_reply(table: &Table) -> Result<MuteReply, Refusal>
    ensures read { Reads IsMuteReply (table_view table.now) result }
    ensures wrong { IfErr result (λ e. FirstWrong muting_parts (table_view table.now) (told e)) }
{
    let Some(binding) = binding(table) else {
        return Err(Refusal::at("binding_uid", Wanted::Uid));
    };
    let Some(boot_loader) = flag(table, "boot_loader") else {
        return Err(Refusal::at("boot_loader", Wanted::Boolean));
    };
    let Some(proxied_device) = flag(table, "proxied_device") else {
        return Err(Refusal::at("proxied_device", Wanted::Boolean));
    };
    Ok(MuteReply {
        proxied_device,
        boot_loader,
        binding,
    })
}

/// The binding UID, of which there is none without its key.
fn binding(table: &Table) -> Option<Option<Uid>>
    ensures { result ≡ may None only_uid (get_member (codes "binding_uid") (table_view table.now)) }
{
    match find(table, "binding_uid") {
        Some(value) => Some(Some(uid_in(value)?)),
        None => Some(None),
    }
}

/// `true` or `false`, which it is without the key.
fn flag(table: &Table, key: &str) -> Option<bool>
    ensures { result ≡ may false says_flag (get_member key.now (table_view table.now)) }
{
    match find(table, key) {
        Some(value) => flag_in(value),
        None => Some(false),
    }
}
