//! What a file sets twice.

ghost use Rattle.std.specs.Prelude.{◌≡◌, ◌++◌, OnOk};
ghost use Rattle.rdm_settings.specs.Twice.{again, line_before, same, set_again, twice};

use crate::complaint::{Complaint, Trouble, of_line};
use crate::setting::Setting;
use std::alloc::AllocError;

/// Complains of each setting that an earlier one sets already.
pub(crate) fn put_twice(
    settings: &[Setting],
    complaints: &mut Vec<Complaint>,
) -> Result<(), AllocError>
    ensures { OnOk result (complaints.new.items ≡ complaints.old.items ++ twice settings.now) }
{
    for i in 0..settings.len() {
        put_again(&settings[..i], &settings[i], complaints)?;
    }
    Ok(())
}

/// Complains of a setting if one of those before it sets the same.
#[tactic(auto, unfolding(crate::specs::Twice::set_again))]
fn put_again(
    before: &[Setting],
    setting: &Setting,
    complaints: &mut Vec<Complaint>,
) -> Result<(), AllocError>
    ensures { OnOk result (complaints.new.items ≡ complaints.old.items ++ set_again before.now setting.now) }
{
    if let Some(line) = line_before(before, setting) {
        complaints.push(again(setting, line))?;
    }
    Ok(())
}

/// The line of the first that sets the same.
fn line_before(before: &[Setting], setting: &Setting) -> Option<usize>
    ensures { result ≡ line_before before.now setting.now }
{
    let first = before.iter().find(|first| same(setting, first))?;
    Some(first.line)
}

/// Whether they set the same parameter of the same device.
fn same(a: &Setting, b: &Setting) -> bool
    ensures { result ≡ same a.now b.now }
{
    a.uid == b.uid && a.sub == b.sub && a.pid == b.pid
}

fn again(setting: &Setting, before: usize) -> Complaint
    ensures { result ≡ again setting.now before }
{
    of_line(
        setting.line,
        Trouble::SetTwice {
            uid: setting.uid,
            sub: setting.sub,
            pid: setting.pid,
            before,
        },
    )
}
