//! Which parameters of the standard a device may lack.

ghost use Rattle.std.specs.Prelude.{◌≡◌, ◌↔◌, ◌||◌, [], not, IsTrue, All};
ghost use Rattle.rdm_profile.specs.LeftOut.{is_optional, leaves_out, leave_no_need, lacks};
ghost use Rattle.rdm_profile.specs.Profiles.{AreOptional};

use crate::Profile;

/// How many parameters a profile can leave out.
const MOST_LEFT_OUT: usize = 36;

/// Whether a device may lack each of these parameters (E1.20 table A-3), and they are no more than a profile can name.
pub fn are_optional(pids: &[u16]) -> bool
    ensures { IsTrue result ↔ AreOptional pids.now }
{
    pids.len() <= MOST_LEFT_OUT && is_each_optional(pids)
}

/// Whether a device may lack each of these parameters.
fn is_each_optional(pids: &[u16]) -> bool
    ensures { IsTrue result ↔ All (λ pid. IsTrue (is_optional pid)) pids.now }
{
    pids.iter().all(|pid| is_optional(*pid))
}

/// Whether a device may lack the parameter.
// Inlined, as those below that `lacks` calls: for a call each command would make room, and few profiles leave anything out.
#[inline(always)]
fn is_optional(pid: u16) -> bool
    ensures { result ≡ is_optional pid }
{
    match pid {
        0x0030 | 0x0031 | 0x0032 | 0x0033 => true,
        0x0080 | 0x0081 | 0x0082 | 0x0090 => true,
        0x00A0 | 0x00B0 | 0x00C1 | 0x00C2 => true,
        0x00E0 | 0x00E1 | 0x0120 | 0x0121 | 0x0122 => true,
        0x0200 | 0x0201 | 0x0202 => true,
        0x0400 | 0x0401 | 0x0402 | 0x0403 | 0x0404 | 0x0405 => true,
        0x0500 | 0x0501 | 0x0600 | 0x0601 | 0x0602 => true,
        0x1010 | 0x1020 | 0x1021 | 0x1031 => true,
        _ => false,
    }
}

/// Whether no parameter stays that needs one of these, as a description needs the list of what it describes.
pub fn leave_no_need(pids: &[u16]) -> bool
    ensures { result ≡ leave_no_need pids.now }
{
    go_together(pids, 0x0030, 0x0031)
        && go_together(pids, 0x0030, 0x0032)
        && go_together(pids, 0x0030, 0x0033)
        && go_together(pids, 0x00A0, 0x00B0)
        && go_together(pids, 0x00E0, 0x00E1)
        && go_together(pids, 0x0120, 0x0121)
        && go_together(pids, 0x0120, 0x0122)
        && go_together(pids, 0x0200, 0x0201)
        && go_together(pids, 0x0200, 0x0202)
        && go_together(pids, 0x1020, 0x1021)
}

/// Whether the second parameter goes where the first one, which it needs, does.
fn go_together(pids: &[u16], needed: u16, needing: u16) -> bool
    ensures { result ≡ (not (leaves_out pids.now needed) || leaves_out pids.now needing) }
{
    !pids.contains(&needed) || pids.contains(&needing)
}

impl Profile {
    /// Whether the devices lack a parameter of the standard: it is left out, and one that they may lack.
    #[inline(always)]
    #[tactic(auto, using(crate::proofs::LeftOut::none_lacked))]
    pub fn lacks(&self, pid: u16) -> bool
        ensures { result ≡ lacks self.now.particulars.without.items pid }
    {
        let pids = self.particulars.without();
        !pids.is_empty() && are_lacking(pids, pid)
    }

    /// Whether the devices have the standard's parameters alone, and lack none of them.
    pub fn is_plain(&self) -> bool
        ensures plain { IsTrue result → (self.now.particulars.own ≡ []) × (self.now.particulars.without.items ≡ []) }
        ensures other { (self.now.particulars.own ≡ []) × (self.now.particulars.without.items ≡ []) → IsTrue result }
    {
        self.particulars.without().is_empty() && self.particulars.own().is_empty()
    }
}

/// Whether devices that leave these out lack the parameter.
#[inline(always)]
pub fn are_lacking(pids: &[u16], pid: u16) -> bool
    ensures { result ≡ lacks pids.now pid }
{
    is_optional(pid) && is_among(pids, pid)
}

/// Whether the parameter is among these.
#[inline(always)]
fn is_among(pids: &[u16], pid: u16) -> bool
    ensures { result ≡ leaves_out pids.now pid }
{
    pids.iter().any(|left_out| *left_out == pid)
}
