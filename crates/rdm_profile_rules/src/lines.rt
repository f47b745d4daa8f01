//! The parameters of E1.20 and of E1.37-1 that a profile can add to the table, in one list. Which PIDs a profile can lend and which commands
//! and data each has follow from it here, and what they are called in the crate of the table (ANSI E1.20-2010, section 10 and table A-3;
//! ANSI E1.37-1).

ghost use Rattle.std.specs.Prelude.{◌≡◌, ◌==◌};
ghost use Rattle.std.specs.List.{list_any};
ghost use Rattle.rdm_profile.specs.OwnParameters.{is_lent};

use rdm_profile::Rights;

/// The list, a row for each parameter in the order of the PIDs: the PID, the name, the commands that the standard gives it, of which a profile
/// can leave one out, and the shape of its data, which has a meaning in this crate alone. It is for a macro `$use` to read.
#[macro_export]
macro_rules! standard_rows {
    ($use:ident) => {
        $use! {
            (0x0015 "COMMS_STATUS" Clear (Numbers(6, &[2, 2, 2])))
            (0x0070 "PRODUCT_DETAIL_ID_LIST" Get (Words(6)))
            (0x0140 "DMX_BLOCK_ADDRESS" Both (Block))
            (0x0141 "DMX_FAIL_MODE" Both (Numbers(7, &[2, 2, 2, 1])))
            (0x0142 "DMX_STARTUP_MODE" Both (Numbers(7, &[2, 2, 2, 1])))
            (0x0340 "DIMMER_INFO" Get (Numbers(11, &[2, 2, 2, 2, 1, 1, 1])))
            (0x0341 "MINIMUM_LEVEL" Both (Numbers(5, &[2, 2, 1])))
            (0x0342 "MAXIMUM_LEVEL" Both (Numbers(2, &[2])))
            (0x0343 "CURVE" Both (Choice))
            (0x0344 "CURVE_DESCRIPTION" Get (Names))
            (0x0345 "OUTPUT_RESPONSE_TIME" Both (Choice))
            (0x0346 "OUTPUT_RESPONSE_TIME_DESCRIPTION" Get (Names))
            (0x0347 "MODULATION_FREQUENCY" Both (Choice))
            (0x0348 "MODULATION_FREQUENCY_DESCRIPTION" Get (Rates))
            (0x0440 "BURN_IN" Both (Numbers(1, &[1])))
            (0x0603 "REAL_TIME_CLOCK" Both (Numbers(7, &[2, 1, 1, 1, 1, 1])))
            (0x0640 "LOCK_PIN" Both (Pin))
            (0x0641 "LOCK_STATE" Both (Lock))
            (0x0642 "LOCK_STATE_DESCRIPTION" Get (Names))
            (0x1001 "RESET_DEVICE" Set (Numbers(1, &[1])))
            (0x1030 "CAPTURE_PRESET" Set (Numbers(8, &[2, 2, 2, 2])))
            (0x1040 "IDENTIFY_MODE" Both (Numbers(1, &[1])))
            (0x1041 "PRESET_INFO" Get (Numbers(32, &[])))
            (0x1042 "PRESET_STATUS" Both (Scenes))
            (0x1043 "PRESET_MERGEMODE" Both (Numbers(1, &[1])))
            (0x1044 "POWER_ON_SELF_TEST" Both (Numbers(1, &[1])))
        }
    };
}

/// The shape of the data that the standard gives a parameter.
#[derive(Clone, Copy)]
pub(crate) enum StandardShape {
    /// So many slots in all, in which numbers of so many slots each stand one after another.
    Numbers(u8, &'static [u8]),
    /// A list of numbers of two slots: one at least, and so many at most.
    Words(u8),
    /// The number of one of several things, from 1.
    Choice,
    /// What these are called.
    Names,
    /// What these are called, and the frequency of each.
    Rates,
    /// Those of each of several scenes.
    Scenes,
    /// The number of a lock state, from 0.
    Lock,
    /// A PIN.
    Pin,
    /// Where the slots of all sub-devices lie.
    Block,
}

/// What the standard says of the commands and the data of a parameter.
#[derive(Clone, Copy)]
pub(crate) struct Standard {
    /// Its PID.
    pub(crate) pid: u16,
    /// The commands that the standard gives it.
    pub(crate) rights: Rights,
    /// The shape of its data.
    pub(crate) shape: StandardShape,
}

macro_rules! standards {
    ($(($pid:literal $name:literal $rights:ident ($($shape:tt)*)))*) => {
        &[$(Standard { pid: $pid, rights: Rights::$rights, shape: StandardShape::$($shape)* }),*]
    };
}

/// What the standard says of each, in the order of their PIDs.
pub(crate) const STANDARDS: &[Standard] = standard_rows!(standards);

/// Whether the PID is one of the standards' that a profile can add.
pub(crate) fn is_lent(pid: u16) -> bool
    ensures { result ≡ is_lent pid }
{
    have(STANDARDS, pid)
}

/// Whether one of these lines has this PID.
fn have(lines: &[Standard], pid: u16) -> bool
    ensures { result ≡ list_any (λ s. s.pid == pid) lines.now }
{
    lines.iter().any(|line| line.pid == pid)
}
