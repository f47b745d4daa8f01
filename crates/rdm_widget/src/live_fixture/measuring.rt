//! What sensors show over time, and status messages.

ghost use Rattle.std.specs.Prelude.{◌≡◌, [], ◌∷◌, ◌++◌};
ghost use Rattle.std.specs.Int.{int_min, int_max};
ghost use Rattle.rdm_commands.specs.Commands.Placing.{place_refusal};
ghost use Rattle.rdm_device.specs.Device.Measuring.{signed_in};
ghost use Rattle.rdm_profile.specs.Values.{signed_slots};
ghost use Rattle.rdm_responder.specs.History.{History};
ghost use Rattle.rdm_responder.specs.Laws.{values_of};
ghost use Rattle.rdm_responder.specs.StandsFor.{StandsFor};
ghost use Rattle.rdm_widget.specs.Measuring as says;

use arrayvec::ArrayVec;
use rdm_commands::Verdict;
use rdm_courses::{Course, Notice};
use rdm_frame::standard::ROOT_DEVICE;
use rdm_params::Kind;
use rdm_responder::Responder;

/// A sensor that shows something over time.
#[derive(Debug, Drop)]
pub struct SensorCourse {
    /// Its number (E1.20 section 10.7.1).
    pub sensor: u8,
    /// What it shows.
    pub course: Course,
}

/// Each sensor measures what its course says since the last look.
pub(super) fn follow_all(
    responder: &mut Responder,
    courses: &[SensorCourse],
    looked: Option<u64>,
    now: u64,
)
    ensures { (h : History) → StandsFor responder.old h → StandsFor responder.new (says.after_courses looked now courses.now h) }
{
    for followed in courses {
        let values = followed.course.shown_since(looked, now);
        measure_all(responder, followed.sensor, values.as_slice());
    }
}

/// A sensor measures these values, one after the other.
fn measure_all(responder: &mut Responder, sensor: u8, values: &[i16])
    ensures { (h : History) → StandsFor responder.old h → StandsFor responder.new (says.after_values sensor values.now h) }
{
    for value in values {
        measure(responder, sensor, *value);
    }
}

/// A sensor measures a value, if a GET of it is answered at once.
fn measure(responder: &mut Responder, sensor: u8, value: i16)
    ensures { (h : History) → StandsFor responder.old h → StandsFor responder.new (says.after_value h sensor value) }
{
    let pid = Kind::SensorValue.pid();
    if let Verdict::Reply(shown) = responder.devices().get(ROOT_DEVICE, pid, &[sensor]) {
        let slots = with_present(sensor, value, shown.as_slice());
        place(responder, slots.as_slice());
    }
}

/// Places what a sensor shows, unless it is refused: then nothing changes.
fn place(responder: &mut Responder, slots: &[u8])
    ensures { (h : History) → StandsFor responder.old h →
        StandsFor responder.new (says.after_slots (place_refusal (values_of h) 0 0x0201 slots.now) h slots.now) }
{
    let _ = responder.place(ROOT_DEVICE, Kind::SensorValue.pid(), slots);
}

/// What a sensor shows once it has measured a value, of what it showed before: nothing if that isn't what SENSOR_VALUE tells.
#[tactic(auto, unfolding(rdm_device::specs::Device::Measuring::measured))]
fn with_present(sensor: u8, value: i16, shown: &[u8]) -> ArrayVec<u8, 9>
    ensures { result.items ≡ says.with_present sensor value shown.now }
{
    match shown {
        [_, _, _, c, d, e, f, g, h] => {
            let lowest = least_of(signed_of(*c, *d), value);
            let highest = greatest_of(signed_of(*e, *f), value);
            slots_of(sensor, value, lowest, highest, *g, *h)
        }
        _ => ArrayVec::new(),
    }
}

/// The slots of a sensor that shows these values.
fn slots_of(sensor: u8, value: i16, lowest: i16, highest: i16, g: u8, h: u8) -> ArrayVec<u8, 9>
    ensures { result.items ≡ sensor ∷ (signed_slots value ++ signed_slots lowest ++ signed_slots highest ++ g ∷ h ∷ []) }
{
    let [p, q] = value.to_be_bytes();
    let [r, s] = lowest.to_be_bytes();
    let [t, u] = highest.to_be_bytes();
    let slots = [sensor, p, q, r, s, t, u, g, h];
    ArrayVec::from(slots)
}

/// The number that two slots say.
fn signed_of(first: u8, second: u8) -> i16
    ensures { result ≡ signed_in (first ∷ second ∷ []) }
{
    i16::from_be_bytes([first, second])
}

fn least_of(a: i16, b: i16) -> i16
    ensures { result ≡ int_min a b }
{
    a.min(b)
}

fn greatest_of(a: i16, b: i16) -> i16
    ensures { result ≡ int_max a b }
{
    a.max(b)
}

/// Notes each status message that has come since the last look.
pub(super) fn note_all(responder: &mut Responder, notices: &[Notice], looked: Option<u64>, now: u64)
    ensures { (h : History) → StandsFor responder.old h → StandsFor responder.new (says.after_notices looked now notices.now h) }
{
    for notice in notices {
        note(responder, notice, looked, now);
    }
}

/// Notes a status message if it has come since the last look.
fn note(responder: &mut Responder, notice: &Notice, looked: Option<u64>, now: u64)
    ensures { (h : History) → StandsFor responder.old h → StandsFor responder.new (says.after_notice looked now notice.now h) }
{
    if notice.has_come(looked, now) {
        let _ = responder.note(notice.entry());
    }
}
