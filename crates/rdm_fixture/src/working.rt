//! What a file says in vain.

ghost use Rattle.std.specs.Prelude.{◌≡◌, ◌↔◌, not, is_some, ◌==◌, ◌||◌, ℕ, [], Some, None, IfSome, IsTrue};
ghost use Rattle.std.specs.List.{list_any, list_all};
ghost use Rattle.rdm_profile.specs.LeftOut.{leaves_out};
ghost use Rattle.rdm_fixture.specs.Drafts.{fixture_with};
ghost use Rattle.rdm_fixture_keys.specs.Faults.{told};
ghost use Rattle.rdm_fixture.specs.OverTime.{can_run};
ghost use Rattle.rdm_fixture.specs.Working as spec;
ghost use Rattle.rdm_outcomes.specs.declared.rule.Task.TheVariants as tasks;
ghost use Rattle.rdm_params.specs.Table.Kinds.{pid_of};

use crate::courses::say_nothing;
use crate::fixture::Fixture;
use crate::profile::Apart;
use crate::starting::Starting;
use rdm_courses::{Course, Notice};
use rdm_device::{Profile, SelfTest, SensorDef, StatusText, can_hold, can_open};
use rdm_fixture_keys::{Agreement, Refusal, Wanted};
use rdm_outcomes::{Rule, Task};
use rdm_params::{Kind, Outcome};

/// What the file says in vain, if it does. What sets the fixture apart stands beside it.
pub(crate) fn said_in_vain(fixture: &Fixture, apart: &Apart) -> Option<Refusal>
    ensures none { (result ≡ None) ↔ spec.CanWork (fixture_with fixture.now apart.now) }
    ensures wrong { IfSome result (λ e. spec.IsIdle (fixture_with fixture.now apart.now) (told e)) }
{
    let profile = &fixture.profile;
    let without = apart.without.as_slice();
    let own = apart.added.own.as_slice();
    if !can_open(own) {
        return Some(Refusal::at("parameter", Wanted::Agreement(Agreement::Opened)));
    }
    if !can_hold(without, own, apart.added.locks.as_slice()) {
        return Some(Refusal::at("lock", Wanted::Agreement(Agreement::Held)));
    }
    let rules = fixture.outcomes.as_slice();
    if let Some((number, why)) = first_idle(without, profile, rules) {
        let key = idle_key(why, rules[number].value);
        return Some(Refusal::at(key, Wanted::Agreement(why)).in_entry("outcome", number + 1));
    }
    if !tells_sensors(without, profile.sensors.as_slice()) {
        return Some(Refusal::at("without", Wanted::Agreement(Agreement::Sensors)));
    }
    if !can_start_so(without, &fixture.start) {
        return Some(Refusal::at("without", Wanted::Agreement(Agreement::Started)));
    }
    fallen_notice(profile, fixture.start.notices.as_slice())
}

/// Whether a fixture says nothing in vain.
pub(crate) fn can_work(fixture: &Fixture) -> bool
    ensures { IsTrue result ↔ spec.CanWork fixture.now }
{
    let profile = &fixture.profile;
    let without = profile.particulars.without();
    let own = profile.particulars.own();
    can_open(own)
        && can_hold(without, own, profile.particulars.locks())
        && first_idle(without, profile, fixture.outcomes.as_slice()).is_none()
        && tells_sensors(without, profile.sensors.as_slice())
        && can_start_so(without, &fixture.start)
        && first_fallen(profile, fixture.start.notices.as_slice()).is_none()
}

// ---- how jobs end

/// The first rule that says nothing of any job, from 0, and why.
fn first_idle(without: &[u16], profile: &Profile, rules: &[Rule]) -> Option<(usize, Agreement)>
    ensures none { (result ≡ None) ↔ spec.AreUsedWith (spec.idle_with without.now profile.now.sensors.items profile.now.tests.items profile.now.status_texts.items) rules.now }
    ensures first { IfSome result (λ r. spec.IsFirstIdle (spec.idle_with without.now profile.now.sensors.items profile.now.tests.items profile.now.status_texts.items) rules.now r.0 r.1) }
{
    for n in 0..rules.len() {
        if let Some(why) = idle(without, profile, &rules[n]) {
            return Some((n, why));
        }
    }
    None
}

/// Why a rule says nothing of any job, if it doesn't.
#[tactic(auto, unfolding(crate::specs::Working::idle_with))]
fn idle(without: &[u16], profile: &Profile, rule: &Rule) -> Option<Agreement>
    ensures { result ≡ spec.idle_with without.now profile.now.sensors.items profile.now.tests.items profile.now.status_texts.items rule.now }
{
    if is_left_out(without, rule.task.kind().pid()) {
        return Some(Agreement::Lacked);
    }
    let sensors = profile.sensors.as_slice();
    let tests = profile.tests.as_slice();
    if !starts_job(sensors, tests, rule.task, rule.value) {
        return Some(Agreement::Unasked);
    }
    if !is_explained(profile.status_texts.as_slice(), &rule.outcome) {
        return Some(Agreement::Unexplained);
    }
    None
}

/// The key of a rule that is wrong then.
fn idle_key(why: Agreement, value: Option<u8>) -> &'static str
    ensures { result.now ≡ spec.idle_key why value }
{
    match why {
        Agreement::Unexplained => "status_id",
        Agreement::Unasked if value.is_some() => "value",
        _ => "parameter",
    }
}

/// Whether a command with this value starts a job, or one with any.
fn starts_job(sensors: &[SensorDef], tests: &[SelfTest], task: Task, value: Option<u8>) -> bool
    ensures { result ≡ spec.starts_job sensors.now tests.now task value }
{
    match task {
        Task::LampState => value.is_none_or(|state| state <= 3),
        Task::PowerState => value.is_none_or(|state| state <= 2 || state == 0xFF),
        Task::PerformSelfTest => value.is_none_or(|test| can_perform(tests, test)),
        Task::SensorValue => match value {
            Some(number) => is_slow_at(sensors, number),
            None => has_slow(sensors),
        },
    }
}

/// Whether it is none of the self tests, all, or one of these.
fn can_perform(tests: &[SelfTest], number: u8) -> bool
    ensures { result ≡ (((number == 0) || (number == 0xFF)) || list_any (λ t. t.number == number) tests.now) }
{
    (number == 0 || number == 0xFF) || has_test(tests, number)
}

fn has_test(tests: &[SelfTest], number: u8) -> bool
    ensures { result ≡ list_any (λ t. t.number == number) tests.now }
{
    tests.iter().any(|test| test.number == number)
}

/// Whether a sensor isn't answered at once.
fn has_slow(sensors: &[SensorDef]) -> bool
    ensures { result ≡ list_any spec.is_slow sensors.now }
{
    sensors.iter().any(|sensor| !sensor.at_once)
}

/// Whether there is a sensor of this number that isn't answered at once.
fn is_slow_at(sensors: &[SensorDef], number: u8) -> bool
    ensures { result ≡ spec.starts_job sensors.now [] tasks.SensorValue (Some number) }
{
    match sensors.get(usize::from(number)) {
        Some(sensor) => !sensor.at_once,
        None => false,
    }
}

/// Whether the status ID of a failure is one of the standard's, or is described.
fn is_explained(texts: &[StatusText], outcome: &Outcome) -> bool
    ensures { result ≡ spec.is_explained texts.now outcome.now }
{
    match outcome {
        Outcome::Failed { id, .. } => is_known(texts, *id),
        Outcome::Done | Outcome::Reading(_) => true,
    }
}

fn is_known(texts: &[StatusText], id: u16) -> bool
    ensures { result ≡ spec.is_known texts.now id }
{
    !(0x8000 <= id) || is_described(texts, id)
}

fn is_described(texts: &[StatusText], id: u16) -> bool
    ensures { result ≡ list_any (λ s. s.id == id) texts.now }
{
    texts.iter().any(|text| text.id == id)
}

// ---- status messages

/// What is wrong in the first status message that names a status ID which nothing describes, or a device that isn't there.
fn fallen_notice(profile: &Profile, notices: &[Notice]) -> Option<Refusal>
    ensures none { (result ≡ None) ↔ spec.AllStand profile.now.subs profile.now.status_texts.items notices.now }
    ensures wrong { IfSome result (λ e. spec.FallenNotice profile.now.subs profile.now.status_texts.items notices.now (told e)) }
{
    let number = first_fallen(profile, notices)?;
    let refusal = fallen(profile, &notices[number]);
    Some(refusal.in_entry("status_message", number + 1))
}

/// What is wrong in a message that doesn't stand.
fn fallen(profile: &Profile, notice: &Notice) -> Refusal
    ensures { told result ≡ spec.fallen_fault profile.now.subs profile.now.status_texts.items notice.now }
{
    if is_known(profile.status_texts.as_slice(), notice.id) {
        let most = i64::from(profile.subs);
        return Refusal::at("sub_device", Wanted::Number { least: 0, most });
    }
    Refusal::at("status_id", Wanted::Agreement(Agreement::Unexplained))
}

/// The first message that doesn't stand, from 0.
fn first_fallen(profile: &Profile, notices: &[Notice]) -> Option<usize>
    ensures none { (result ≡ None) ↔ spec.AllStand profile.now.subs profile.now.status_texts.items notices.now }
    ensures first { IfSome result (λ n. spec.IsFirstFallen profile.now.subs profile.now.status_texts.items notices.now n) }
{
    for n in 0..notices.len() {
        if !stands(profile, &notices[n]) {
            return Some(n);
        }
    }
    None
}

/// Whether a message has a known status ID, and is one of a device that there is.
fn stands(profile: &Profile, notice: &Notice) -> bool
    ensures { result ≡ spec.stands profile.now.subs profile.now.status_texts.items notice.now }
{
    is_known(profile.status_texts.as_slice(), notice.id) && notice.sub <= profile.subs
}

// ---- values of what the fixture lacks

fn is_left_out(without: &[u16], pid: u16) -> bool
    ensures { result ≡ leaves_out without.now pid }
{
    without.iter().any(|lacked| *lacked == pid)
}

/// Whether SENSOR_DEFINITION tells of the sensors, if there are some.
fn tells_sensors(without: &[u16], sensors: &[SensorDef]) -> bool
    ensures { result ≡ spec.tells_sensors without.now sensors.now }
{
    !is_left_out(without, Kind::SensorDefinition.pid()) || sensors.is_empty()
}

/// Whether every value with which the fixture starts is one that it can show.
fn can_start_so(without: &[u16], start: &Starting) -> bool
    ensures { result ≡ spec.can_start_so without.now start.now }
{
    can_count_all(without, start)
        && (can_measure(without, start.presents.as_slice())
            && can_run(without, start.courses.as_slice()))
}

fn can_count_all(without: &[u16], start: &Starting) -> bool
    ensures { result ≡ spec.can_count_all without.now start.now }
{
    can_count(without, Kind::DeviceHours, start.device_hours)
        && (can_count(without, Kind::LampHours, start.lamp_hours)
            && (can_count(without, Kind::LampStrikes, start.lamp_strikes)
                && can_count(without, Kind::DevicePowerCycles, start.device_power_cycles)))
}

/// Whether a counter can be read, or starts with 0.
fn can_count(without: &[u16], kind: Kind, value: u32) -> bool
    ensures { result ≡ spec.can_count without.now (pid_of kind) value }
{
    !is_left_out(without, kind.pid()) || value == 0
}

/// Whether what the sensors measure can be read, if something is said of it.
fn can_measure(without: &[u16], presents: &[Option<i16>]) -> bool
    ensures { result ≡ spec.can_measure without.now presents.now }
{
    !is_left_out(without, Kind::SensorValue.pid()) || have_measured_nothing(presents)
}

/// Whether what the sensors show over time can be read, if something is said of it.
fn can_run(without: &[u16], courses: &[Course]) -> bool
    ensures { result ≡ can_run without.now courses.now }
{
    !is_left_out(without, Kind::SensorValue.pid()) || say_nothing(courses)
}

fn have_measured_nothing(presents: &[Option<i16>]) -> bool
    ensures { result ≡ list_all (λ o. not (is_some o)) presents.now }
{
    presents.iter().all(|present| present.is_none())
}
