//! Runs, and how each ends.

use super::hand::{MEASURED, NOT_MET};
use super::{Act, CONTROLLER, DEVICE, Row, Told};
use rdm_bus::Action;
use rdm_crew::RunError;
use rdm_frame::Uid;
use rdm_params::{Outcome, Worker, Workers};

pub(super) const QUEUED_MESSAGE: u16 = 0x0020;

const STATUS_MESSAGES: u16 = 0x0030;

const SENSOR_VALUE: u16 = 0x0201;

const LAMP_STATE: u16 = 0x0403;

const IDENTIFY_DEVICE: u16 = 0x1000;

const PERFORM_SELFTEST: u16 = 0x1020;

/// The most data of a frame (E1.20 section 6.2.10), and one byte more.
const MOST: [u8; 231] = [0; 231];

const TOO_MANY: [u8; 232] = [0; 232];

/// So many empty turns are enough for every report.
const PATIENCE: u32 = 100_000_000;

/// How often a part of the gate looks whether the other comes.
const MOST_TURNS: u32 = 10_000_000;

/// How often it looks where no other comes: enough for the bus to be first, and soon over on a busy machine.
const SOME_TURNS: u32 = 1_000_000;

pub(super) const LAMP_ON: Act = Act::Ask(Action::Set, LAMP_STATE, &[1]);

/// The broadcast to the device's manufacturer.
const ALL_OF_MAKER: Uid = Uid {
    maker: 0x7FF0,
    device: u32::MAX,
};

/// The workers of a profile that says nothing of them.
const USUAL: Workers = Workers {
    lamp: Worker::First,
    power: Worker::First,
    self_test: Worker::Second,
    sensor: Worker::Second,
};

/// Nothing happens.
const NOTHING: Told = Told {
    events: 0,
    first: &[],
    second: &[],
    collected: &[],
};

/// A run without steps.
pub(super) const PLAIN: Row = Row {
    name: "nothing is done",
    device: DEVICE,
    controller: CONTROLLER,
    subs: 0,
    workers: USUAL,
    queue_size: 8,
    acts: &[],
    gate: None,
};

/// Two commands of the first worker and one of the second.
pub(super) const THREE_COMMANDS: Row = Row {
    name: "each worker reports on its jobs",
    acts: &[
        LAMP_ON,
        Act::Ask(Action::Set, LAMP_STATE, &[0]),
        Act::Ask(Action::Get, SENSOR_VALUE, &[0]),
        Act::Settle(PATIENCE),
    ],
    ..PLAIN
};

/// Each worker has reported on each of its jobs, in order.
pub(super) const THREE_REPORTS: Told = Told {
    events: 6,
    first: &[(0, Outcome::Done), (1, Outcome::Done)],
    second: &[(0, Outcome::Reading(MEASURED))],
    ..NOTHING
};

/// A report that may be there before the poll.
pub(super) const DRAWN_AND_POLLED: Row = Row {
    name: "a report is drawn before the poll",
    acts: &[LAMP_ON, Act::Draw(10_000), Act::Collect],
    ..PLAIN
};

/// Runs that end with a trace.
pub(super) const TRACES: &[(Row, Told)] = &[
    (PLAIN, NOTHING),
    // The same commands with other workers: both have other jobs than usual, and one has all.
    (
        Row {
            name: "each worker reports on the jobs that it was chosen for",
            workers: Workers {
                lamp: Worker::Second,
                sensor: Worker::First,
                ..USUAL
            },
            ..THREE_COMMANDS
        },
        Told {
            first: &[(0, Outcome::Reading(MEASURED))],
            second: &[(0, Outcome::Done), (1, Outcome::Done)],
            ..THREE_REPORTS
        },
    ),
    (
        Row {
            name: "one worker reports on all jobs in their order",
            workers: Workers {
                sensor: Worker::First,
                ..USUAL
            },
            ..THREE_COMMANDS
        },
        Told {
            first: &[
                (0, Outcome::Done),
                (1, Outcome::Done),
                (2, Outcome::Reading(MEASURED)),
            ],
            second: &[],
            ..THREE_REPORTS
        },
    ),
    // A report and three transactions, and of these the two polls were answered with messages.
    (
        Row {
            name: "messages are collected",
            acts: &[LAMP_ON, Act::Settle(PATIENCE), Act::Collect, Act::Collect],
            ..PLAIN
        },
        Told {
            events: 4,
            first: &[(0, Outcome::Done)],
            collected: &[(0x31, LAMP_STATE), (0x21, STATUS_MESSAGES)],
            ..NOTHING
        },
    ),
    // Both workers are at work at once.
    (
        Row {
            name: "both workers are at work at once",
            acts: &[
                LAMP_ON,
                Act::Draw(1),
                Act::Ask(Action::Set, PERFORM_SELFTEST, &[1]),
                Act::Settle(u32::MAX),
            ],
            gate: Some(MOST_TURNS),
            ..PLAIN
        },
        Told {
            events: 4,
            first: &[(0, Outcome::Done)],
            second: &[(0, Outcome::Done)],
            ..NOTHING
        },
    ),
    // Three jobs wait in a lane until the other worker has come: the bus doesn't wait for the first of them.
    (
        Row {
            name: "jobs wait in their lane",
            acts: &[
                LAMP_ON,
                LAMP_ON,
                LAMP_ON,
                Act::Ask(Action::Set, PERFORM_SELFTEST, &[1]),
                Act::Settle(u32::MAX),
            ],
            gate: Some(MOST_TURNS),
            ..PLAIN
        },
        Told {
            events: 8,
            first: &[(0, Outcome::Done), (1, Outcome::Done), (2, Outcome::Done)],
            second: &[(0, Outcome::Done)],
            ..NOTHING
        },
    ),
    // The second worker sleeps while the first waits for it in vain, and is woken by its job.
    (
        Row {
            name: "a worker that sleeps is woken",
            acts: &[
                LAMP_ON,
                Act::Settle(u32::MAX),
                Act::Ask(Action::Set, PERFORM_SELFTEST, &[1]),
                Act::Settle(u32::MAX),
            ],
            gate: Some(SOME_TURNS),
            ..PLAIN
        },
        Told {
            events: 4,
            first: &[(0, NOT_MET)],
            second: &[(0, Outcome::Done)],
            ..NOTHING
        },
    ),
    // No step is refused.
    (
        Row {
            name: "no command is refused",
            acts: &[
                Act::Draw(1),
                Act::Ask(Action::Get, IDENTIFY_DEVICE, &MOST),
                Act::Settle(0),
                Act::Ask(Action::Get, IDENTIFY_DEVICE, &[]),
            ],
            ..PLAIN
        },
        Told {
            events: 2,
            ..NOTHING
        },
    ),
];

/// A setup that no responder or no controller can have, with a command that is refused: the setup is told.
const BAD_SETUP: Row = Row {
    acts: &[Act::Ask(Action::Get, QUEUED_MESSAGE, &[2])],
    ..PLAIN
};

/// Runs that end with a refusal.
pub(super) const REFUSALS: &[(Row, RunError)] = &[
    // A settle gives up, while the worker waits for the other.
    (
        Row {
            name: "a settle gives up",
            acts: &[LAMP_ON, Act::Settle(0)],
            gate: Some(SOME_TURNS),
            ..PLAIN
        },
        RunError::Unsettled,
    ),
    // A bad setup comes first.
    (
        Row {
            name: "no room",
            queue_size: 0,
            ..BAD_SETUP
        },
        RunError::BadSetup,
    ),
    (
        Row {
            name: "too much room",
            queue_size: 1_025,
            ..BAD_SETUP
        },
        RunError::BadSetup,
    ),
    (
        Row {
            name: "too many sub-devices",
            subs: 513,
            ..BAD_SETUP
        },
        RunError::BadSetup,
    ),
    (
        Row {
            name: "the controller is the device",
            controller: DEVICE,
            ..BAD_SETUP
        },
        RunError::BadSetup,
    ),
    (
        Row {
            name: "the controller is a broadcast",
            controller: Uid::ALL,
            ..BAD_SETUP
        },
        RunError::BadSetup,
    ),
    (
        Row {
            name: "the controller is a broadcast to a manufacturer",
            controller: ALL_OF_MAKER,
            ..BAD_SETUP
        },
        RunError::BadSetup,
    ),
    (
        Row {
            name: "the device is a broadcast to a manufacturer",
            device: ALL_OF_MAKER,
            ..BAD_SETUP
        },
        RunError::BadSetup,
    ),
    // The first refused step tells.
    (
        Row {
            name: "QUEUED_MESSAGE first",
            acts: &[
                Act::Draw(1),
                Act::Ask(Action::Get, QUEUED_MESSAGE, &[]),
                Act::Settle(0),
                Act::Ask(Action::Get, IDENTIFY_DEVICE, &[]),
            ],
            ..PLAIN
        },
        RunError::Reserved,
    ),
    (
        Row {
            name: "STATUS_MESSAGES with too many bytes first",
            acts: &[
                Act::Draw(1),
                Act::Ask(Action::Get, STATUS_MESSAGES, &TOO_MANY),
                Act::Settle(0),
                Act::Ask(Action::Get, IDENTIFY_DEVICE, &[]),
            ],
            ..PLAIN
        },
        RunError::Reserved,
    ),
    (
        Row {
            name: "too many bytes first",
            acts: &[
                Act::Draw(1),
                Act::Ask(Action::Get, IDENTIFY_DEVICE, &TOO_MANY),
                Act::Settle(0),
                Act::Ask(Action::Get, IDENTIFY_DEVICE, &[]),
            ],
            ..PLAIN
        },
        RunError::TooLong,
    ),
    (
        Row {
            name: "too many bytes before QUEUED_MESSAGE",
            acts: &[
                Act::Draw(1),
                Act::Ask(Action::Get, IDENTIFY_DEVICE, &TOO_MANY),
                Act::Settle(0),
                Act::Ask(Action::Get, QUEUED_MESSAGE, &[]),
            ],
            ..PLAIN
        },
        RunError::TooLong,
    ),
    (
        Row {
            name: "STATUS_MESSAGES before too many bytes",
            acts: &[
                Act::Draw(1),
                Act::Ask(Action::Get, STATUS_MESSAGES, &[]),
                Act::Settle(0),
                Act::Ask(Action::Get, IDENTIFY_DEVICE, &TOO_MANY),
            ],
            ..PLAIN
        },
        RunError::Reserved,
    ),
    (
        Row {
            name: "the second command is reserved",
            acts: &[
                Act::Draw(1),
                Act::Ask(Action::Get, IDENTIFY_DEVICE, &MOST),
                Act::Settle(0),
                Act::Ask(Action::Get, QUEUED_MESSAGE, &TOO_MANY),
            ],
            ..PLAIN
        },
        RunError::Reserved,
    ),
];
