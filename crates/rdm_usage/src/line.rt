//! The command line of `felosumay line`.

use crate::argument::{Argument, Form, Reach, arguments, push_subcommands};
use crate::usage::{
    BY, BY_ADDRESS, BY_LABEL, BY_MODEL, BY_UID, CSV, DATA, FILE, FIXTURE, FORMAT, FROM, GAP, HTML,
    IN_WORDS, INPUT, JSON, JUNIT, LIMIT, OFF, ON, PARAMETER, PCAPNG, PLAIN, PORT, RESULTS, SCRIPT,
    SUB, SWITCH, TABLE, TRACE, TRACE_AS, UID, WORDS, YES,
};
use clap::Command;
use std::alloc::{AllocError, Global};

const THE_PORT: Argument = Argument {
    id: PORT,
    form: Form::Option,
    value: "PATH",
    help: "The serial device of the interface, in raw mode with\nmin 0 time 1; - for standard input and output",
};

const TIME_LIMIT: Argument = Argument {
    id: LIMIT,
    form: Form::Number16(1, 65535),
    value: "MS",
    help: "The time limit for each answer of the interface, in\nmilliseconds; 1000 by default",
};

const TRACE_FILE: Argument = Argument {
    id: TRACE,
    form: Form::Option,
    value: "FILE",
    help: "Also write requests and replies to this file,\nas a trace",
};

const TRACE_FORM: Argument = Argument {
    id: TRACE_AS,
    form: Form::OneOf(&[TRACE, PCAPNG]),
    value: "FORM",
    help: "The format of that file: a trace, or a capture of the\nframes; trace by default\n",
};

const SENDER: Argument = Argument {
    id: FROM,
    form: Form::Option,
    value: "UID",
    help: "The UID that sends; 7FF0:46454C4F if omitted",
};

/// What each errand takes.
const OF_LINE: &[Argument] = &[
    THE_PORT,
    TIME_LIMIT,
    TRACE_FILE,
    TRACE_FORM,
    Argument {
        id: FIXTURE,
        form: Form::Each,
        value: "FILE",
        help: "A fixture file for units and texts; can be repeated.\nWithout it, the devices are asked",
    },
];

/// What `felosumay test` takes.
pub(crate) const OF_TEST: &[Argument] = &[
    ONE_DEVICE,
    Argument {
        id: INPUT,
        form: Form::RequiredWords,
        value: "SCRIPT",
        help: "The scripts to play, such as suite/*.script",
    },
    Argument {
        form: Form::RequiredOption,
        ..THE_PORT
    },
    TIME_LIMIT,
    TRACE_FILE,
    SENDER,
    Argument {
        id: JUNIT,
        form: Form::Option,
        value: "FILE.xml",
        help: "Also write the results of expectations to this file,\nas JUnit XML; if -, print it instead of the report",
    },
];

const DEVICES: Argument = Argument {
    id: UID,
    form: Form::RequiredPlace,
    value: "UID",
    help: "The device, such as 7FF0:00000001; several separated\nby commas; or all",
};

const ONE_DEVICE: Argument = Argument {
    id: UID,
    form: Form::RequiredPlace,
    value: "UID",
    help: "The UID of the device, such as 7FF0:00000001",
};

/// Devices, all of them unless some are named.
const ALL_DEVICES: Argument = Argument {
    id: UID,
    form: Form::Place,
    value: "UID",
    help: "The device, such as 7FF0:00000001; several separated\nby commas; all by default",
};

const OF_WHAT: Argument = Argument {
    id: PARAMETER,
    form: Form::RequiredPlace,
    value: "PARAMETER",
    help: "The parameter, by name or PID",
};

const WHERE: Argument = Argument {
    id: SUB,
    form: Form::Option,
    value: "SUB",
    help: "The sub-device, as in a script; the root if omitted",
};

const ORDER: Argument = Argument {
    id: BY,
    form: Form::OneOf(&[BY_UID, BY_ADDRESS, BY_MODEL, BY_LABEL]),
    value: "KEY",
    help: "The sort order; uid by default\n",
};

const CONSENT: Argument = Argument {
    id: YES,
    form: Form::Flag,
    value: "",
    help: "Make the proposed settings",
};

/// The file of a survey, which is written or read.
const KEPT: Argument = Argument {
    id: FILE,
    form: Form::RequiredPlace,
    value: "FILE.json",
    help: "The file of the survey",
};

/// What `felosumay line list` takes.
const OF_LIST: &[Argument] = &[
    ORDER,
    Argument {
        id: FORMAT,
        form: Form::OneOf(&[TABLE, CSV, JSON, HTML]),
        value: "FORMAT",
        help: "The output format; table by default\n",
    },
];

/// What `felosumay line address` takes.
const OF_ADDRESS: &[Argument] = &[
    Argument {
        id: FROM,
        form: Form::Number16(1, 512),
        value: "SLOT",
        help: "The first start address; 1 if omitted",
    },
    Argument {
        id: GAP,
        form: Form::Number16(0, 511),
        value: "N",
        help: "The number of free slots between two devices; 0 by\ndefault",
    },
    ORDER,
    CONSENT,
];

/// What `felosumay line get` takes.
const OF_GET: &[Argument] = &[
    DEVICES,
    OF_WHAT,
    WHERE,
    Argument {
        id: DATA,
        form: Form::Words,
        value: "DATA",
        help: "The data, a word for each field; none if omitted",
    },
    Argument {
        id: FORMAT,
        form: Form::OneOf(&[WORDS, PLAIN]),
        value: "FORMAT",
        help: "How to print the reply: in words, or the value alone;\nwords if omitted\n",
    },
];

/// What `felosumay line set` takes: a command, or a file of settings.
const OF_SET: &[Argument] = &[
    Argument {
        form: Form::Place,
        ..DEVICES
    },
    Argument {
        form: Form::Place,
        ..OF_WHAT
    },
    WHERE,
    Argument {
        id: DATA,
        form: Form::Words,
        value: "DATA",
        help: "The data, one word per field: a number, a name or a\ntext; no data if omitted or -",
    },
    Argument {
        id: FROM,
        form: Form::Option,
        value: "FILE.csv",
        help: "Make the settings of this file instead of a single one",
    },
];

/// What `felosumay line identify` takes.
const OF_IDENTIFY: &[Argument] = &[
    DEVICES,
    Argument {
        id: SWITCH,
        form: Form::PlaceOf(&[ON, OFF]),
        value: "SWITCH",
        help: "Switch identification on or off\n",
    },
];

/// What `felosumay line play` takes.
const OF_PLAY: &[Argument] = &[
    SCRIPT,
    Argument {
        id: UID,
        form: Form::RequiredOption,
        value: "UID",
        help: "The device to play it on, as 7FF0:00000001",
    },
    SENDER,
    IN_WORDS,
    RESULTS,
];

/// What `felosumay line` does: the name of each errand, what it is, and what it takes.
const ERRANDS: &[(&str, &str, &[Argument])] = &[
    ("find", "Find all devices", &[]),
    (
        "list",
        "List all devices and their address clashes",
        OF_LIST,
    ),
    (
        "address",
        "Propose start addresses without overlaps, or set them",
        OF_ADDRESS,
    ),
    ("get", "Read a parameter of devices", OF_GET),
    (
        "set",
        "Set a parameter of devices, and wait for the result",
        OF_SET,
    ),
    (
        "identify",
        "Make devices identify themselves, or stop that",
        OF_IDENTIFY,
    ),
    (
        "sensors",
        "List the sensors of devices and their readings",
        &[ALL_DEVICES],
    ),
    (
        "describe",
        "Describe a device in a fixture's file, which stands in for it",
        &[ONE_DEVICE],
    ),
    (
        "status",
        "List the status messages of devices",
        &[ALL_DEVICES],
    ),
    (
        "collect",
        "Fetch all waiting messages of devices",
        &[DEVICES],
    ),
    ("save", "Save a survey of all devices to a file", &[KEPT]),
    (
        "compare",
        "Compare all devices with a saved survey",
        &[KEPT],
    ),
    (
        "restore",
        "Propose how to restore devices to a saved survey, or do it",
        &[KEPT, CONSENT],
    ),
    (
        "watch",
        "Poll all devices in turn, and print each message as it comes",
        &[],
    ),
    (
        "play",
        "Play a script on a device and print the trace, with the times",
        OF_PLAY,
    ),
];

/// `felosumay line`.
pub(crate) fn command<'a>(alloc: Global) -> Result<Command<'a>, AllocError> {
    let mut errands = Vec::new(alloc);
    push_subcommands(alloc, ERRANDS, &mut errands)?;
    with_arguments(alloc)?.subcommands(errands)
}

/// The same, without its errands.
fn with_arguments<'a>(alloc: Global) -> Result<Command<'a>, AllocError> {
    let arguments = arguments(alloc, OF_LINE, Reach::All)?;
    Command::new(alloc, "line")
        .about("Control a real line through an ENTTEC DMX USB Pro")
        .subcommand_required(true)
        .arg_required_else_help(true)
        .args(arguments)
}
