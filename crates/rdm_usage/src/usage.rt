//! The command line: its subcommands and what each takes.

use crate::argument::{Argument, Form, push_subcommands};
use crate::line::OF_TEST;
use clap::error::ErrorKind;
use clap::{ArgMatches, Command, Error};
use rdm_frame::standard::MOST_SUB_DEVICES;
use rdm_standard_names::KIND_WORDS;
use std::alloc::{AllocError, Global};

/// The option that names a fixture file.
pub const FIXTURE: &str = "fixture";
/// The option for words in place of the trace.
pub const WORDS: &str = "words";
/// The option that names a file for the chart of a run.
pub const CHART: &str = "chart";
/// The option that names a file for the results of expectations.
pub const JUNIT: &str = "junit";
/// The option that names the file of a chart.
pub const OUTPUT: &str = "output";
/// The argument that names the text that is read.
pub const INPUT: &str = "input";
/// The argument that names a parameter.
pub const PARAMETER: &str = "parameter";
/// The option for the number of sub-devices.
pub const SUBS: &str = "subs";
/// The option that names a file for the values of a fixture.
pub const SAVED: &str = "saved";
/// The option for how many of each fixture there are.
pub const COUNT: &str = "count";
/// The option for what is on the line if several fixtures answer at once.
pub const COLLISION: &str = "collision";
/// Of a collision all bits of all answers are on the line.
pub const ALL_BITS: &str = "all-bits";
/// Of a collision the first answer alone is on the line.
pub const FIRST: &str = "first";
/// Of a collision rubbish is on the line.
pub const RUBBISH: &str = "rubbish";
/// The option for a kind of things of which the names are listed.
pub const NAMES: &str = "names";
/// The option that names the port of an interface.
pub const PORT: &str = "port";
/// The option that names a file for the trace of a line; and its format, unless something else is asked for.
pub const TRACE: &str = "trace";
/// The option for the format of that file.
pub const TRACE_AS: &str = "trace-as";
/// Frames as a capture, which Wireshark opens.
pub const PCAPNG: &str = "pcapng";
/// The option for how long an interface is waited for.
pub const LIMIT: &str = "limit";
/// The argument that names a device.
pub const UID: &str = "uid";
/// The option for a sub-device.
pub const SUB: &str = "sub";
/// The argument for the data of a command.
pub const DATA: &str = "data";
/// The option for how fast time passes.
pub const SPEED: &str = "speed";
/// The option for the order of a list.
pub const BY: &str = "by";
/// By what a list can be ordered: the UID, unless something else is asked for.
pub const BY_UID: &str = "uid";
/// By the start address.
pub const BY_ADDRESS: &str = "address";
/// By the model.
pub const BY_MODEL: &str = "model";
/// By the label.
pub const BY_LABEL: &str = "label";
/// The option for the form of a list.
pub const FORMAT: &str = "format";
/// A list as a table, unless something else is asked for.
pub const TABLE: &str = "table";
/// A list as CSV.
pub const CSV: &str = "csv";
/// A list as JSON.
pub const JSON: &str = "json";
/// A list as a page for a browser.
pub const HTML: &str = "html";
/// A value alone, without words.
pub const PLAIN: &str = "plain";
/// The option for where something comes from: the first start address, a file, or the UID of the console.
pub const FROM: &str = "from";
/// The option for how many slots stay free between two devices.
pub const GAP: &str = "gap";
/// The option without which nothing is set that is proposed.
pub const YES: &str = "yes";
/// The argument that names the file of a survey.
pub const FILE: &str = "file";
/// The argument for whether a device identifies itself.
pub const SWITCH: &str = "switch";
/// A device identifies itself.
pub const ON: &str = "on";
/// It doesn't.
pub const OFF: &str = "off";
/// In place of a UID: all devices of the line. As an option: all replies, and not only the wrong ones.
pub const ALL: &str = "all";

/// How many fixtures there are on a line at most.
pub const MOST_FIXTURES: u16 = 512;

/// What can be on the line if several fixtures answer at once.
const COLLISIONS: &[&str] = &[ALL_BITS, FIRST, RUBBISH];

pub(crate) const SCRIPT: Argument = Argument {
    id: INPUT,
    form: Form::Place,
    value: "SCRIPT",
    help: "The script; standard input if omitted or -",
};

const TRACE_TEXT: Argument = Argument {
    id: INPUT,
    form: Form::Place,
    value: "TRACE",
    help: "The trace, or a pcap or pcapng capture; standard\ninput if omitted or -",
};

const FIXTURE_FOR_WORDS: Argument = Argument {
    id: FIXTURE,
    form: Form::Option,
    value: "FILE",
    help: "The fixture for sensor units and status texts;\nstandard input if -, none if omitted",
};

pub(crate) const IN_WORDS: Argument = Argument {
    id: WORDS,
    form: Form::Flag,
    value: "",
    help: "Print the trace in words",
};

pub(crate) const RESULTS: Argument = Argument {
    id: JUNIT,
    form: Form::Option,
    value: "FILE.xml",
    help: "Also write the results of expectations to this file,\nas JUnit XML; if -, print it instead of the trace",
};

const SUB_DEVICES: Argument = Argument {
    id: SUBS,
    form: Form::Number16(0, MOST_SUB_DEVICES),
    value: "N",
    help: "The number of sub-devices; if omitted, all of the\nfile's, or none without a file",
};

/// What `felosumay play` takes.
const OF_PLAY: &[Argument] = &[
    SCRIPT,
    Argument {
        id: FIXTURE,
        form: Form::Option,
        value: "FILE",
        help: "The fixture to play it on; - for standard input,\nthe demonstration fixture by default",
    },
    IN_WORDS,
    Argument {
        id: CHART,
        form: Form::Option,
        value: "FILE.svg",
        help: "Also write a chart of the trace to this file;\nif -, print the chart instead of the trace",
    },
    RESULTS,
];

/// What `felosumay words` takes.
const OF_WORDS: &[Argument] = &[
    TRACE_TEXT,
    FIXTURE_FOR_WORDS,
    Argument {
        id: FORMAT,
        form: Form::OneOf(&[WORDS, PCAPNG]),
        value: "FORMAT",
        help: "The output format: words, or a capture of the frames;\nwords by default\n",
    },
];

/// What `felosumay chart` takes.
const OF_CHART: &[Argument] = &[
    TRACE_TEXT,
    Argument {
        id: OUTPUT,
        form: Form::Letter('o'),
        value: "FILE.svg",
        help: "The file to write the chart to; standard output\nif omitted or -",
    },
    FIXTURE_FOR_WORDS,
];

/// What `felosumay check` takes.
const OF_CHECK: &[Argument] = &[
    TRACE_TEXT,
    Argument {
        id: FIXTURE,
        form: Form::Option,
        value: "FILE",
        help: "The fixture that replied; - for standard input,\nthe demonstration fixture by default",
    },
    SUB_DEVICES,
    Argument {
        id: ALL,
        form: Form::Flag,
        value: "",
        help: "Also print the replies that are right, and those that\ncan't be judged",
    },
];

/// What `felosumay fixture` takes.
const OF_FIXTURE: &[Argument] = &[
    Argument {
        id: INPUT,
        form: Form::RequiredPlace,
        value: "FILE",
        help: "The fixture file; standard input if -",
    },
    Argument {
        id: NAMES,
        form: Form::Alone(&KIND_WORDS),
        value: "KIND",
        help: "Instead list the names that a fixture file can have for\nits sensors, units, prefixes, categories, slots or labels",
    },
];

/// What `felosumay parameters` takes.
const OF_PARAMETERS: &[Argument] = &[
    Argument {
        id: PARAMETER,
        form: Form::Place,
        value: "NAME",
        help: "A parameter, by name or PID; all of them if omitted",
    },
    Argument {
        id: FIXTURE,
        form: Form::Option,
        value: "FILE",
        help: "The fixture; standard input if -,\nthe demonstration fixture if omitted",
    },
];

/// What `felosumay widget` takes.
const OF_WIDGET: &[Argument] = &[
    Argument {
        id: FIXTURE,
        form: Form::Each,
        value: "FILE",
        help: "A fixture on the line, given once for each, or\n'FILE*N' for N of them; the demonstration fixture\nif omitted",
    },
    Argument {
        id: COUNT,
        form: Form::Number16(1, MOST_FIXTURES),
        value: "N",
        help: "How many of each fixture without *N, with consecutive\ndevice IDs; 1 by default",
    },
    Argument {
        id: COLLISION,
        form: Form::OneOf(COLLISIONS),
        value: "RULE",
        help: "The bytes on the line if several answer at once;\nall-bits by default\n",
    },
    SUB_DEVICES,
    Argument {
        id: SPEED,
        form: Form::Number32(1, 1000000),
        value: "N",
        help: "Run slow commands N times faster; 1 if omitted",
    },
    Argument {
        id: SAVED,
        form: Form::Option,
        value: "FILE",
        help: "Keep the fixture's values in this file across restarts",
    },
];

/// The subcommands but `line`: the name of each, what it does, and what it takes.
const SUBCOMMANDS: &[(&str, &str, &[Argument])] = &[
    (
        "play",
        "Play a script on a fixture and print the trace",
        OF_PLAY,
    ),
    (
        "words",
        "Decode a trace, frames in hexadecimal digits or a capture",
        OF_WORDS,
    ),
    (
        "chart",
        "Draw a trace or a capture as a sequence chart in SVG",
        OF_CHART,
    ),
    (
        "check",
        "Check the replies in a trace or a capture against the reply rules",
        OF_CHECK,
    ),
    (
        "fixture",
        "Check a fixture file and print what a controller will find",
        OF_FIXTURE,
    ),
    (
        "parameters",
        "List a fixture's parameters and the data that they accept",
        OF_PARAMETERS,
    ),
    (
        "test",
        "Test a device on a line with scripts, such as those of suite/",
        OF_TEST,
    ),
    (
        "widget",
        "Run virtual fixtures as an ENTTEC DMX USB Pro on stdin and stdout",
        OF_WIDGET,
    ),
];

/// What the arguments ask for, the program's name first.
pub fn matches<'a>(alloc: Global, words: &'a [String]) -> Result<ArgMatches<'a>, Error> {
    let matches = command(alloc)?.try_get_matches_from(words)?;
    match matches.subcommand() {
        Some(("line", asked)) if asked.get_str(PORT).is_none() => Err(missing(
            alloc,
            "the following required arguments were not provided:\n  --port <PATH>",
        )?),
        Some(("line", asked)) if is_without_trace(asked) => Err(missing(
            alloc,
            "the following required arguments were not provided:\n  --trace <FILE>",
        )?),
        _ => Ok(matches),
    }
}

/// Whether a format is asked for, and no trace.
fn is_without_trace(asked: &ArgMatches<'_>) -> bool {
    asked.contains_id(TRACE_AS) && asked.get_str(TRACE).is_none()
}

/// The error of a line without an argument that it needs. An option that may also stand behind an errand can't be required by the parser.
fn missing(alloc: Global, message: &str) -> Result<Error, AllocError> {
    crate::line::command(alloc)?
        .bin_name("felosumay line")?
        .error(ErrorKind::MissingRequiredArgument, message)
}

/// The program, with its subcommands.
fn command<'a>(alloc: Global) -> Result<Command<'a>, AllocError> {
    let mut subcommands = Vec::new(alloc);
    push_all(alloc, &mut subcommands)?;
    program(alloc)
        .subcommands(subcommands)?
        .bin_name("felosumay")
}

/// Puts all subcommands at the end of a list.
fn push_all<'a>(alloc: Global, list: &mut Vec<Command<'a>>) -> Result<(), AllocError> {
    push_subcommands(alloc, SUBCOMMANDS, list)?;
    list.push(crate::line::command(alloc)?)?;
    Ok(())
}

/// The program, without its subcommands.
fn program<'a>(alloc: Global) -> Command<'a> {
    described(alloc)
        .subcommand_required(true)
        .arg_required_else_help(true)
        .propagate_version(true)
}

/// The program, with what its help says of it.
fn described<'a>(alloc: Global) -> Command<'a> {
    Command::new(alloc, "felosumay")
        .about("RDM (ANSI E1.20-2010) tools for console and fixture makers")
        .version("0.1.0")
        .after_help(
            "Exit status: 0 on success, 1 for invalid input, 2 if out of memory,\n3 if a run stops early, 4 if reading or writing fails, 64 for a usage error.",
        )
}
