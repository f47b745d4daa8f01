//! The arguments of a command line, as a table has them.

use clap::{Arg, ArgAction, Command, value_parser};
use std::alloc::{AllocError, Global};

/// An argument: the name by which the program asks for it, how it is given, what its value is called in the help, and its help.
#[derive(Clone, Copy)]
pub(crate) struct Argument {
    pub(crate) id: &'static str,
    pub(crate) form: Form,
    pub(crate) value: &'static str,
    pub(crate) help: &'static str,
}

/// How an argument is given.
#[derive(Clone, Copy)]
pub(crate) enum Form {
    /// A text at its place, which may be left out.
    Place,
    /// A text at its place.
    RequiredPlace,
    /// One of these words at its place.
    PlaceOf(&'static [&'static str]),
    /// Any number of words, also negative numbers.
    Words,
    /// One word or more.
    RequiredWords,
    /// `--ID`, without a value.
    Flag,
    /// `--ID TEXT`.
    Option,
    /// `--ID TEXT`, which may not be left out.
    RequiredOption,
    /// `--ID TEXT`, or a letter in place of its name.
    Letter(char),
    /// `--ID TEXT`, any number of times.
    Each,
    /// `--ID NUMBER`, from one to the other.
    Number16(u16, u16),
    /// `--ID NUMBER`, from one to the other.
    Number32(u32, u32),
    /// `--ID WORD`, one of these.
    OneOf(&'static [&'static str]),
    /// The same, in place of all other arguments. The help of the option has the words.
    Alone(&'static [&'static str]),
}

/// Where arguments may stand.
#[derive(Clone, Copy, PartialEq, Eq)]
pub(crate) enum Reach {
    /// Behind the name of their own subcommand.
    Own,
    /// Also behind the name of each subcommand of that.
    All,
}

/// Puts these subcommands at the end of a list: the name of each, what it does, and what it takes.
pub(crate) fn push_subcommands<'a>(
    alloc: Global,
    subcommands: &[(&'static str, &'static str, &'static [Argument])],
    list: &mut Vec<Command<'a>>,
) -> Result<(), AllocError> {
    for &(name, about, takes) in subcommands {
        list.push(subcommand(alloc, name, about, takes)?)?;
    }
    Ok(())
}

/// A subcommand of this name.
fn subcommand<'a>(
    alloc: Global,
    name: &'static str,
    about: &'static str,
    takes: &[Argument],
) -> Result<Command<'a>, AllocError> {
    let arguments = arguments(alloc, takes, Reach::Own)?;
    Command::new(alloc, name).about(about).args(arguments)
}

/// These arguments, in the order of the help.
pub(crate) fn arguments<'a>(
    alloc: Global,
    arguments: &[Argument],
    reach: Reach,
) -> Result<Vec<Arg<'a>>, AllocError> {
    let mut list = Vec::with_capacity(alloc, arguments.len())?;
    push_arguments(alloc, arguments, reach, &mut list)?;
    Ok(list)
}

/// Puts these arguments at the end of a list.
fn push_arguments<'a>(
    alloc: Global,
    arguments: &[Argument],
    reach: Reach,
    list: &mut Vec<Arg<'a>>,
) -> Result<(), AllocError> {
    for argument in arguments {
        list.push(made(alloc, argument).global(reach == Reach::All))?;
    }
    Ok(())
}

/// An argument for the parser.
fn made<'a>(alloc: Global, argument: &Argument) -> Arg<'a> {
    match argument.form {
        Form::Place => place(alloc, argument),
        Form::RequiredPlace => place(alloc, argument).required(true),
        Form::PlaceOf(words) => place(alloc, argument).required(true).value_parser(words),
        Form::Words => place(alloc, argument)
            .num_args(0..)
            .allow_negative_numbers(true),
        Form::RequiredWords => place(alloc, argument).num_args(1..).required(true),
        Form::Flag => described(alloc, argument)
            .long(argument.id)
            .action(ArgAction::SetTrue),
        _ => named(alloc, argument),
    }
}

/// An option that has a value.
fn named<'a>(alloc: Global, argument: &Argument) -> Arg<'a> {
    match argument.form {
        Form::RequiredOption => option(alloc, argument).required(true),
        Form::Letter(letter) => option(alloc, argument).short(letter),
        Form::Each => option(alloc, argument).action(ArgAction::Append),
        Form::Number16(least, greatest) => option(alloc, argument).value_parser(value_parser!(
            u16
        ).range(i64::from(least)..=i64::from(greatest))),
        Form::Number32(least, greatest) => option(alloc, argument).value_parser(value_parser!(
            u32
        ).range(i64::from(least)..=i64::from(greatest))),
        Form::OneOf(words) => option(alloc, argument).value_parser(words),
        Form::Alone(words) => option(alloc, argument)
            .value_parser(words)
            .hide_possible_values(true)
            .exclusive(true),
        _ => option(alloc, argument),
    }
}

/// An argument with its help.
fn described<'a>(alloc: Global, argument: &Argument) -> Arg<'a> {
    Arg::new(alloc, argument.id).help(argument.help)
}

/// A text at its place.
fn place<'a>(alloc: Global, argument: &Argument) -> Arg<'a> {
    described(alloc, argument)
        .value_name(argument.value)
        .action(ArgAction::Set)
}

/// An option whose value is a text.
fn option<'a>(alloc: Global, argument: &Argument) -> Arg<'a> {
    place(alloc, argument).long(argument.id)
}
