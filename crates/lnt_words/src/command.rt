//! The command, its subcommands and their arguments, built for clap.
ghost use Rattle.std.specs.Prelude.{◌≡◌, false, fold, IfOk};
ghost use Rattle.clap.specs.Words.{App, app_of, new_rule};
ghost use Rattle.lnt_words.specs.Described.{IsArgument, IsCommand, app_in, rule_in, with_argument_in, with_subcommand_in};
ghost use Rattle.lnt_words.specs.Words.{linetab, option};

use crate::description::{ArgumentRule, Kind, SUBCOMMANDS, Subcommand, VERSION};
use clap::{Arg, ArgAction, Command};
use std::alloc::{AllocError, Global};

/// The command with all its subcommands and arguments, for clap. If `excludes` is set, clap also rejects arguments that
/// exclude one another.
pub(crate) fn command_of<'a>(alloc: Global, excludes: bool) -> Result<Command<'a>, AllocError>
    ensures { IfOk result (λ command. excludes ≡ false → app_of command ≡ linetab) }
{
    let command = Command::new(alloc, "linetab")
        .about("Reads and checks DWARF 5 line number sections")
        .version(VERSION)
        .subcommand_required(true);
    // A copy of the array: a reference to the constant is twice as costly to prove.
    let subcommands = SUBCOMMANDS;
    with_subcommands(alloc, command, &subcommands, excludes)
}

// The command with these subcommands too.
fn with_subcommands<'a>(
    alloc: Global,
    mut command: Command<'a>,
    subcommands: &[Subcommand],
    excludes: bool,
) -> Result<Command<'a>, AllocError>
    ensures { IfOk result (λ made. excludes ≡ false → (app : App) → IsCommand app command.entry
        → IsCommand (fold with_subcommand_in app subcommands.now) made) }
{
    for subcommand in subcommands {
        let made = subcommand_of(alloc, subcommand, excludes)?;
        command = command.subcommand(made)?;
    }
    Ok(command)
}

fn subcommand_of<'a>(
    alloc: Global,
    subcommand: &Subcommand,
    excludes: bool,
) -> Result<Command<'a>, AllocError>
    ensures { IfOk result (λ command. excludes ≡ false → IsCommand (app_in subcommand.now) command) }
{
    let command = Command::new(alloc, subcommand.name).about(subcommand.about);
    let command = with_after(command, subcommand.after);
    let command = with_arguments(alloc, command, subcommand.own, excludes)?;
    with_arguments(alloc, command, subcommand.shared, excludes)
}

// The command with this text after its help.
fn with_after<'a>(command: Command<'a>, text: Option<&'a str>) -> Command<'a>
    ensures { (app : App) → IsCommand app command.entry → IsCommand app result }
{
    let Some(text) = text else {
        return command;
    };
    command.after_help(text)
}

// The command with these arguments too.
fn with_arguments<'a>(
    alloc: Global,
    mut command: Command<'a>,
    arguments: &[ArgumentRule],
    excludes: bool,
) -> Result<Command<'a>, AllocError>
    ensures { IfOk result (λ made. excludes ≡ false → (app : App) → IsCommand app command.entry
        → IsCommand (fold with_argument_in app arguments.now) made) }
{
    for argument in arguments {
        let made = argument_of(alloc, argument, excludes)?;
        command = command.arg(made)?;
    }
    Ok(command)
}

// The argument, and what it excludes if that is asked for.
fn argument_of<'a>(
    alloc: Global,
    argument: &ArgumentRule,
    excludes: bool,
) -> Result<Arg<'a>, AllocError>
    ensures { IfOk result (λ made. excludes ≡ false → IsArgument (rule_in argument.now) made) }
{
    let made = free_argument(alloc, argument);
    if excludes {
        excluding(made, argument.kind)
    } else {
        Ok(made)
    }
}

// The argument without what it excludes.
fn free_argument<'a>(alloc: Global, argument: &ArgumentRule) -> Arg<'a>
    ensures { IsArgument (rule_in argument.now) result }
{
    match argument.kind {
        Kind::Word => named(alloc, argument).action(ArgAction::Set).required(true),
        Kind::WordsUnless(_) => named(alloc, argument)
            .num_args(1..)
            .action(ArgAction::Append),
        Kind::Flag | Kind::FlagWithout(_) | Kind::FlagWithoutBoth(_, _) | Kind::FlagWith(_) => {
            named(alloc, argument)
                .long(argument.name)
                .action(ArgAction::SetTrue)
        }
        Kind::Valued(value) | Kind::ValuedWith(value, _) => valued(alloc, argument, value),
        Kind::Required(value) => valued(alloc, argument, value).required(true),
    }
}

// The argument of this kind, which conflicts with those that it excludes, requires the one that it goes with, and is required if it
// replaces another one.
fn excluding<'a>(argument: Arg<'a>, kind: Kind) -> Result<Arg<'a>, AllocError> {
    match kind {
        Kind::WordsUnless(other) => argument
            .required_unless_present(other)?
            .conflicts_with(other),
        Kind::FlagWithout(other) => argument.conflicts_with(other),
        Kind::FlagWithoutBoth(one, other) => { argument.conflicts_with(one)?.conflicts_with(other) }
        Kind::FlagWith(other) | Kind::ValuedWith(_, other) => argument.requires_arg(other),
        Kind::Word | Kind::Flag | Kind::Valued(_) | Kind::Required(_) => Ok(argument),
    }
}

// The argument with only its name and its help.
fn named<'a>(alloc: Global, argument: &ArgumentRule) -> Arg<'a>
    ensures { IsArgument (new_rule argument.now.name.now) result }
{
    Arg::new(alloc, argument.name).help(argument.help)
}

// The argument as the option `--name VALUE`. `value` is what help calls the value.
fn valued<'a>(alloc: Global, argument: &ArgumentRule, value: &'a str) -> Arg<'a>
    ensures { IsArgument (option argument.now.name.now) result }
{
    named(alloc, argument)
        .long(argument.name)
        .value_name(value)
        .action(ArgAction::Set)
}
