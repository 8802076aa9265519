//! What `clap` reads of words.

ghost use Rattle.std.specs.Prelude.{◌≡◌, [], List, IfOk, IfErr, map, string_bytes, codes, true, false};
ghost use Rattle.clap.specs.Simple.{app_of, with_rule};
ghost use Rattle.pw_top_words.specs.CommandLine.{is_among};
ghost use Rattle.pw_top_words.specs.Reading.{HasParts, IsRefusal, app_for, are_distinct, operand_id, option_argument};

use crate::fault::{WordsFault, fault_of};
use clap::{Arg, ArgAction, ArgMatches, Command};
use std::alloc::{AllocError, Global};

/// The argument that a word without an option is.
pub const OPERAND: &str = "operand";

/// A command that takes one more option, with a value of its own.
fn with_option<'a>(
    alloc: Global,
    command: Command<'a>,
    name: &'a str,
) -> Result<Command<'a>, AllocError>
    ensures { IfOk result (λ c. app_of c ≡ with_rule (app_of command.entry) (option_argument name.now)) }
{
    let argument = Arg::new(alloc, name).long(name).action(ArgAction::Set);
    command.arg(argument)
}

/// A command that takes no word.
fn without_options<'a>(alloc: Global) -> Command<'a>
    ensures { app_of result ≡ app_for [] false }
{
    Command::new(alloc, "pawc")
        .disable_help_flag(true)
        .disable_version_flag(true)
}

/// A command with these options, each with a value of its own, that takes no other word.
fn with_options<'a>(alloc: Global, options: &[&'a str]) -> Result<Command<'a>, AllocError>
    ensures { IfOk result (λ c. app_of c ≡ app_for (map (λ o. o.now) options.now) false) }
{
    let mut command = without_options(alloc);
    for option in options {
        command = with_option(alloc, command, *option)?;
    }
    Ok(command)
}

/// A command with these options that takes one other word, or none.
fn command_for<'a>(
    alloc: Global,
    options: &[&'a str],
    takes_operand: bool,
) -> Result<Command<'a>, AllocError>
    ensures { IfOk result (λ c. app_of c ≡ app_for (map (λ o. o.now) options.now) takes_operand) }
{
    let command = with_options(alloc, options)?;
    if !takes_operand {
        return Ok(command);
    }
    let operand = Arg::new(alloc, OPERAND)
        .required(true)
        .action(ArgAction::Set);
    command.arg(operand)
}

/// The parts of a command line, whose first word is the command's name.
pub fn read_parts<'a>(
    alloc: Global,
    words: &'a [String],
    options: &[&'a str],
    takes_operand: bool,
) -> Result<ArgMatches<'a>, WordsFault>
    requires { are_distinct (map (λ o. o.now) options.now) ≡ true }
    ensures parts { IfOk result (HasParts (map (λ o. o.now) options.now) takes_operand (map string_bytes words.now)) }
    ensures refusal { IfErr result (IsRefusal (map (λ o. o.now) options.now) takes_operand (map string_bytes words.now)) }
{
    let command = command_for(alloc, options, takes_operand)?;
    match command.try_get_matches_from(words) {
        Ok(matches) => Ok(matches),
        Err(error) => Err(fault_of(&error)),
    }
}
