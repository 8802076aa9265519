//! The command that words say.

ghost use Rattle.std.specs.Prelude.{◌≡◌, ◌≢◌, ◌≤◌, ℕ, List, None, Err, IfErr, IfOk, drop, map, string_bytes, codes, option_map, option_and_then, Option};
ghost use Rattle.clap.specs.Matches.{first_value, found_of};
ghost use Rattle.pw_top_switch.specs.Switch.{is_switched, unswitched};
ghost use Rattle.pw_top_words.specs.CommandLine.{Part, Reads, colours_in, command_of, go_of, command_by_name, module_in, number_or, parts_of, seed_in, stack_in, steps_in, build_opts_in, run_opts_in, build_of, session_of, bench_of, phase_one_of, phase_two_of, analyse_of, link_of, run_of, list_of, db_of, where_of, call_in, call_limit, digits_limit, usual_stack, steps_limit, seed_limit, usual_steps, preprocess_of, interp_of};
ghost use Rattle.pw_top_words.specs.Reading.{IsMatchOf};

use crate::commands::Command;
use crate::fault::WordsFault;
use crate::numbers::{DIGITS_LIMIT, number_in};
use crate::reader::{OPERAND, read_parts};
use clap::ArgMatches;
use pw_build_opts::{Opts, RunOpts};
use pw_db::COLOUR_LIMIT;
use pw_store_modules::is_module_name;
use pw_top_switch::line_of;
use pw_value::limits::{STACK_LEAST, STACK_LIMIT};
use pw_value::{Name, NameError};
use std::alloc::Global;

/// How many registers webs may have.
const COLOURS: &str = "colours";

/// The bytes of the stack.
const STACK: &str = "stack";

/// How many instructions a run may take.
const STEPS: &str = "steps";

/// The options of a build, and of a build and a run.
const BUILD: [&str; 2] = [COLOURS, STACK];

const BUILD_AND_RUN: [&str; 3] = [COLOURS, STACK, STEPS];

/// The options of the other commands that have some.
const ANALYSE: [&str; 1] = [COLOURS];

const LINK: [&str; 1] = [STACK];

const RUN: [&str; 1] = [STEPS];

/// The greatest count of registers of webs, and the one that stands for none given.
const WIDE_COLOUR_LIMIT: u64 = COLOUR_LIMIT as u64;

/// The stack that stands for none given.
pub const USUAL_STACK: u64 = 1_048_576;

/// The greatest count of instructions of a run.
pub const STEPS_LIMIT: u64 = 4_611_686_018_427_387_904;

/// The greatest number of a call.
const CALL_LIMIT: u64 = 4_611_686_018_427_387_904;

/// The greatest number from which modules are made.
pub const SEED_LIMIT: u64 = 4_294_967_295;

/// The count of instructions that stands for none given.
pub const USUAL_STEPS: u64 = 100_000_000;

/// The numbers are those that the definitions speak of.
pub fn limits_of_a_command()
    ensures stack { USUAL_STACK ≡ usual_stack }
    ensures steps { STEPS_LIMIT ≡ steps_limit }
    ensures seed { SEED_LIMIT ≡ seed_limit }
    ensures call { CALL_LIMIT ≡ call_limit }
    ensures usual_steps { USUAL_STEPS ≡ usual_steps }
    ensures digits { DIGITS_LIMIT ≡ digits_limit }
{}

/// The number that is given to an option, within limits, or what stands for it.
fn number_or(
    matches: &ArgMatches,
    option: &str,
    least: u64,
    most: u64,
    usual: u64,
) -> Result<u64, WordsFault>
    requires { usual ≤ most }
    ensures read { Reads (number_or least most usual (first_value (found_of matches.now) option.now)) result }
    ensures within { IfOk result (λ n. n ≤ most) }
    ensures no_memory { IfErr result (λ fault. fault ≢ WordsFault.NoMemory) }
{
    match matches.get_str(option) {
        None => Ok(usual),
        Some(text) => number_in(least, most, text).ok_or(WordsFault::Usage),
    }
}

/// How many registers webs may have, by the words.
fn colours(matches: &ArgMatches) -> Result<u8, WordsFault>
    ensures read { (parts : List Part) → IsMatchOf parts matches.now → Reads (colours_in parts) result }
    ensures no_memory { IfErr result (λ fault. fault ≢ WordsFault.NoMemory) }
{
    Ok(number_or(matches, COLOURS, 0, WIDE_COLOUR_LIMIT, WIDE_COLOUR_LIMIT)? as u8)
}

/// The bytes of the stack, by the words.
fn stack(matches: &ArgMatches) -> Result<u32, WordsFault>
    ensures read { (parts : List Part) → IsMatchOf parts matches.now → Reads (stack_in parts) result }
    ensures no_memory { IfErr result (λ fault. fault ≢ WordsFault.NoMemory) }
{
    Ok(number_or(
        matches,
        STACK,
        u64::from(STACK_LEAST),
        u64::from(STACK_LIMIT),
        USUAL_STACK,
    )? as u32)
}

/// How many instructions a run may take, by the words.
fn steps(matches: &ArgMatches) -> Result<u64, WordsFault>
    ensures read { (parts : List Part) → IsMatchOf parts matches.now → Reads (steps_in parts) result }
    ensures no_memory { IfErr result (λ fault. fault ≢ WordsFault.NoMemory) }
{
    number_or(matches, STEPS, 1, STEPS_LIMIT, USUAL_STEPS)
}

/// The options of a build, by the words and by whether the switch was there.
fn build_opts(matches: &ArgMatches, optimise: bool) -> Result<Opts, WordsFault>
    ensures read { (parts : List Part) → IsMatchOf parts matches.now → Reads (build_opts_in optimise parts) result }
    ensures no_memory { IfErr result (λ fault. fault ≢ WordsFault.NoMemory) }
{
    Ok(Opts {
        colours: colours(matches)?,
        stack: stack(matches)?,
        optimise,
    })
}

/// The options of a build and a run, by the words and by whether the switch was there.
fn run_opts(matches: &ArgMatches, optimise: bool) -> Result<RunOpts, WordsFault>
    ensures read { (parts : List Part) → IsMatchOf parts matches.now → Reads (run_opts_in optimise parts) result }
    ensures no_memory { IfErr result (λ fault. fault ≢ WordsFault.NoMemory) }
{
    Ok(RunOpts {
        build: build_opts(matches, optimise)?,
        budget: steps(matches)?,
    })
}

/// The module that the words name.
fn module(alloc: Global, matches: &ArgMatches) -> Result<Name, WordsFault>
    ensures read { (parts : List Part) → IsMatchOf parts matches.now → Reads (module_in parts) result }
    ensures usage { (parts : List Part) → IsMatchOf parts matches.now → module_in parts ≡ None → result ≡ Err WordsFault.Usage }
{
    let Some(name) = matches.get_str(OPERAND) else {
        return Err(WordsFault::Usage);
    };
    if !is_module_name(name.as_bytes()) {
        return Err(WordsFault::Usage);
    }
    match Name::new(alloc, name.as_bytes()) {
        Ok(name) => Ok(name),
        Err(NameError::NoMemory) => Err(WordsFault::NoMemory),
        Err(NameError::Length) => Err(WordsFault::Usage),
    }
}

/// The number from which modules are made, by the words.
fn seed(matches: &ArgMatches) -> Result<u32, WordsFault>
    ensures read { (parts : List Part) → IsMatchOf parts matches.now → Reads (seed_in parts) result }
    ensures no_memory { IfErr result (λ fault. fault ≢ WordsFault.NoMemory) }
{
    let Some(text) = matches.get_str(OPERAND) else {
        return Err(WordsFault::Usage);
    };
    match number_in(0, SEED_LIMIT, text) {
        Some(number) => Ok(number as u32),
        None => Err(WordsFault::Usage),
    }
}

/// The number of a call, by the words.
fn call(matches: &ArgMatches) -> Result<u64, WordsFault>
    ensures read { (parts : List Part) → IsMatchOf parts matches.now → Reads (call_in parts) result }
    ensures no_memory { IfErr result (λ fault. fault ≢ WordsFault.NoMemory) }
{
    let Some(text) = matches.get_str(OPERAND) else {
        return Err(WordsFault::Usage);
    };
    match number_in(1, CALL_LIMIT, text) {
        Some(number) => Ok(number),
        None => Err(WordsFault::Usage),
    }
}

fn go(alloc: Global, words: &[String], optimise: bool) -> Result<Command, WordsFault>
    ensures { Reads (go_of optimise (drop 1 (map string_bytes words.now))) result }
{
    let matches = read_parts(alloc, words, &BUILD_AND_RUN, false)?;
    Ok(Command::Go(run_opts(&matches, optimise)?))
}

fn build(alloc: Global, words: &[String], optimise: bool) -> Result<Command, WordsFault>
    ensures { Reads (build_of optimise (drop 1 (map string_bytes words.now))) result }
{
    let matches = read_parts(alloc, words, &BUILD, false)?;
    Ok(Command::Build(build_opts(&matches, optimise)?))
}

fn session(alloc: Global, words: &[String], optimise: bool) -> Result<Command, WordsFault>
    ensures { Reads (session_of optimise (drop 1 (map string_bytes words.now))) result }
{
    let matches = read_parts(alloc, words, &BUILD_AND_RUN, false)?;
    Ok(Command::Session(run_opts(&matches, optimise)?))
}

fn preprocess(alloc: Global, words: &[String]) -> Result<Command, WordsFault>
    ensures { Reads (preprocess_of (drop 1 (map string_bytes words.now))) result }
{
    let matches = read_parts(alloc, words, &[], true)?;
    Ok(Command::Preprocess(module(alloc, &matches)?))
}

fn phase_one(alloc: Global, words: &[String], optimise: bool) -> Result<Command, WordsFault>
    ensures { Reads (phase_one_of optimise (drop 1 (map string_bytes words.now))) result }
{
    let matches = read_parts(alloc, words, &[], true)?;
    Ok(Command::PhaseOne {
        name: module(alloc, &matches)?,
        optimise,
    })
}

fn analyse(alloc: Global, words: &[String]) -> Result<Command, WordsFault>
    ensures { Reads (analyse_of (drop 1 (map string_bytes words.now))) result }
{
    let matches = read_parts(alloc, words, &ANALYSE, false)?;
    Ok(Command::Analyse {
        colours: colours(&matches)?,
    })
}

fn phase_two(alloc: Global, words: &[String]) -> Result<Command, WordsFault>
    ensures { Reads (phase_two_of (drop 1 (map string_bytes words.now))) result }
{
    let matches = read_parts(alloc, words, &[], true)?;
    Ok(Command::PhaseTwo(module(alloc, &matches)?))
}

fn link(alloc: Global, words: &[String]) -> Result<Command, WordsFault>
    ensures { Reads (link_of (drop 1 (map string_bytes words.now))) result }
{
    let matches = read_parts(alloc, words, &LINK, false)?;
    Ok(Command::Link {
        stack: stack(&matches)?,
    })
}

fn run(alloc: Global, words: &[String]) -> Result<Command, WordsFault>
    ensures { Reads (run_of (drop 1 (map string_bytes words.now))) result }
{
    let matches = read_parts(alloc, words, &RUN, false)?;
    Ok(Command::Run {
        steps: steps(&matches)?,
    })
}

fn list(alloc: Global, words: &[String]) -> Result<Command, WordsFault>
    ensures { Reads (list_of (drop 1 (map string_bytes words.now))) result }
{
    let _matches = read_parts(alloc, words, &[], false)?;
    Ok(Command::List)
}

fn db(alloc: Global, words: &[String]) -> Result<Command, WordsFault>
    ensures { Reads (db_of (drop 1 (map string_bytes words.now))) result }
{
    let _matches = read_parts(alloc, words, &[], false)?;
    Ok(Command::Db)
}

fn bench(alloc: Global, words: &[String], optimise: bool) -> Result<Command, WordsFault>
    ensures { Reads (bench_of optimise (drop 1 (map string_bytes words.now))) result }
{
    let matches = read_parts(alloc, words, &BUILD_AND_RUN, true)?;
    Ok(Command::Bench {
        number: seed(&matches)?,
        opts: run_opts(&matches, optimise)?,
    })
}

fn show_call(alloc: Global, words: &[String], optimise: bool) -> Result<Command, WordsFault>
    ensures { Reads (where_of optimise (drop 1 (map string_bytes words.now))) result }
{
    let matches = read_parts(alloc, words, &BUILD_AND_RUN, true)?;
    Ok(Command::Where {
        call: call(&matches)?,
        opts: run_opts(&matches, optimise)?,
    })
}

fn interp(alloc: Global, words: &[String], optimise: bool) -> Result<Command, WordsFault>
    ensures { Reads (interp_of optimise (drop 1 (map string_bytes words.now))) result }
{
    let matches = read_parts(alloc, words, &BUILD_AND_RUN, false)?;
    Ok(Command::Interp(run_opts(&matches, optimise)?))
}

/// The command of a name, by the words, of which the first is the name, and by the words without the switch.
#[tactic(auto, unfolding(crate::specs::CommandLine::command_by_name))]
fn command_named(
    alloc: Global,
    name: &str,
    words: &[String],
    others: &[String],
    optimise: bool,
) -> Result<Command, WordsFault>
    ensures { Reads (command_by_name name.now optimise (drop 1 (map string_bytes others.now)) (drop 1 (map string_bytes words.now))) result }
{
    match name {
        "go" => go(alloc, others, optimise),
        "build" => build(alloc, others, optimise),
        "session" => session(alloc, others, optimise),
        "cpp" => preprocess(alloc, words),
        "phase1" => phase_one(alloc, others, optimise),
        "analyse" => analyse(alloc, words),
        "phase2" => phase_two(alloc, words),
        "link" => link(alloc, words),
        "run" => run(alloc, words),
        "list" => list(alloc, words),
        "db" => db(alloc, words),
        "bench" => bench(alloc, others, optimise),
        "where" => show_call(alloc, others, optimise),
        "interp" => interp(alloc, others, optimise),
        _ => Err(WordsFault::Usage),
    }
}

/// The command of a name, by the words, of which the first is the name.
fn command_behind(alloc: Global, name: &str, words: &[String]) -> Result<Command, WordsFault>
    ensures { Reads (command_by_name name.now (is_switched (drop 1 (map string_bytes words.now))) (unswitched (drop 1 (map string_bytes words.now))) (drop 1 (map string_bytes words.now))) result }
{
    let line = line_of(alloc, words)?;
    command_named(alloc, name, words, &line.words, line.optimise)
}

/// The command that words say, the first of which is its name.
///
/// Options stand in any order and between the other words, each at most once; their values are the next word or
/// follow `=`, and `--` ends them. `Usage` is answered exactly where the words are no command line, unless there is
/// no memory.
pub fn command(alloc: Global, words: &[String]) -> Result<Command, WordsFault>
    ensures { Reads (command_of (map string_bytes words.now)) result }
{
    match words {
        [name, ..] => command_behind(alloc, name.as_str(), words),
        [] => Err(WordsFault::Usage),
    }
}
