// The command that words say.

ghost use Rattle.std.specs.Prelude.{◌≡◌, IfOk, List, [], codes, map, option_and_then, option_map};
ghost use Rattle.ev_command.specs.Commands.{Gives, IsBuilt, IsExactly, IsGen, IsThreads, Says, SaysBehind};
ghost use Rattle.ev_command.specs.Commands.{gen_by, is_built, mode_by, options_of, run_from, threads_by};
ghost use Rattle.ev_command.specs.declared.command.Command.{Command};

use crate::command::Command;
use crate::number::{count_of, number_of};
use crate::options::{bare, gen_options, matches_in, run_options, threads_options};
use ev_isa::{Mode, NoMemory};
use std::alloc::Global;

/// The mode that the word names.
fn mode_of(word: &str) -> Option<Mode>
    ensures { result ≡ mode_by word.now }
{
    match word {
        "idt" => Some(Mode::Idt),
        "fred" => Some(Mode::Fred),
        _ => None,
    }
}

/// `run` with this value of `--mode`, if any.
fn run_with(mode: Option<&str>, frames: bool) -> Option<Command>
    ensures { result ≡ run_from (option_map (λ w. w.now) mode.entry) frames }
{
    match mode {
        None => Some(Command::Run { mode: None, frames }),
        Some(word) => {
            let one = mode_of(word)?;
            Some(Command::Run {
                mode: Some(one),
                frames,
            })
        }
    }
}

/// The command that the words behind `run` say.
fn run_in<'a>(alloc: Global, words: &'a [&'a str]) -> Result<Option<Command>, NoMemory>
    ensures { let ws = map (λ w. w.now) words.entry.now in
        IfOk result (IsExactly (SaysBehind (codes "run") ws)) }
{
    let command = match run_options(alloc) {
        Ok(command) => command,
        Err(_) => return Err(NoMemory),
    };
    match matches_in(command, words) {
        Ok(Some(matches)) => Ok(run_with(matches.get_str("mode"), matches.get_flag("frames"))),
        Ok(None) => Ok(None),
        Err(_) => Err(NoMemory),
    }
}

/// The mode that the word names, if there is one.
fn mode_given(word: Option<&str>) -> Option<Mode>
    ensures { result ≡ option_and_then mode_by (option_map (λ w. w.now) word.entry) }
{
    mode_of(word?)
}

/// `gen` with these numbers.
fn gen_by(seed: Option<u64>, count: Option<u64>) -> Option<Command>
    ensures { result ≡ gen_by seed count }
{
    Some(Command::Gen {
        seed: seed?,
        count: count?,
    })
}

/// `gen` with these values of its options.
fn gen_with(seed: Option<&str>, count: Option<&str>) -> Option<Command>
    ensures { IsExactly (IsGen (option_map (λ w. w.now) seed.entry)
        (option_map (λ w. w.now) count.entry)) result }
{
    let number = number_of(seed);
    let lines = count_of(count, 200_000);
    gen_by(number, lines)
}

/// `threads` in this mode, with this number of steps.
fn threads_by(mode: Option<Mode>, turns: Option<u64>) -> Option<Command>
    ensures { result ≡ threads_by mode turns }
{
    Some(Command::Threads {
        mode: mode?,
        turns: turns?,
    })
}

/// `threads` with these values of its options.
fn threads_with(mode: Option<&str>, turns: Option<&str>) -> Option<Command>
    ensures { IsExactly (IsThreads (option_map (λ w. w.now) mode.entry)
        (option_map (λ w. w.now) turns.entry)) result }
{
    let one = mode_given(mode);
    let steps = count_of(turns, 10_000);
    threads_by(one, steps)
}

/// The command that the words behind `gen` say.
fn gen_in<'a>(alloc: Global, words: &'a [&'a str]) -> Result<Option<Command>, NoMemory>
    ensures { let ws = map (λ w. w.now) words.entry.now in
        IfOk result (IsExactly (SaysBehind (codes "gen") ws)) }
{
    let command = match gen_options(alloc) {
        Ok(command) => command,
        Err(_) => return Err(NoMemory),
    };
    match matches_in(command, words) {
        Ok(Some(matches)) => Ok(gen_with(matches.get_str("seed"), matches.get_str("count"))),
        Ok(None) => Ok(None),
        Err(_) => Err(NoMemory),
    }
}

/// The command that the words behind `threads` say.
fn threads_in<'a>(alloc: Global, words: &'a [&'a str]) -> Result<Option<Command>, NoMemory>
    ensures { let ws = map (λ w. w.now) words.entry.now in
        IfOk result (IsExactly (SaysBehind (codes "threads") ws)) }
{
    let command = match threads_options(alloc) {
        Ok(command) => command,
        Err(_) => return Err(NoMemory),
    };
    match matches_in(command, words) {
        Ok(Some(matches)) => Ok(threads_with(matches.get_str("mode"), matches.get_str("turns"))),
        Ok(None) => Ok(None),
        Err(_) => Err(NoMemory),
    }
}

/// The command without options, if no words stand behind its own.
fn bare_in<'a>(
    alloc: Global,
    command: Command,
    words: &'a [&'a str],
) -> Result<Option<Command>, NoMemory>
    requires { options_of command ≡ [] }
    ensures { let ws = map (λ w. w.now) words.entry.now in
        IfOk result (IsExactly (λ c. (c ≡ command) × Gives ws c)) }
{
    match matches_in(bare(alloc), words) {
        Ok(Some(_)) => Ok(Some(command)),
        Ok(None) => Ok(None),
        Err(_) => Err(NoMemory),
    }
}

/// The command that the first word and those behind it say.
fn command_behind<'a>(
    alloc: Global,
    first: &str,
    rest: &'a [&'a str],
) -> Result<Option<Command>, NoMemory>
    ensures { let ws = map (λ w. w.now) rest.entry.now in
        IfOk result (IsExactly (SaysBehind first.now ws)) }
{
    match first {
        "run" => run_in(alloc, rest),
        "asm" => bare_in(alloc, Command::Asm, rest),
        "check" => bare_in(alloc, Command::Check, rest),
        "probe" => bare_in(alloc, Command::Probe, rest),
        "gen" => gen_in(alloc, rest),
        "threads" => threads_in(alloc, rest),
        _ => Ok(None),
    }
}

/// The command that the words say.
fn command_said<'a>(alloc: Global, words: &'a [&'a str]) -> Result<Option<Command>, NoMemory>
    ensures { IfOk result (IsExactly (Says (map (λ w. w.now) words.entry.now))) }
{
    match words.split_first() {
        Some((first, rest)) => command_behind(alloc, first, rest),
        None => Ok(None),
    }
}

/// Whether the program has the command today.
fn is_built(command: Command) -> bool
    ensures { result ≡ is_built command }
{
    matches!(
        command,
        Command::Run { .. } | Command::Asm | Command::Check | Command::Probe
    )
}

/// The command that the words say, if they say one that the program has: its own word, and then its
/// options in any order, each at most once, as two words or with `=`. NoMemory means that memory was
/// refused. Own.
pub fn command_of<'a>(alloc: Global, words: &'a [&'a str]) -> Result<Option<Command>, NoMemory>
    ensures { let ws = map (λ w. w.now) words.entry.now in
        IfOk result (IsExactly (λ c. Says ws c × IsBuilt c)) }
{
    let said = command_said(alloc, words)?;
    match said {
        Some(command) => {
            if is_built(command) {
                Ok(Some(command))
            } else {
                Ok(None)
            }
        }
        None => Ok(None),
    }
}
