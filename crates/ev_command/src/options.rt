// A command's options, as `clap` parses them.

ghost use Rattle.std.specs.Prelude.{◌≡◌, IfOk, List, MatchOption, Some, [], ◌∷◌, codes, map, true, false};
ghost use Rattle.std.specs.List.{list_any};
ghost use Rattle.std.specs.Str.{bytes_eq};
ghost use Rattle.clap.specs.Words.{app_of, found_of, is_simple_and_free, new_rule, rows_of, rule_of};
ghost use Rattle.ev_command.specs.Apps.{IsRefusedBy, IsTakenBy, asked, mode_and_frames, mode_and_turns};
ghost use Rattle.ev_command.specs.Apps.{seed_and_count};

use clap::error::ErrorKind;
use clap::{Arg, ArgAction, ArgMatches, Command};
use ev_isa::NoMemory;
use std::alloc::{AllocError, Global};

/// The option `--name VALUE`.
fn valued<'a>(alloc: Global, name: &'a str) -> Arg<'a>
    ensures rule { rule_of result ≡ record (new_rule name.entry.now)
        { long = Some name.entry.now; action = Some ArgAction.Set } }
    ensures global { result.global ≡ false }
{
    Arg::new(alloc, name).long(name).action(ArgAction::Set)
}

/// The option `--name`.
fn flag<'a>(alloc: Global, name: &'a str) -> Arg<'a>
    ensures rule { rule_of result ≡ record (new_rule name.entry.now)
        { long = Some name.entry.now; action = Some ArgAction.SetTrue } }
    ensures global { result.global ≡ false }
{
    Arg::new(alloc, name).long(name).action(ArgAction::SetTrue)
}

/// A command with no option, whose words are all its own.
pub fn bare<'a>(alloc: Global) -> Command<'a>
    ensures { app_of result ≡ asked [] }
{
    Command::new(alloc, "fredbox")
        .no_binary_name(true)
        .disable_help_flag(true)
        .disable_version_flag(true)
}

/// The options of `run`.
pub fn run_options<'a>(alloc: Global) -> Result<Command<'a>, AllocError>
    ensures { IfOk result (λ r. app_of r ≡ asked mode_and_frames) }
{
    bare(alloc)
        .arg(valued(alloc, "mode"))?
        .arg(flag(alloc, "frames"))
}

/// The options of `gen`.
pub fn gen_options<'a>(alloc: Global) -> Result<Command<'a>, AllocError>
    ensures { IfOk result (λ r. app_of r ≡ asked seed_and_count) }
{
    bare(alloc)
        .arg(valued(alloc, "seed"))?
        .arg(valued(alloc, "count"))
}

/// The options of `threads`.
pub fn threads_options<'a>(alloc: Global) -> Result<Command<'a>, AllocError>
    ensures { IfOk result (λ r. app_of r ≡ asked mode_and_turns) }
{
    bare(alloc)
        .arg(valued(alloc, "mode"))?
        .arg(valued(alloc, "turns"))
}

/// Whether one of the words is `--`.
fn any_dashes(words: &[&str]) -> bool
    ensures { result ≡ list_any (λ w. bytes_eq w.now (codes "--")) words.now }
{
    words.iter().any(|w| *w == "--")
}

/// The matches of the words, if the command takes them. The word `--` is refused here, since `clap`
/// takes it.
pub fn matches_in<'a>(
    command: Command<'a>,
    words: &'a [&'a str],
) -> Result<Option<ArgMatches<'a>>, NoMemory>
    requires { is_simple_and_free (app_of command) ≡ true }
    ensures { let ws = map (λ w. w.now) words.entry.now in
        IfOk result (λ o. MatchOption o (IsRefusedBy (app_of command.entry) ws)
        (λ m. IsTakenBy (app_of command.entry) ws (rows_of (found_of m)))) }
{
    if any_dashes(words) {
        return Ok(None);
    }
    match command.try_get_matches_from(words) {
        Ok(matches) => Ok(Some(matches)),
        Err(error) => {
            if error.kind() == ErrorKind::OutOfMemory {
                Err(NoMemory)
            } else {
                Ok(None)
            }
        }
    }
}
