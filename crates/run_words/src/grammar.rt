//! The grammar of the words, as `clap` takes it.

ghost use Rattle.std.specs.Prelude.{◌≡◌, [], IfOk, false, option_map};
ghost use Rattle.clap.specs.Words.{app_of, rule_of, subcommand_rows_of};
ghost use Rattle.clap.specs.declared.builder.command.Command.TheViews.{out-Command};
ghost use Rattle.run_words.specs.Grammar.{argument_rule, command_shape, taken_in, words_app};
ghost use Rattle.run_words.specs.Words.{texts};

use crate::argument::Argument;
use crate::command::{Command, commands};
use ass_num::{Mem, OutOfMemory};
use clap::error::ErrorKind;
use clap::{Arg, ArgMatches};
use std::alloc::{AllocError, Global};

/// An argument: once, with one value, but for the fonts, which are one or more words, and an option that stands alone.
#[tactic(auto, using(crate::proofs::GrammarLemmas::one_word))]
fn argument<'a>(alloc: Global, argument: Argument) -> Arg<'a>
    ensures rule { rule_of result ≡ argument_rule argument }
    ensures local { result.global ≡ false }
{
    let name: &'a str = argument.name();
    let taken = Arg::new(alloc, name).required(argument.is_required());
    match argument {
        Argument::Fonts => taken.num_args(1..),
        _ if argument.is_positional() => taken,
        _ if argument.stands_alone() => taken.long(name).num_args(0),
        _ => taken.long(name),
    }
}

/// A command with its arguments.
fn subcommand<'a>(alloc: Global, command: Command) -> Result<clap::Command<'a>, AllocError>
    ensures shape { IfOk result (λ c. (app_of c).top ≡ command_shape command) }
    ensures local { IfOk result (λ c. (out-Command c).has_globals ≡ false) }
{
    let mut built = clap::Command::new(alloc, command.name());
    for taken in command.arguments() {
        built = built.arg(argument(alloc, *taken))?;
    }
    Ok(built)
}

/// All commands, of which one is wanted. There is neither help nor a version.
fn whole<'a>(alloc: Global) -> Result<clap::Command<'a>, AllocError>
    ensures { IfOk result (λ c. app_of c ≡ words_app) }
{
    let mut built = clap::Command::new(alloc, "vimalorua")
        .no_binary_name(true)
        .subcommand_required(true)
        .disable_help_flag(true)
        .disable_help_subcommand(true)
        .disable_version_flag(true);
    for command in commands() {
        built = built.subcommand(subcommand(alloc, *command)?)?;
    }
    Ok(built)
}

/// What `clap` finds in words of the grammar; `None` where they aren't of it.
#[inline(never)]
pub fn matches_in<'a>(alloc: Global, words: &'a [String]) -> Mem<Option<ArgMatches<'a>>>
    ensures { IfOk result (λ matches. option_map subcommand_rows_of matches ≡ taken_in (texts words.now)) }
{
    match whole(alloc)?.try_get_matches_from(words) {
        Ok(matches) => Ok(Some(matches)),
        Err(error) => match error.kind() {
            ErrorKind::OutOfMemory => Err(OutOfMemory),
            _ => Ok(None),
        },
    }
}
