//! The command line as it is described to `clap`, and how `clap` matches the words.

ghost use Rattle.std.specs.Prelude.{◌≡◌, ◌∷◌, map, codes, IfOk, option_map};
ghost use Rattle.std.specs.String.{string_bytes};
ghost use Rattle.clap.specs.Words.{app_of, first_of, with_rule};
ghost use Rattle.command_words.specs.Inner.ClapCommand.{clap_rows, command_line, command_word, option, option_names, program, rows_in};

use clap::error::ErrorKind;
use clap::{Arg, ArgMatches, Command};
use sig_base::NoMemory;
use std::alloc::{AllocError, Global};

/// The names of all options, of whichever command.
pub(crate) fn option_names() -> &'static [&'static str]
    ensures { map (λ name. name.now) result.now ≡ option_names }
{
    &[
        "until", "seed", "events", "start", "room", "runs", "stride", "vertices",
    ]
}

/// The program, without help and version.
fn program<'a>(alloc: Global) -> Command<'a>
    ensures { app_of result ≡ program }
{
    Command::new(alloc, "sigma")
        .disable_help_flag(true)
        .disable_version_flag(true)
}

/// The command with its one word.
fn with_word<'a>(alloc: Global, command: Command<'a>) -> Result<Command<'a>, AllocError>
    ensures { IfOk result (λ c. app_of c ≡ with_rule (app_of command.entry) command_word) }
{
    command.arg(Arg::new(alloc, "command").required(true))
}

/// The command with an option more, which takes one text.
fn with_option<'a>(
    alloc: Global,
    command: Command<'a>,
    name: &'a str,
) -> Result<Command<'a>, AllocError>
    ensures { IfOk result
        (λ c. app_of c ≡ with_rule (app_of command.entry) (option name.entry.now)) }
{
    command.arg(Arg::new(alloc, name).long(name))
}

/// The command line: one word, and options that take one text each.
fn command_line<'a>(alloc: Global) -> Result<Command<'a>, AllocError>
    ensures { IfOk result (λ c. app_of c ≡ command_line option_names) }
{
    let mut command = with_word(alloc, program(alloc))?;
    for name in option_names() {
        command = with_option(alloc, command, name)?;
    }
    Ok(command)
}

/// The words after the program's name, which `clap` passes over.
pub(crate) fn with_program(alloc: Global, words: &[String]) -> Result<Vec<&str>, NoMemory>
    ensures { IfOk result
        (λ named. map (λ w. w.now) named.items ≡ codes "sigma" ∷ map string_bytes words.now) }
{
    let mut named = Vec::new(alloc);
    named.push("sigma")?;
    for word in words {
        named.push(word.as_str())?;
    }
    Ok(named)
}

/// The matches of the words after the program's name, or `None` where they break a rule of the command line.
pub(crate) fn matched<'a>(
    alloc: Global,
    words: &'a [&'a str],
) -> Result<Option<ArgMatches<'a>>, NoMemory>
    ensures { IfOk result
        (λ matches. option_map rows_in matches ≡ clap_rows (map (λ w. w.now) words.entry.now)) }
{
    match command_line(alloc)?.try_get_matches_from(words) {
        Ok(matches) => Ok(Some(matches)),
        Err(error) => match error.kind() {
            ErrorKind::OutOfMemory => Err(NoMemory),
            _ => Ok(None),
        },
    }
}

/// The text of the command's word, or of an option.
pub(crate) fn text_of<'a>(matches: &ArgMatches<'a>, name: &str) -> Option<&'a [u8]>
    ensures { option_map (λ text. text.now) result ≡ first_of name.now (rows_in matches.now) }
{
    Some(matches.get_str(name)?.as_bytes())
}
