//! The command that the words form.
ghost use Rattle.std.specs.Prelude.{◌≡◌, ◌≢◌, [], map, string_bytes, IfOk, IsErrOf};
ghost use Rattle.clap.specs.Words.{app_of, fault_of, found_of, matches_of, rows_of};
ghost use Rattle.cb_words.specs.Line.{line_app};

use crate::fault::WordsFault;
use clap::error::ErrorKind;
use clap::{Arg, ArgAction, ArgMatches, Command};
use std::alloc::{AllocError, Global};

// The matches of the words, which are those behind the program's name.
pub(crate) fn line_matches<'a>(
    alloc: Global,
    words: &'a [String],
) -> Result<ArgMatches<'a>, WordsFault>
    ensures fits { IfOk result (λ m. fault_of line_app (map string_bytes words.entry.now) ≡ []) }
    ensures rows { IfOk result (λ m. rows_of (found_of m) ≡ matches_of line_app (map string_bytes words.entry.now)) }
    ensures words { IsErrOf result WordsFault.Words → fault_of line_app (map string_bytes words.entry.now) ≢ [] }
{
    let command = line_command(alloc)?;
    match command.try_get_matches_from(words) {
        Ok(matches) => Ok(matches),
        Err(fault) => match fault.kind() {
            ErrorKind::OutOfMemory => Err(WordsFault::Memory),
            _ => Err(WordsFault::Words),
        },
    }
}

// The command: an action, any number of files, and two options.
fn line_command<'a>(alloc: Global) -> Result<Command<'a>, AllocError>
    ensures { IfOk result (λ c. app_of c ≡ line_app) }
{
    let action = Arg::new(alloc, "action")
        .required(true)
        .action(ArgAction::Set);
    let files = Arg::new(alloc, "files")
        .action(ArgAction::Append)
        .num_args(..);
    let limit = Arg::new(alloc, "limit")
        .long("limit")
        .action(ArgAction::Set);
    let seed = Arg::new(alloc, "seed").long("seed").action(ArgAction::Set);
    Command::new(alloc, "cspb")
        .no_binary_name(true)
        .disable_help_flag(true)
        .disable_version_flag(true)
        .arg(action)?
        .arg(files)?
        .arg(limit)?
        .arg(seed)
}
