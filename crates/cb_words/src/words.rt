//! The reading of the words.
ghost use Rattle.std.specs.Prelude.{◌≡◌, ℕ, List, map, string_bytes, IfOk, IsErrOf, Some, None, option_map};
ghost use Rattle.cb_words.specs.Numbers.{limit_by, seed_by};
ghost use Rattle.cb_words.specs.Spelled.{spelled, request_by, on_files, on_run};

use crate::fault::WordsFault;
use crate::line::line_matches;
use crate::numbers::{limit_of, seed_of};
use crate::request::{FileNames, Request};
use std::alloc::{AllocError, Global};

/// Reads the words that follow the program's name.
///
/// They form one command: an action, any number of files, and the options `--limit` and `--seed` with one value each,
/// which may stand between the files, also as `--limit=5`. After `--` each word is a file or the action. `list` and
/// `check` take one file at least, and no option; `sim` takes one file at least, and each option in its range.
///
/// # Errors
///
/// `Words` exactly where the words aren't such a command, the action is another one, or its rule is broken. `Memory`
/// where memory is wanting.
pub fn words_of(alloc: Global, words: &[String]) -> Result<Request, WordsFault>
    ensures request { IfOk result (λ r. spelled (map string_bytes words.now) ≡ Some r) }
    ensures words { IsErrOf result WordsFault.Words → spelled (map string_bytes words.now) ≡ None }
{
    let matches = line_matches(alloc, words)?;
    let action = matches.get_str("action");
    let files = matches.get_strs("files");
    let limit = matches.get_str("limit");
    let seed = matches.get_str("seed");
    request_of(alloc, action, files, limit, seed)
}

// The request of an action with these files and these options.
fn request_of(
    alloc: Global,
    action: Option<&str>,
    files: Option<&[&str]>,
    limit: Option<&str>,
    seed: Option<&str>,
) -> Result<Request, WordsFault>
    ensures request { IfOk result (λ r.
        request_by (option_map (λ s. s.now) action.entry) (option_map (λ s. map (λ v. v.now) s.now) files.entry)
        (option_map (λ s. s.now) limit.entry) (option_map (λ s. s.now) seed.entry) ≡ Some r) }
    ensures words { IsErrOf result WordsFault.Words →
        request_by (option_map (λ s. s.now) action.entry) (option_map (λ s. map (λ v. v.now) s.now) files.entry)
        (option_map (λ s. s.now) limit.entry) (option_map (λ s. s.now) seed.entry) ≡ None }
{
    let (Some(action), Some(files)) = (action, files) else {
        return Err(WordsFault::Words);
    };
    if action == "list" {
        let files = files_alone(alloc, files, limit, seed)?;
        return Ok(Request::List { files });
    }
    if action == "check" {
        let files = files_alone(alloc, files, limit, seed)?;
        return Ok(Request::Check { files });
    }
    if action == "sim" {
        let (files, limit, seed) = run_words(alloc, files, limit, seed)?;
        return Ok(Request::Sim { files, limit, seed });
    }
    Err(WordsFault::Words)
}

// The files, the limit and the seed of an action that runs a text.
fn run_words(
    alloc: Global,
    files: &[&str],
    limit: Option<&str>,
    seed: Option<&str>,
) -> Result<(FileNames, u32, u64), WordsFault>
    ensures request { IfOk result (λ r. (action : List (List ℕ) → ℕ → ℕ → Request) →
        on_run action (map (λ v. v.now) files.now)
        (limit_by (option_map (λ s. s.now) limit.entry)) (seed_by (option_map (λ s. s.now) seed.entry)) ≡ Some (action r.0 r.1 r.2)) }
    ensures words { IsErrOf result WordsFault.Words → (action : List (List ℕ) → ℕ → ℕ → Request) →
        on_run action (map (λ v. v.now) files.now)
        (limit_by (option_map (λ s. s.now) limit.entry)) (seed_by (option_map (λ s. s.now) seed.entry)) ≡ None }
{
    let (Some(limit), Some(seed)) = (limit_of(limit), seed_of(seed)) else {
        return Err(WordsFault::Words);
    };
    if files.is_empty() {
        return Err(WordsFault::Words);
    }
    Ok((names_of(alloc, files)?, limit, seed))
}

// The files of an action that takes one at least, and no option.
fn files_alone(
    alloc: Global,
    files: &[&str],
    limit: Option<&str>,
    seed: Option<&str>,
) -> Result<FileNames, WordsFault>
    ensures request { IfOk result (λ f. (action : List (List ℕ) → Request) →
        on_files action (map (λ v. v.now) files.now)
        (option_map (λ s. s.now) limit.entry) (option_map (λ s. s.now) seed.entry) ≡ Some (action f)) }
    ensures words { IsErrOf result WordsFault.Words → (action : List (List ℕ) → Request) →
        on_files action (map (λ v. v.now) files.now)
        (option_map (λ s. s.now) limit.entry) (option_map (λ s. s.now) seed.entry) ≡ None }
{
    if files.is_empty() || limit.is_some() || seed.is_some() {
        return Err(WordsFault::Words);
    }
    Ok(names_of(alloc, files)?)
}

// The names as texts of their own.
fn names_of(alloc: Global, files: &[&str]) -> Result<FileNames, AllocError>
    ensures { IfOk result (λ f. f ≡ map (λ v. v.now) files.now) }
{
    let mut names = Vec::new(alloc);
    for file in files {
        names.push(String::from_str(alloc, file)?)?;
    }
    Ok(FileNames::new(names))
}
