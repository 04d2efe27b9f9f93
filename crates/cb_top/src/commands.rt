//! The calls that do all that the program does.
ghost use Rattle.std.specs.Prelude.{◌≡◌, ◌≢◌, map, string_bytes, MatchOption, Some, None};
ghost use Rattle.cb_words.specs.Spelled.{spelled};
ghost use Rattle.cb_top.specs.Change.{change, sources};
ghost use Rattle.cb_top.specs.Accepted.{HoldsAccepted};
ghost use Rattle.cb_top.specs.Sure.{CanBeRead, CanTake, IsText, IsLine, IsWordsLine};
ghost use Rattle.cb_top.specs.Answers.{Answers, WordsAnswers};
ghost use Rattle.cb_top.specs.Request.{names_of, TakesAccepted};
ghost use Rattle.cb_top.specs.Outcome.{ending_status, refusal_status};

use crate::judge::answer;
use crate::laws::done_is_accepted;
use crate::outcome::{Ending, Outcome, Refusal, Stop};
use crate::print::{print_line, print_text};
use cb_edge::{Files, Gate, Sink};
use cb_words::{Request, WordsFault, words_of};
use std::alloc::Global;
use std::sync::Wait;
use std::thread::Threads;

/// Does what the words of a command line say, and answers the status of the program.
///
/// The status is 0 where all is listed or proved, or a run has ended, and 1 where an obligation isn't proved, 2 where the text is ill formed, 3
/// where the words spell no request, 4 where a file can't be read, 5 where a write failed, 6 for want of memory, and 7 where a
/// limit is passed. From 2 on a line on `err` says why; a text on `out` comes with 0, with 1, or cut with 5.
pub fn command<R: Threads + Wait + Sync, F: Files, K: Sink, E: Sink, G: Gate + Sync>(
    _rt: &R,
    alloc: Global,
    words: &[String],
    files: &mut F,
    out: &mut K,
    err: &mut E,
    _gate: &G,
) -> u8
    ensures answers { MatchOption (spelled (map string_bytes words.now))
        (WordsAnswers (change K.written K.faults out.old out.new) (change E.written E.faults err.old err.new) result)
        (λ request. Answers request (names_of request) (sources F.held F.faults files.old files.new)
        (change K.written K.faults out.old out.new) (change E.written E.faults err.old err.new) result) }
    ensures reads { (request : Request) → spelled (map string_bytes words.now) ≡ Some request →
        CanBeRead (F.sure files.old) (F.faults files.old) (names_of request) → result ≢ 4 }
    ensures writes { (request : Request) → spelled (map string_bytes words.now) ≡ Some request →
        CanTake (K.sure out.old) (K.faults out.old) (IsText request (names_of request) (F.held files.old)) →
        CanTake (E.sure err.old) (E.faults err.old) (IsLine request (names_of request) (F.held files.old)) → result ≢ 5 }
    ensures writes_words { spelled (map string_bytes words.now) ≡ None → CanTake (E.sure err.old) (E.faults err.old) IsWordsLine → result ≢ 5 }
    ensures accepted { (request : Request) → spelled (map string_bytes words.now) ≡ Some request → TakesAccepted request → result ≡ 0 →
        HoldsAccepted request (names_of request) (F.held files.old) }
{
    match words_of(alloc, words) {
        Ok(request) => quiet_command(alloc, &request, files, out, err),
        Err(WordsFault::Words) => print_line(err, b"fault words\n", 3),
        Err(WordsFault::Memory) => print_line(err, b"fault memory\n", 6),
    }
}

/// Does what a request says, with the statuses of `command`. It always returns.
pub fn quiet_command<F: Files, K: Sink, E: Sink>(
    alloc: Global,
    request: &Request,
    files: &mut F,
    out: &mut K,
    err: &mut E,
) -> u8
    ensures answers { Answers request.now (names_of request.now) (sources F.held F.faults files.old files.new)
        (change K.written K.faults out.old out.new) (change E.written E.faults err.old err.new) result }
    ensures reads { CanBeRead (F.sure files.old) (F.faults files.old) (names_of request.now) → result ≢ 4 }
    ensures writes { CanTake (K.sure out.old) (K.faults out.old) (IsText request.now (names_of request.now) (F.held files.old)) →
        CanTake (E.sure err.old) (E.faults err.old) (IsLine request.now (names_of request.now) (F.held files.old)) → result ≢ 5 }
    ensures accepted { TakesAccepted request.now → result ≡ 0 → HoldsAccepted request.now (names_of request.now) (F.held files.old) }
{
    done_is_accepted();
    respond(alloc, request, files, out, err)
}

// Finds the answer to a request, and prints it.
fn respond<F: Files, K: Sink, E: Sink>(
    alloc: Global,
    request: &Request,
    files: &mut F,
    out: &mut K,
    err: &mut E,
) -> u8
    ensures answers { Answers request.now (names_of request.now) (sources F.held F.faults files.old files.new)
        (change K.written K.faults out.old out.new) (change E.written E.faults err.old err.new) result }
    ensures reads { CanBeRead (F.sure files.old) (F.faults files.old) (names_of request.now) → result ≢ 4 }
    ensures writes { CanTake (K.sure out.old) (K.faults out.old) (IsText request.now (names_of request.now) (F.held files.old)) →
        CanTake (E.sure err.old) (E.faults err.old) (IsLine request.now (names_of request.now) (F.held files.old)) → result ≢ 5 }
{
    match answer(alloc, request, file_names(request), files) {
        Ok(Outcome::Text { ending, text }) => {
            print_text(out, err, &text, status_of_ending(ending))
        }
        Ok(Outcome::Fault { refusal, line }) => {
            print_line(err, &line, status_of_refusal(refusal))
        }
        Err(Stop::Unread(line)) => print_line(err, &line, 4),
        Err(Stop::Memory) => print_line(err, b"fault memory\n", 6),
    }
}

// The names of the request's files.
fn file_names(request: &Request) -> &[String]
    ensures { map string_bytes result.now ≡ names_of request.now }
{
    match request {
        Request::List { files } | Request::Check { files } | Request::Sim { files, .. } => {
            files.as_slice()
        }
    }
}

fn status_of_ending(ending: Ending) -> u8
    ensures { result ≡ ending_status ending }
{
    match ending {
        Ending::Done => 0,
        Ending::Open => 1,
    }
}

fn status_of_refusal(refusal: Refusal) -> u8
    ensures { result ≡ refusal_status refusal }
{
    match refusal {
        Refusal::IllFormed => 2,
        Refusal::Limit => 7,
    }
}
