//! What is answered where a text is run.
ghost use Rattle.std.specs.Prelude.{◌≡◌, ℕ, ◌≤◌, List, [], length, IfOk};
ghost use Rattle.cb_accept.specs.Accepting.{IsJudgedText};
ghost use Rattle.cb_run_text.specs.RunTexts.{IsRunText};
ghost use Rattle.cb_words.specs.declared.request.Request.TheVariants as request;
ghost use Rattle.cb_top.specs.Outcome.{answer_of, IsOutcome};

use crate::MAX_BYTES;
use crate::judge::{refusal, verdict_outcome};
use crate::outcome::{Ending, Outcome};
use cb_accept::accept::accept_text;
use cb_alone::alone::run_alone;
use cb_judged::judged::Judged;
use cb_run_text::trace::trace_text;
use cb_spec::sound::SoundSpec;
use std::alloc::{AllocError, Global};

/// The outcome of `sim`: the trace of a run, where the bytes are accepted.
pub(crate) fn run_bytes(
    alloc: Global,
    bytes: &[u8],
    limit: u32,
    seed: u64,
) -> Result<Outcome, AllocError>
    requires { length bytes.now ≤ MAX_BYTES }
    ensures { IfOk result (λ o. (files : List (List ℕ)) → IsOutcome (request.Sim files limit seed) bytes.now (answer_of o)) }
{
    match accept_text(alloc, bytes) {
        Ok(judged) => run_judged(alloc, bytes, judged, limit, seed),
        Err(fault) => refusal(alloc, fault),
    }
}

// The outcome of a text with these verdicts.
fn run_judged(
    alloc: Global,
    _bytes: &[u8],
    judged: Judged,
    limit: u32,
    seed: u64,
) -> Result<Outcome, AllocError>
    requires fits { length _bytes.now ≤ MAX_BYTES }
    requires judged { IsJudgedText _bytes.now judged }
    ensures { IfOk result (λ o. (files : List (List ℕ)) → IsOutcome (request.Sim files limit seed) _bytes.now (answer_of o)) }
{
    match judged.sound() {
        Ok(sound) => run_outcome(alloc, sound, limit, seed),
        Err(judged) => verdict_outcome(alloc, judged.lines()),
    }
}

// The outcome of a sound system: it runs to its end.
fn run_outcome(
    alloc: Global,
    sound: SoundSpec,
    limit: u32,
    seed: u64,
) -> Result<Outcome, AllocError>
    ensures { IfOk result (λ o. (text : List ℕ) × IsRunText sound limit text × (answer_of o ≡ record { status = 0; out = text; err = [] })) }
{
    let running = run_alone(alloc, sound, limit, seed)?;
    let text = trace_text(alloc, running.spec(), running.initial(), running.journal())?;
    Ok(Outcome::Text {
        ending: Ending::Done,
        text,
    })
}
