//! From a script and a text to the line of the verdict on the text.

ghost use Rattle.std.specs.Prelude.{◌≡◌, IfOk, IfErr};
ghost use Rattle.hg_run.specs.Judging.{IsVerdictOn, line_of};
ghost use Rattle.hg_run.specs.Serving.{RefusesBytes};
ghost use Rattle.hg_run.specs.Words.{audits};

use hg_audit::{Verdict, audit, verdict_line};
use hg_base::{MOST_SCRIPT_BYTES, NoMemory};
use hg_script::read_script;
use hg_streams::{Status, part};
use std::alloc::Global;

/// The verdict on the text that follows the script.
pub(crate) fn verdict_on(alloc: Global, bytes: &[u8]) -> Result<Verdict, Status>
    ensures verdict { IfOk result (IsVerdictOn bytes.now) }
    ensures refused { IfErr result (RefusesBytes audits bytes.now) }
{
    let (script, text) = part(bytes);
    if script.len() > MOST_SCRIPT_BYTES {
        return Err(Status::TooLong);
    }
    let script = read_script(alloc, script)?;
    Ok(audit(alloc, &script, text)?)
}

/// What is written of a verdict.
pub(crate) fn bytes_of(alloc: Global, verdict: Verdict) -> Result<Vec<u8>, NoMemory>
    ensures { IfOk result (λ answer. answer.items ≡ line_of verdict) }
{
    Ok(verdict_line(alloc, verdict)?.into_bytes())
}
