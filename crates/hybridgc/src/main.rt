//! The program: one call, with standard input and output as its source and its sink, or as its client.
//!
//!     hybridgc replay < script.csv
//!     hybridgc run --rounds 4 < script.csv
//!     hybridgc load 7
//!     hybridgc audit < script-and-text
//!     hybridgc live
//!
//! If a call does not end with `Done`, its status is one line on standard error. A line with the reason follows where there is more to say
//! (`hg_reason`), or the page that `--help` or `--version` asks for. The exit status says how the call ended.
#![tactic(auto)]

ghost use Rattle.std.specs.Prelude.{◌≡◌};
ghost use Rattle.std.specs.Process.{exit_status};
ghost use Rattle.hg_streams.specs.Status.{exit_code_of};

use hg_reason::{Call, explain};
use hg_run::{NoGate, Status, StdinSource, StdoutSink, converse, serve};
use hg_streams::words_of;
use hg_talk::StandardClient;
use hg_words::asks_to_talk;
use std::process::ExitCode;

// Says how the call ended, unless all was done, and why, and gives the exit status of that.
fn exit_with(rt: &HostRuntime, call: &Call<'_>, status: Status) -> ExitCode
    ensures { exit_status result ≡ exit_code_of status }
{
    if status != Status::Done {
        // Where standard error takes nothing, the exit status alone reports it.
        let _ = eprintln!(rt; "{status}");
    }
    if let Ok(Some(why)) = explain(rt.alloc(), call, status) {
        let _ = eprint!(rt; "{why}");
    }
    ExitCode::from(status.exit_code())
}

fn main(rt: HostRuntime) -> ExitCode {
    let words = match words_of(&rt) {
        Ok(words) => words,
        Err(status) => return exit_with(&rt, &Call::of(&[]), status),
    };
    if asks_to_talk(&words) {
        let mut client = StandardClient::new(rt.stdin(), rt.stdout());
        let status = converse(&rt, rt.alloc(), &words, &mut client);
        let fault = client.fault();
        return exit_with(
            &rt,
            &Call {
                fault,
                ..Call::of(&words)
            },
            status,
        );
    }
    let mut source = StdinSource::new(rt.stdin());
    let mut sink = StdoutSink::new(rt.stdout());
    let status = serve(&rt, rt.alloc(), &words, &mut source, &mut sink, &NoGate);
    let (words, given) = (&words, source.kept());
    let fault = source.fault().or(sink.fault());
    exit_with(
        &rt,
        &Call {
            words,
            given,
            fault,
        },
        status,
    )
}
