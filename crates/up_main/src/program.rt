//! What a program does, by its words.
ghost use Rattle.std.specs.Prelude.{◌≡◌, Err, IsNone};

use crate::connections::Place;
use crate::databases::{Work, work_over};
use crate::files::digest;
use std::env;
use std::process::ExitCode;
use up_pieces::write_whole;
use up_program::failure::{Failure, exit_code, told};
use up_program::version::{asks_version, version_text};
use up_program::words::behind_name;
use up_service::job::Job;
use up_service::words::job;
use up_sign::scheme::Scheme;

/// Does what the words behind the program's name ask for, with repositories under this scheme, and answers the program's status.
pub fn run<K: Scheme>(rt: &HostRuntime, scheme: K) -> ExitCode {
    let Some(words) = given(rt) else {
        return exit_code(told(&mut rt.stderr(), Err(Failure::Usage)));
    };
    if asks_version(words.as_slice()) {
        return exit_code(tell_version(rt, scheme.method()));
    }
    exit_code(carried_out(rt, scheme, job(words)))
}

/// The words behind the program's name; none where one isn't UTF-8, or where memory is refused.
fn given(rt: &HostRuntime) -> Option<Vec<String>> {
    let words = env::args(rt).ok()?;
    behind_name(rt.alloc(), words).ok()
}

/// Tells what the program is. A line that can't be written is ignored.
fn tell_version(rt: &HostRuntime, method: &str) -> Result<(), Failure> {
    let Ok(text) = version_text(rt.alloc(), method) else {
        return told(&mut rt.stderr(), Err(Failure::Usage));
    };
    write_whole(&mut rt.stdout(), text.as_bytes()).ok();
    Ok(())
}

/// Carries out a job. Where there is none, the usage is told.
fn carried_out<K: Scheme>(rt: &HostRuntime, scheme: K, job: Option<Job>) -> Result<(), Failure>
    ensures usage { IsNone job → result ≡ Err Failure.Usage }
{
    match job {
        Some(Job::Run(file)) => work_over(rt, scheme, file.as_str(), Work::Script),
        Some(Job::Serve(file, port, count, socket)) => {
            work_over(
                rt,
                scheme,
                file.as_str(),
                Work::Serve(Place {
                    port,
                    count,
                    socket,
                }),
            )
        }
        Some(Job::Digest(file)) => digest(rt, file.as_str()),
        None => told(&mut rt.stderr(), Err(Failure::Usage)),
    }
}
