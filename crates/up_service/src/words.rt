//! The words of the command line.
ghost use Rattle.std.specs.Prelude.{◌≡◌, ◌∷◌, [], None, Some, codes, map, string_bytes, option_map};
ghost use Rattle.up_service.specs.Jobs.{job_of, job_named, serve_named, job_shown};

use crate::job::Job;
use crate::numbers::number;

/// The most connections of one run.
const MOST_CONNECTIONS: u32 = 1_000_000;

/// The job that the words after the program's name ask for, none for any others: `run FILE`, `digest FILE`,
/// `serve FILE PORT COUNT` or `serve FILE PORT COUNT SOCKET`. A port is 1 to 65535 and a count 1 to 1000000, in decimal without leading zeros.
pub fn job(words: Vec<String>) -> Option<Job>
    ensures { option_map job_shown result ≡ job_of (map string_bytes words.items) }
{
    let mut given = words.into_iter();
    let word = given.next()?;
    let file = given.next()?;
    let Some(port) = given.next() else {
        return file_job(word.as_str(), file);
    };
    let count = given.next()?;
    let socket = given.next();
    if given.next().is_some() {
        return None;
    }
    serve_job(word.as_str(), file, port.as_str(), count.as_str(), socket)
}

/// A job with a file alone.
fn file_job(word: &str, file: String) -> Option<Job>
    ensures { option_map job_shown result ≡ job_named word.now (string_bytes file) }
{
    match word {
        "run" => Some(Job::Run(file)),
        "digest" => Some(Job::Digest(file)),
        _ => None,
    }
}

/// The job of serving a file.
fn serve_job(
    word: &str,
    file: String,
    port: &str,
    count: &str,
    socket: Option<String>,
) -> Option<Job>
    ensures { option_map job_shown result
        ≡ serve_named word.now (string_bytes file) port.now count.now (option_map string_bytes socket) }
{
    if word != "serve" {
        return None;
    }
    let port = number(port, u32::from(u16::MAX))?;
    let count = number(count, MOST_CONNECTIONS)?;
    Some(Job::Serve(file, port as u16, count, socket))
}
