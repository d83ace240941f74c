//! A Primary that verifies in full, `uptane_primary STATE NOW SERVED`, and builds its manifests, `uptane_primary manifest FILE`.
#![tactic(auto)]

use std::io::{self, Write};
use std::process::ExitCode;
use std::{env, fs};
use up_primary_files::manifest::manifest_of;
use up_primary_files::round::{Outcome, judge_files};

/// How the program ends.
enum Ended {
    /// All was accepted, or a check wasn't passed. A manifest that was built counts as accepted.
    Verdict(bool),
    /// The words aren't those of the usage.
    Usage,
    /// A file can't be read, or the state's is none.
    Unread,
    /// The new state couldn't be written, and the old one stands; or the verdict couldn't be printed.
    Unwritten,
}

fn main(rt: HostRuntime) -> ExitCode {
    match carried_out(&rt) {
        Ended::Verdict(true) => ExitCode::from(0),
        Ended::Verdict(false) => ExitCode::from(1),
        Ended::Usage => told(
            &rt,
            2,
            "usage: uptane_primary STATE NOW SERVED | manifest FILE\n",
        ),
        Ended::Unread => told(&rt, 3, "uptane_primary: cannot read the files\n"),
        Ended::Unwritten => told(&rt, 4, "uptane_primary: cannot write\n"),
    }
}

/// Tells on standard error why it ends, with this status. A line that can't be written is ignored.
fn told(rt: &HostRuntime, status: u8, line: &str) -> ExitCode {
    let _ = rt.stderr().write_all(line.as_bytes());
    ExitCode::from(status)
}

fn carried_out(rt: &HostRuntime) -> Ended {
    let Ok(words) = env::args(rt) else {
        return Ended::Usage;
    };
    match words.collect::<Vec<String>>(rt.alloc()) {
        Ok(words) => {
            let ended = asked(rt, words.as_slice());
            // Dropped by name: at the end of a scope it would be proved part by part.
            drop(words);
            ended
        }
        Err(_) => Ended::Usage,
    }
}

/// What the words ask, the first of which is the program's name.
fn asked(rt: &HostRuntime, words: &[String]) -> Ended {
    match words {
        [_, word, file] => built(rt, word.as_str(), file.as_str()),
        [_, state, now, served] => round(rt, state.as_str(), now.as_str(), served.as_str()),
        _ => Ended::Usage,
    }
}

/// Prints the manifest that the file lists.
fn built(rt: &HostRuntime, word: &str, file: &str) -> Ended {
    if word != "manifest" {
        return Ended::Usage;
    }
    let Ok(listed) = fs::read_to_string(rt, file) else {
        return Ended::Unread;
    };
    match manifest_of(rt.alloc(), listed.as_str()) {
        Ok(body) => printed(rt, body.as_str(), true),
        Err(_) => Ended::Unread,
    }
}

fn printed(rt: &HostRuntime, text: &str, is_accepted: bool) -> Ended {
    match rt.stdout().write_all(text.as_bytes()) {
        Ok(()) => Ended::Verdict(is_accepted),
        Err(_) => Ended::Unwritten,
    }
}

fn round(rt: &HostRuntime, state: &str, now: &str, served: &str) -> Ended {
    match now.parse::<u64>() {
        Ok(now) => judged_files(rt, state, now, served),
        Err(_) => Ended::Usage,
    }
}

fn judged_files(rt: &HostRuntime, state: &str, now: u64, served: &str) -> Ended {
    let Ok(before) = fs::read_to_string(rt, state) else {
        return Ended::Unread;
    };
    let Ok(came) = fs::read_to_string(rt, served) else {
        return Ended::Unread;
    };
    match judge_files(rt.alloc(), now, before.as_str(), came.as_str()) {
        Ok(outcome) => kept(rt, state, &outcome),
        Err(_) => Ended::Unread,
    }
}

/// Puts the new state in the old one's place, and then prints the verdict.
fn kept(rt: &HostRuntime, state: &str, outcome: &Outcome) -> Ended {
    match replaced(rt, state, outcome.state.as_str()) {
        Ok(()) => printed(rt, outcome.told.as_str(), outcome.is_accepted),
        Err(_) => Ended::Unwritten,
    }
}

/// Writes the file beside, and then in its place by one renaming: so it is the old one or the new one, whole, at a crash too.
fn replaced(rt: &HostRuntime, file: &str, text: &str) -> io::Result<()> {
    let beside = format!(in rt.alloc(); "{file}.new")?;
    written(rt, beside.as_str(), text)?;
    fs::rename(rt, beside.as_str(), file)
}

/// Writes a file, and waits until it is on the disk.
fn written(rt: &HostRuntime, file: &str, text: &str) -> io::Result<()> {
    let mut opened = fs::create(rt, file)?;
    opened.write_all(text.as_bytes())?;
    opened.sync_all()
}
