//! A script, as far as its bytes came.
ghost use Rattle.std.specs.Prelude.{◌≤◌, length};
ghost use Rattle.up_lines.specs.Lines.{piece_bytes};
ghost use Rattle.up_sockets.specs.Served.{IsBegun, IsServed};

use crate::service::Service;
use std::alloc::Global;
use std::mem;
use up_lines::fault::ScriptCause;
use up_lines::progress::Progress;

/// A script, as far as its bytes came.
#[derive(Drop)]
pub(crate) struct Script {
    alloc: Global,
    progress: Progress,
    ghost begun: { IsBegun progress },
}

/// What came of a piece: how many lines were answered, and what stopped the script, if anything did.
#[derive(Drop)]
pub(crate) struct Taken {
    pub answered: u32,
    pub stopped: Option<ScriptCause>,
}

impl Script {
    /// Nothing has come.
    pub(crate) fn new(alloc: Global) -> Script {
        Script {
            alloc,
            progress: Progress::new(alloc),
        }
    }

    /// Whether a line is begun.
    pub(crate) fn is_within_line(&self) -> bool {
        !self.progress.line.is_empty()
    }

    /// Takes a piece, and appends the answers to the lines that are whole then. A script that was stopped begins anew.
    pub(crate) fn take<S, V: Service<S>>(
        &mut self,
        service: &V,
        state: &mut S,
        piece: &[u8],
        answers: &mut Vec<u8>,
    ) -> Taken
        requires { length piece.now ≤ piece_bytes }
        ensures { IsServed (V.does service.now) state.old state.new }
    {
        let mut progress = mem::replace(&mut self.progress, Progress::new(self.alloc));
        match service.take(state, &mut progress, piece, answers) {
            Ok(()) => {
                let answered = progress.answered;
                self.progress = progress;
                Taken {
                    answered,
                    stopped: None,
                }
            }
            Err(cause) => Taken {
                answered: progress.answered,
                stopped: Some(cause),
            },
        }
    }
}
