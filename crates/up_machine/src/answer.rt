//! Answers to commands.
use std::alloc::{AllocError, Global};
use up_canon::ident::Ident;
use up_canon::listed::Duplicate;
use up_canon::refusal::Refusal;
use up_canon::text::Text;
use up_plan::assigned::Cause;

/// The Director's reply to an accepted manifest: the vehicle and the version that the manifest gave it, how many images are
/// assigned, why they are withheld if they are, and the text with the Director's files for the vehicle.
#[derive(Debug, Drop)]
pub struct Reply {
    pub vehicle: Ident,
    pub version: u64,
    pub targets: u32,
    pub withheld: Option<Cause>,
    pub text: Text,
}

impl Duplicate for Reply {
    fn copy(&self, alloc: Global) -> Result<Reply, AllocError> {
        Ok(Reply {
            vehicle: self.vehicle.copy(alloc)?,
            version: self.version,
            targets: self.targets,
            withheld: self.withheld.copy(alloc)?,
            text: self.text.copy(alloc)?,
        })
    }
}

/// What a command is answered.
#[derive(Debug, Drop)]
pub enum Answer {
    /// It was done.
    Done,
    /// An equal one is there already, or is closed already; nothing changed.
    Already,
    /// The reply to a manifest.
    Reply(Reply),
    /// The text of a file.
    File(Text),
    /// It was refused, and nothing changed.
    Refused(Refusal),
}

impl Duplicate for Answer {
    fn copy(&self, alloc: Global) -> Result<Answer, AllocError> {
        Ok(match self {
            Answer::Done => Answer::Done,
            Answer::Already => Answer::Already,
            Answer::Reply(reply) => Answer::Reply(reply.copy(alloc)?),
            Answer::File(text) => Answer::File(text.copy(alloc)?),
            Answer::Refused(refusal) => Answer::Refused(refusal.copy(alloc)?),
        })
    }
}
