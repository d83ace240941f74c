//! What answers clients and operators at a desk.
ghost use Rattle.std.specs.Prelude.{◌≡◌, ◌≤◌, ◌++◌, ℕ, List, length, IsTrue, OnErr, OnOk};
ghost use Rattle.std.specs.List.{AllByRecursion};
ghost use Rattle.up_lines.specs.Lines.{piece_bytes};
ghost use Rattle.up_machine.specs.Commands.{opens_running};
ghost use Rattle.up_machine.specs.declared.answer.Answer.{Answer as Told};
ghost use Rattle.up_http.specs.Talks.{Told as TellsText, wants_of};
ghost use Rattle.up_http.specs.declared.conversation.Wants.TheVariants.{Answer as WantsAnswer};
ghost use Rattle.up_connections.specs.Lines.{HappensTo, IsUntold};
ghost use Rattle.up_service.specs.Responses.{Responses};
ghost use Rattle.up_service.specs.Together.{CallsEach};
ghost use Rattle.up_sockets.specs.Served.{IsBegun, TakesPiece};
ghost use Rattle.up_main.specs.Clients.{Does};

use crate::log::Log;
use sqlite::Alter;
use std::alloc::{AllocError, Global};
use up_connections::connection::Connection;
use up_desk::desk::Desk;
use up_lines::fault::ScriptCause;
use up_lines::progress::Progress;
use up_lines::take_piece;
use up_machine::answer::Answer;
use up_machine::command::Command;
use up_machine::laws::vehicles_stand_apart;
use up_program::line::write_line;
use up_program::messages::connection_fault;
use up_service::line_answer::Scripter;
use up_service::refusals::tell;
use up_service::response::{Responder, answer_response};
use up_sign::scheme::Scheme;
use up_sockets::service::Service;

/// Answers requests and scripts at a desk, and tells on standard error what failed.
#[derive(Drop)]
pub(crate) struct AtDesk<'a> {
    pub rt: &'a HostRuntime,
    pub log: Log<'a>,
}

impl<K: Scheme, D: Alter> Service<Desk<K, D>> for AtDesk<'_> {
    ghost use Rattle.up_service.specs.Responses.{answer_response as response_of};

    ghost does = { λ _. Does (K.rules) D.Store };

    ghost tells = { λ _. response_of };

    fn answer(
        &self,
        desk: &mut Desk<K, D>,
        at: u64,
        connection: &mut Connection,
    ) -> Result<(), AllocError> {
        answer_at(&self.log, desk, at, connection)
    }

    fn run(
        &self,
        desk: &mut Desk<K, D>,
        commands: &[(u64, Command)],
        answers: &mut Vec<Answer>,
    ) -> Result<(), AllocError> {
        run_together(self.rt.alloc(), desk, commands, answers)
    }

    fn text(
        &self,
        at: u64,
        command: &Command,
        answer: &Answer,
        last: bool,
        head: bool,
    ) -> Result<Vec<u8>, AllocError> {
        tell(self.rt.alloc(), &self.log, at, command, answer);
        let text = answer_response(self.rt.alloc(), answer, last, head)?;
        Ok(text.into_bytes())
    }

    fn take(
        &self,
        desk: &mut Desk<K, D>,
        progress: &mut Progress,
        piece: &[u8],
        answers: &mut Vec<u8>,
    ) -> Result<(), ScriptCause> {
        take_lines(self.rt.alloc(), desk, progress, piece, answers)
    }

    fn tell(&self, number: u64, cause: ScriptCause) {
        write_line(&mut self.rt.stderr(), &connection_fault(number, cause));
    }
}

/// Answers the request that waits on a connection, which was accepted at this moment.
fn answer_at<K: Scheme, D: Alter>(
    log: &Log<'_>,
    desk: &mut Desk<K, D>,
    at: u64,
    connection: &mut Connection,
) -> Result<(), AllocError>
    requires { wants_of connection.old.line.talk ≡ WantsAnswer }
    ensures ok { OnOk result ((text : List ℕ)
        × HappensTo (Responses (K.rules) D.Store at) desk.old connection.old.line (TellsText text) desk.new connection.new.line) }
    ensures err { OnErr result (IsUntold (Responses (K.rules) D.Store at) desk.old connection.old.line desk.new
        × (connection.new ≡ connection.old)) }
    ensures same { connection.new.coming ≡ connection.old.coming }
{
    connection.answer(&Responder { at, log }, desk)
}

/// Carries out commands together, and appends their answers.
fn run_together<K: Scheme, D: Alter>(
    alloc: Global,
    desk: &mut Desk<K, D>,
    commands: &[(u64, Command)],
    answers: &mut Vec<Answer>,
) -> Result<(), AllocError>
    requires { AllByRecursion (λ c. IsTrue (opens_running c.1)) commands.now }
    ensures ok { OnOk result ((told : List Told) × (answers.new.items ≡ answers.old.items ++ told)
        × CallsEach (K.rules) D.Store desk.old commands.now told desk.new) }
    ensures err { OnErr result ((answers.new.items ≡ answers.old.items) × (desk.new ≡ desk.old)) }
{
    desk.run(alloc, commands, answers)
}

/// Takes a piece of a script, and appends the answers to its lines.
fn take_lines<K: Scheme, D: Alter>(
    alloc: Global,
    desk: &mut Desk<K, D>,
    progress: &mut Progress,
    piece: &[u8],
    answers: &mut Vec<u8>,
) -> Result<(), ScriptCause>
    requires begun { IsBegun progress.old }
    requires few { length piece.now ≤ piece_bytes }
    ensures { TakesPiece (Does (K.rules) D.Store) desk.old piece.now progress.old progress.new answers.old.items answers.new.items desk.new result }
{
    vehicles_stand_apart();
    progress.answered = 0;
    take_piece(alloc, &Scripter, desk, answers, progress, piece)
}
