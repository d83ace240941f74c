//! What answers clients and operators.
ghost use Rattle.std.specs.Prelude.{◌≡◌, ◌≤◌, ◌++◌, ℕ, Bool, List, length, IfOk, IsTrue, OnErr, OnOk};
ghost use Rattle.std.specs.List.{AllByRecursion};
ghost use Rattle.up_lines.specs.Lines.{piece_bytes};
ghost use Rattle.up_machine.specs.Commands.{opens_running};
ghost use Rattle.up_machine.specs.declared.answer.Answer.{Answer as Told};
ghost use Rattle.up_http.specs.Talks.{Told as TellsText, wants_of};
ghost use Rattle.up_http.specs.declared.conversation.Wants.TheVariants.{Answer as WantsAnswer};
ghost use Rattle.up_connections.specs.Lines.{HappensTo, IsUntold};
ghost use Rattle.up_sockets.specs.Served.{Done, Group, IsBegun, TakesPiece, by_itself};

use std::alloc::AllocError;
use up_connections::connection::Connection;
use up_lines::fault::ScriptCause;
use up_lines::progress::Progress;
use up_machine::answer::Answer;
use up_machine::command::Command;

/// What answers the requests of clients and the scripts of operators, over a state that each may change.
pub trait Service<S> {
    /// In a state this may be done, which leaves that state.
    ghost does: { Self → S → Done → S → Type 0 };

    /// How an answer is told to a client: whether the stream ends with it, and whether its method is HEAD, are given.
    ghost tells: { Self → Told → Bool → Bool → List ℕ };

    /// Answers the request that waits on a connection, which was accepted at this moment, in seconds since
    /// 1970-01-01T00:00:00Z. An `Err` leaves the connection as it was, and the state as some answer leaves it, which couldn't be
    /// told for want of memory.
    fn answer(&self, state: &mut S, at: u64, connection: &mut Connection) -> Result<(), AllocError>
        requires { wants_of connection.old.line.talk ≡ WantsAnswer }
        ensures ok { OnOk result ((text : List ℕ)
            × HappensTo (by_itself (does self.now) at) state.old connection.old.line (TellsText text) state.new connection.new.line) }
        ensures err { OnErr result (IsUntold (by_itself (does self.now) at) state.old connection.old.line state.new
            × (connection.new ≡ connection.old)) }
        ensures same { connection.new.coming ≡ connection.old.coming };

    /// Carries out commands together, each at its moment, and appends an answer for each. An `Err` leaves all as it was.
    fn run(
        &self,
        state: &mut S,
        commands: &[(u64, Command)],
        answers: &mut Vec<Answer>,
    ) -> Result<(), AllocError>
        requires { AllByRecursion (λ c. IsTrue (opens_running c.1)) commands.now }
        ensures ok { OnOk result ((told : List Told) × (answers.new.items ≡ answers.old.items ++ told)
            × does self.now state.old (Group commands.now told) state.new) }
        ensures err { OnErr result ((answers.new.items ≡ answers.old.items) × (state.new ≡ state.old)) };

    /// The text that tells a client the answer to a command, which was carried out at this moment.
    fn text(
        &self,
        at: u64,
        command: &Command,
        answer: &Answer,
        last: bool,
        head: bool,
    ) -> Result<Vec<u8>, AllocError>
        ensures { IfOk result (λ text. text.items ≡ tells self.now answer.now last head) };

    /// Takes a piece of an operator's script, of at most `up_lines::limits::PIECE_BYTES`, and appends the answers to the lines that are
    /// whole then, each with a newline. `progress` counts those that were answered, from 0 on.
    fn take(
        &self,
        state: &mut S,
        progress: &mut Progress,
        piece: &[u8],
        answers: &mut Vec<u8>,
    ) -> Result<(), ScriptCause>
        requires begun { IsBegun progress.old }
        requires few { length piece.now ≤ piece_bytes }
        ensures { TakesPiece (does self.now) state.old piece.now progress.old progress.new answers.old.items answers.new.items state.new result };

    /// Tells that the connection of this number failed, and why.
    fn tell(&self, number: u64, cause: ScriptCause);
}
