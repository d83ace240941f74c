//! The two repositories, as whoever asks them sees them.
ghost use Rattle.std.specs.Prelude.{◌≡◌, false, IfSome, IsTrue};
ghost use Rattle.sqlite.specs.Held.{state};
ghost use Rattle.sqlite.specs.State.{HasCleanDisk};
ghost use Rattle.up_sign.specs.Schemes.{Rules};
ghost use Rattle.up_machine.specs.Commands.{opens_running};
ghost use Rattle.up_machine.specs.State.{State, empty_state};
ghost use Rattle.up_shipped.specs.Machines.{AnswersAsMachine};

use sqlite::{Alter, Connection};
use std::alloc::Global;
use up_desk::desk::Desk;
use up_machine::answer::Answer;
use up_machine::command::Command;
use up_machine::laws::states_stay_sound;
use up_rows::laws::rows_tell_the_state;
use up_sign::scheme::Scheme;
use up_store::store::Store;

/// The two repositories, as whoever asks them sees them: they are the plain machine. They stand for a state of it; each command is answered
/// as the machine answers it there, and leaves them standing for the machine's next state; where memory or the database refused, for the
/// same one. What it is to stand for a state is each type's own, and nobody has to know it.
pub trait Repositories {
    /// They stand for this state, under these rules.
    ghost stand_for: { Rules → State → Self → Type 0 };

    /// The disk beneath has returned what was written to it.
    ghost have_clean_disk: { Self → Type 0 };

    /// Answers a command at a moment, in seconds since 1970-01-01T00:00:00Z.
    fn answer(&mut self, alloc: Global, at: u64, command: &Command) -> Answer
        requires { IsTrue (opens_running command.now) }
        ensures answered { have_clean_disk self.new → (k : Rules)
            → AnswersAsMachine k (stand_for k) at command.now result self.old self.new }
        ensures clean { have_clean_disk self.new → have_clean_disk self.old };
}

impl<K: Scheme, D: Alter> Repositories for Desk<K, D> {
    ghost use Rattle.up_shipped.specs.Machines.{StandsFor};

    ghost stand_for = { StandsFor (K.rules) D.Store };

    ghost have_clean_disk = { λ desk. HasCleanDisk (state D.Store desk.store.held) };

    fn answer(&mut self, alloc: Global, at: u64, command: &Command) -> Answer {
        self.call(alloc, at, command)
    }
}

/// A desk over a database without tables, in which they are made: it stands for the state in which nothing is founded. None where they can't
/// be made.
pub fn fresh_desk<K: Scheme, D: Alter + Drop>(scheme: K, conn: Connection<D>) -> Option<Desk<K, D>>
    requires { (state D.Store conn).in_transaction ≡ false }
    ensures { IfSome result (λ desk. ⟦<Desk<K, D> as Repositories>⟧.stand_for (K.rules scheme) empty_state desk) }
{
    states_stay_sound();
    rows_tell_the_state();
    let Ok(store) = Store::create(conn) else {
        return None;
    };
    let desk = Desk::new(scheme, store);
    Some(desk)
}

/// The connection of a desk, which tells at the end whether the disk returned what was written.
pub fn released<K: Scheme, D: Alter>(desk: Desk<K, D>) -> Connection<D>
    ensures { HasCleanDisk (state D.Store result) → ⟦<Desk<K, D> as Repositories>⟧.have_clean_disk desk }
{
    desk.release().release()
}
