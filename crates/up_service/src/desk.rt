//! What answers commands, reads lines and shows vehicles: a desk, of which nothing is known here but what it tells.
ghost use Rattle.std.specs.Prelude.{◌≡◌, ℕ, IfOk, IsTrue, List, OnErr, Option, Result, length};
ghost use Rattle.std.specs.List.{AllByRecursion};
ghost use Rattle.up_canon.specs.Names.{Name};
ghost use Rattle.up_canon.specs.declared.refusal.Refusal.{Refusal};
ghost use Rattle.up_plan.specs.declared.assigned.Plan.{Plan};
ghost use Rattle.up_machine.specs.declared.answer.Answer.{Answer};
ghost use Rattle.up_machine.specs.declared.command.Command.{Command};
ghost use Rattle.up_machine.specs.declared.rows.VehicleRows.{VehicleRows};
ghost use Rattle.up_machine.specs.Commands.{opens_running};
ghost use Rattle.up_tables.specs.declared.values.StoreFault.{StoreFault};
ghost use Rattle.up_script.specs.AskedLines.{asks_running};
ghost use Rattle.up_script.specs.declared.asked.Asked.{Asked};

use sqlite::Alter;
use std::alloc::{AllocError, Global};
use up_canon::ident::Ident;
use up_canon::refusal::Refusal;
use up_desk::desk::Desk;
use up_machine::answer::Answer;
use up_machine::command::Command;
use up_machine::rows::VehicleRows;
use up_plan::assigned::Plan;
use up_script::asked::{Asked, asked_by};
use up_sign::scheme::Scheme;
use up_store::store::StoreFault;

/// What answers commands.
pub(crate) trait Called {
    /// A command at a moment may have this answer, which leaves this.
    ghost gives: { Self → ℕ → Command → Answer → Self → Type 0 };

    /// These commands may have these answers, which leave this.
    ghost gives_each: { Self → List (ℕ × Command) → List Answer → Self → Type 0 };

    /// Answers a command at a moment.
    fn call(&mut self, alloc: Global, at: u64, command: &Command) -> Answer
        requires { IsTrue (opens_running command.now) }
        ensures { gives self.old at command.now result self.new };

    /// Answers commands one after another, which may share a commit. An error means that nothing was done.
    fn call_each(
        &mut self,
        alloc: Global,
        commands: &[(u64, Command)],
    ) -> Result<Vec<Answer>, AllocError>
        requires { AllByRecursion (λ c. IsTrue (opens_running c.1)) commands.now }
        ensures ok { IfOk result (λ answers. gives_each self.old commands.now answers.items self.new
            × (length answers.items ≡ length commands.now)) }
        ensures err { OnErr result (self.new ≡ self.old) };
}

/// What reads lines.
pub(crate) trait Asks {
    /// A line may be read as this, or have this for its first fault.
    ghost asks: { Self → List ℕ → Result Asked Refusal → Type 0 };

    /// What a line asks, or its first fault.
    fn asked(&self, alloc: Global, line: &[u8]) -> Result<Asked, Refusal>
        ensures read { asks self.now line.now result }
        ensures running { IfOk result (λ asked. IsTrue (asks_running asked.what)) };
}

/// What is shown of vehicles.
pub(crate) trait Viewed {
    /// A read of a vehicle's rows may find this, which leaves this.
    ghost finds: { Self → Name → Result (Option VehicleRows) StoreFault → Self → Type 0 };

    /// A read of what is assigned may find this, which leaves this.
    ghost finds_plan: { Self → Name → Result (Option Plan) StoreFault → Self → Type 0 };

    /// The rows of a vehicle and its ECUs.
    fn vehicle(&mut self, alloc: Global, vehicle: &Ident) -> Result<Option<VehicleRows>, StoreFault>
        ensures { finds self.old vehicle.now result self.new };

    /// What is assigned to a vehicle.
    fn assigned(&mut self, alloc: Global, vehicle: &Ident) -> Result<Option<Plan>, StoreFault>
        ensures { finds_plan self.old vehicle.now result self.new };
}

impl<K: Scheme, D: Alter> Called for Desk<K, D> {
    ghost use Rattle.up_service.specs.Desks.{Calls};
    ghost use Rattle.up_service.specs.Together.{CallsEach};

    ghost gives = { Calls (K.rules) D.Store };

    ghost gives_each = { CallsEach (K.rules) D.Store };

    fn call(&mut self, alloc: Global, at: u64, command: &Command) -> Answer {
        Desk::call(self, alloc, at, command)
    }

    fn call_each(
        &mut self,
        alloc: Global,
        commands: &[(u64, Command)],
    ) -> Result<Vec<Answer>, AllocError> {
        let mut answers = Vec::new(alloc);
        Desk::run(self, alloc, commands, &mut answers)?;
        Ok(answers)
    }
}

impl<K: Scheme, D: Alter> Asks for Desk<K, D> {
    ghost use Rattle.up_service.specs.LineAnswers.{IsReadAs};

    ghost asks = { λ d. IsReadAs (K.rules d.scheme) };

    fn asked(&self, alloc: Global, line: &[u8]) -> Result<Asked, Refusal> {
        asked_by(alloc, self.scheme(), line)
    }
}

impl<K: Scheme, D: Alter> Viewed for Desk<K, D> {
    ghost use Rattle.up_machine.specs.Reads.{assigned_to};
    ghost use Rattle.up_machine.specs.Rows.{vehicle_rows};
    ghost use Rattle.up_service.specs.Desks.{Finds};

    ghost finds = { Finds D.Store vehicle_rows };

    ghost finds_plan = { Finds D.Store assigned_to };

    fn vehicle(
        &mut self,
        alloc: Global,
        vehicle: &Ident,
    ) -> Result<Option<VehicleRows>, StoreFault> {
        Desk::vehicle(self, alloc, vehicle)
    }

    fn assigned(&mut self, alloc: Global, vehicle: &Ident) -> Result<Option<Plan>, StoreFault> {
        Desk::assigned(self, alloc, vehicle)
    }
}
