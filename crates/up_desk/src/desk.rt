//! The two repositories under one scheme.
ghost use Rattle.std.specs.Prelude.{◌≡◌, ◌+◌, ◌<◌, length, vec_capacity, vec_len, OnOk, OnErr, IsTrue};
ghost use Rattle.std.specs.List.{AllByRecursion};
ghost use Rattle.up_machine.specs.Commands.{opens_running};
ghost use Rattle.up_machine.specs.Reads.{ecus_of as ecus_in, version_of as version_in, installed as installed_in};
ghost use Rattle.up_machine.specs.Reads.{assigned_to};
ghost use Rattle.up_machine.specs.Rows.{vehicle_rows};
ghost use Rattle.up_desk.specs.Calls.{IsCalled};
ghost use Rattle.up_desk.specs.Desks.{Views};
ghost use Rattle.up_desk.specs.Groups.{CanAnswer};
ghost use Rattle.up_desk.specs.Runs.{AreCalled};
ghost use Rattle.up_records.specs.Standing.{bare, state};

use crate::dispatch::{answer_of, dispatch, keeps_limits};
use crate::grouped::run_group;
use sqlite::Alter;
use std::alloc::{AllocError, Global};
use std::marker::Model;
use up_canon::ident::Ident;
use up_canon::listed::Listed;
use up_machine::answer::Answer;
use up_machine::command::Command;
use up_machine::laws::{
    kept_replies_stay, repeats_change_nothing, states_stay_sound, vehicles_stand_apart,
};
use up_machine::rows::VehicleRows;
use up_manifest::report::Installed;
use up_plan::assigned::Plan;
use up_records::records::Records;
use up_sign::scheme::Scheme;
use up_store::store::{Store, StoreFault};

/// The Image and the Director repository under one scheme, over a store.
#[derive(Drop)]
pub struct Desk<K: Scheme, D: Alter> {
    scheme: K,
    records: Records<D>,
}

impl<K: Scheme, D: Alter> Model for Desk<K, D> {
    ghost use Rattle.up_desk.specs.Desks.{DeskView};
    ghost use Rattle.up_records.specs.Catalogs.{CanDecide};
    ghost use Rattle.std.specs.Prelude.{IfSome};

    ghost Value = { DeskView K D };

    ghost use Rattle.std.specs.Coded.{codes};
    ghost use Rattle.std.specs.FinMap as table;
    ghost use Rattle.sqlite.specs.Held.{held_code};

    ghost coded = { Prim.hlevel (codes, held_code D.code, table.code) };

    ghost view = { λ a. record { scheme = a.scheme; store = a.records } };

    ghost invariant = { λ a. IfSome a.records.catalog (CanDecide (K.rules a.scheme)) };
}

impl<K: Scheme, D: Alter> Desk<K, D> {
    /// A desk over this store, which keeps nothing in memory yet.
    pub fn new(scheme: K, store: Store<D>) -> Desk<K, D>
        ensures { result ≡ record { scheme = scheme; store = bare store } }
    {
        Desk {
            scheme,
            records: Records::new(store),
        }
    }

    /// The store.
    pub fn release(self) -> Store<D>
        ensures { result ≡ self.store.held }
    {
        self.records.release()
    }

    /// The scheme that it was made with.
    pub fn scheme(&self) -> &K
        ensures { result.now ≡ self.now.scheme }
    {
        &self.scheme
    }

    /// Answers a command at a moment: as the plain machine does, but a repeat of an accepted manifest is answered the reply that
    /// was kept for it, and each kept reply stays. Where memory or the database refuses (`Refused(Memory)`, `Refused(Store)`)
    /// nothing changes, and over a connection without a limit on the steps of a query `Store` is told only where the disk counted
    /// a fault, or the database refuses to write what the command comes to. A moment past 2100-01-01T00:00:00Z, a body of more
    /// than 262,144 bytes and a key of a new vehicle or ECU that doesn't fit are refused as that whatever they do. Whatever is
    /// answered, a crash leaves what it could leave before, or the next state; after `Done` and a reply to a newly accepted
    /// manifest that state alone.
    pub fn call(&mut self, alloc: Global, at: u64, command: &Command) -> Answer
        requires { IsTrue (opens_running command.now) }
        ensures called { IsCalled (K.rules self.old.scheme) at command.now result
            (state D.Store self.old.store) (state D.Store self.new.store) }
        ensures scheme { self.new.scheme ≡ self.old.scheme }
    {
        keeps_limits(command);
        states_stay_sound();
        repeats_change_nothing();
        kept_replies_stay();
        answer_of(dispatch(&mut self.records, alloc, &self.scheme, at, command))
    }

    /// Answers commands one after another, each with its moment, and appends one answer for each: where some commands are
    /// repeats or fail (are answered `Refused(Memory)` or `Refused(Store)`), the state is the plain machine's after the list
    /// without these, and each command that didn't fail has the expected answer; each kept reply stays. Only a fault of the
    /// disk shuts the connection. A crash leaves what it could leave before, or the state after some of the first commands. What
    /// was answered stays: behind each commit that was answered (`Done`, or a reply to a newly accepted manifest) a crash leaves
    /// the state behind it, or the one after some of the commands that follow. Two commands or more share a commit: where one of
    /// them fails, or the commit, all of it is undone, and each is carried out by itself. An error means that nothing was done, and
    /// comes only where there was no room for the answers: of no commands never.
    pub fn run(
        &mut self,
        alloc: Global,
        commands: &[(u64, Command)],
        answers: &mut Vec<Answer>,
    ) -> Result<(), AllocError>
        requires { AllByRecursion (λ c. IsTrue (opens_running c.1)) commands.now }
        ensures ran { OnOk result (AreCalled (K.rules self.old.scheme) commands.now answers.old.items answers.new.items
            (state D.Store self.old.store) (state D.Store self.new.store)) }
        ensures err { OnErr result ((answers.new.items ≡ answers.old.items) × (self.new ≡ self.old)
            × (vec_capacity answers.old < vec_len answers.old + length commands.now)) }
        ensures scheme { self.new.scheme ≡ self.old.scheme }
    {
        answers.reserve(commands.len())?;
        // A command by itself isn't tried twice.
        let alone = commands.len() < 2;
        if alone {
            self.run_apart(alloc, commands, answers);
            return Ok(());
        }
        let together = run_group(&mut self.records, alloc, &self.scheme, commands, answers);
        if together {
            return Ok(());
        }
        self.run_apart(alloc, commands, answers);
        Ok(())
    }

    /// Answers commands each in its own session.
    fn run_apart(&mut self, alloc: Global, commands: &[(u64, Command)], answers: &mut Vec<Answer>)
        requires { CanAnswer commands.now answers.old }
        ensures ran { AreCalled (K.rules self.old.scheme) commands.now answers.old.items answers.new.items
            (state D.Store self.old.store) (state D.Store self.new.store) }
        ensures scheme { self.new.scheme ≡ self.old.scheme }
    {
        repeats_change_nothing();
        kept_replies_stay();
        vehicles_stand_apart();
        for item in commands {
            keeps_limits(&item.1);
            let answer = self.call(alloc, item.0, &item.1);
            answers.push(answer).unwrap();
        }
    }

    /// The rows of a vehicle and its ECUs in inventory order, none of an unknown vehicle: all that is read of it at once, but for
    /// what is assigned.
    pub fn vehicle(
        &mut self,
        alloc: Global,
        vehicle: &Ident,
    ) -> Result<Option<VehicleRows>, StoreFault>
        ensures { Views D.Store (λ k s. vehicle_rows s vehicle.now) self.old self.new result }
    {
        self.records.vehicle(alloc, vehicle)
    }

    /// The ECUs of a vehicle in inventory order, none of an unknown vehicle.
    pub fn ecus(
        &mut self,
        alloc: Global,
        vehicle: &Ident,
    ) -> Result<Option<Listed<Ident>>, StoreFault>
        ensures { Views D.Store (λ k s. ecus_in s vehicle.now) self.old self.new result }
    {
        self.records.ecus(alloc, vehicle)
    }

    /// How many manifests of a vehicle were accepted, none of an unknown vehicle.
    pub fn version(&mut self, alloc: Global, vehicle: &Ident) -> Result<Option<u64>, StoreFault>
        ensures { Views D.Store (λ k s. version_in s vehicle.now) self.old self.new result }
    {
        self.records.version(alloc, vehicle)
    }

    /// The image that an ECU reported last, none of an unknown ECU and before its first report.
    pub fn installed(&mut self, alloc: Global, ecu: &Ident) -> Result<Option<Installed>, StoreFault>
        ensures { Views D.Store (λ k s. installed_in s ecu.now) self.old self.new result }
    {
        self.records.installed(alloc, ecu)
    }

    /// What is assigned to a vehicle, none of an unknown vehicle and before its first manifest.
    pub fn assigned(&mut self, alloc: Global, vehicle: &Ident) -> Result<Option<Plan>, StoreFault>
        ensures { Views D.Store (λ k s. assigned_to s vehicle.now) self.old self.new result }
    {
        self.records.assigned(alloc, vehicle)
    }
}
