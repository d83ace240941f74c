//! Requests that are answered: deliveries together, the others each by itself.
ghost use Rattle.std.specs.Prelude.{◌≡◌, ◌⊎◌, IsTrue, true};
ghost use Rattle.std.proofs.Props.{props};
ghost use Rattle.std.specs.List.{AllByRecursion};
ghost use Rattle.up_machine.specs.Commands.{opens_running};
ghost use Rattle.up_connections.specs.Lines.{IsTold};
ghost use Rattle.up_sockets.specs.Served.{IsServed};
ghost use Rattle.up_sockets.specs.Groups.{AnswersGroup, AreTold, MayBeTold};

use crate::client::{Socket, close, is_waiting};
use crate::service::Service;
use std::alloc::{AllocError, Global};
use up_connections::connection::Delivery;
use up_connections::hub::Client;
use up_lines::fault::ScriptCause;
use up_machine::answer::Answer;
use up_machine::command::Command;

/// The most commands of a group.
const MOST_COMMANDS: usize = 64;

/// The most groups before others have their turn.
const MOST_GROUPS: u32 = 4;

/// How many groups there were, and how many commands in them.
#[derive(Clone, Copy, Drop)]
pub(crate) struct Counts {
    pub groups: u64,
    pub commands: u64,
}

impl Counts {
    /// One more group, of so many commands.
    fn add(&mut self, commands: u64) {
        self.groups = self.groups.saturating_add(1);
        self.commands = self.commands.saturating_add(commands);
    }
}

/// Who asked a command, and how the answer is told.
#[derive(Clone, Copy, Drop)]
struct Asker {
    number: u64,
    head: bool,
    last: bool,
}

/// Commands that are carried out together, and who asked each.
#[derive(Drop)]
struct Group {
    commands: Vec<(u64, Command)>,
    askers: Vec<Asker>,
    ghost running: { AllByRecursion (λ c. IsTrue (opens_running c.1)) commands.items } by { Prim.hlevel props },
}

impl Group {
    /// What waits on connections, as far as there is memory for it.
    fn of(alloc: Global, clients: &[Client<Socket>]) -> Group {
        let mut group = Group {
            commands: Vec::new(alloc),
            askers: Vec::new(alloc),
        };
        for client in clients.iter() {
            if group.commands.len() == MOST_COMMANDS || group.take(client).is_err() {
                return group;
            }
        }
        group
    }

    /// Takes the delivery that waits on a connection, if one does.
    fn take(&mut self, client: &Client<Socket>) -> Result<(), AllocError> {
        match waiting_delivery(client)? {
            Some(delivery) => self.push(client.number, client.at, delivery),
            None => Ok(()),
        }
    }

    #[tactic(auto, using(crate::proofs::Joined::all_more))]
    fn push(&mut self, number: u64, at: u64, delivery: Delivery) -> Result<(), AllocError> {
        let Delivery { body, head, last } = delivery;
        self.askers.push(Asker { number, head, last })?;
        self.commands.push((at, Command::Deliver(body)))?;
        Ok(())
    }

    /// The place of the command that the connection of this number asked.
    fn place_of(&self, number: u64) -> Option<usize> {
        for (place, asker) in self.askers.iter().enumerate() {
            if asker.number == number {
                return Some(place);
            }
        }
        None
    }

    /// Tells the answers to those who asked.
    fn tell<S, V: Service<S>>(
        &self,
        service: &V,
        clients: &mut [Client<Socket>],
        answers: &[Answer],
        now: u64,
    )
        ensures { AreTold (V.tells service.now) self.now.commands.items answers.now clients.old clients.new }
    {
        for client in clients.iter_mut() {
            self.tell_one(service, client, answers, now);
        }
    }

    /// Tells a client the answer to what it asked, if it waits for one.
    #[tactic(auto, using(crate::proofs::Told::told_at))]
    fn tell_one<S, V: Service<S>>(
        &self,
        service: &V,
        client: &mut Client<Socket>,
        answers: &[Answer],
        now: u64,
    )
        ensures { MayBeTold (V.tells service.now) self.now.commands.items answers.now client.old client.new }
    {
        let Some(place) = self.place_of(client.number) else {
            return;
        };
        let Some(asker) = self.askers.as_slice().get(place) else {
            return;
        };
        let Some(asked) = self.commands.as_slice().get(place) else {
            return;
        };
        let Some(answer) = answers.get(place) else {
            return;
        };
        if asked.0 == client.at && is_waiting(client) {
            tell_client(service, client, asker, asked, answer, now);
        }
    }
}

/// A copy of the delivery that waits on a connection, if one does.
fn waiting_delivery(client: &Client<Socket>) -> Result<Option<Delivery>, AllocError> {
    if is_waiting(client) {
        client.connection.delivery()
    } else {
        Ok(None)
    }
}

/// Tells a client an answer, if that is what it asked; one for which there is no memory ends the connection.
fn tell_client<S, V: Service<S>>(
    service: &V,
    client: &mut Client<Socket>,
    asker: &Asker,
    asked: &(u64, Command),
    answer: &Answer,
    now: u64,
)
    ensures { (client.new.connection ≡ client.old.connection)
        ⊎ IsTold asked.now.1 asker.now.head asker.now.last (V.tells service.now answer.now asker.now.last asker.now.head)
        client.old.connection client.new.connection true }
{
    match service.text(asked.0, &asked.1, answer, asker.last, asker.head) {
        Ok(text) => {
            client
                .connection
                .tell(&asked.1, asker.head, asker.last, text);
        }
        Err(_) => end_untold(service, client, now),
    }
}

/// Ends a connection whose answer can't be told for want of memory.
fn end_untold<S, V: Service<S>>(service: &V, client: &mut Client<Socket>, now: u64)
    ensures { client.new.connection ≡ client.old.connection }
{
    service.tell(client.number, ScriptCause::Memory);
    close(client, now);
}

/// Answers the deliveries that wait, in groups.
#[tactic(auto, using(crate::proofs::Joined::served_none))]
pub(crate) fn answer_together<S, V: Service<S>>(
    alloc: Global,
    service: &V,
    state: &mut S,
    clients: &mut [Client<Socket>],
    counts: &mut Counts,
    now: u64,
)
    ensures { IsServed (V.does service.now) state.old state.new }
{
    for _ in 0..MOST_GROUPS {
        if !answer_group(alloc, service, state, clients, counts, now) {
            return;
        }
    }
}

/// Answers a group of deliveries, and tells each client the answer to its own; `false` where none waits, or there was no room for
/// the answers, and then nothing was done.
fn answer_group<S, V: Service<S>>(
    alloc: Global,
    service: &V,
    state: &mut S,
    clients: &mut [Client<Socket>],
    counts: &mut Counts,
    now: u64,
) -> bool
    ensures { AnswersGroup (V.does service.now) (V.tells service.now) state.old clients.old state.new clients.new result }
{
    let group = Group::of(alloc, clients);
    if group.commands.is_empty() {
        return false;
    }
    let mut answers = Vec::new(alloc);
    match service.run(state, group.commands.as_slice(), &mut answers) {
        Ok(()) => {
            group.tell(service, clients, answers.as_slice(), now);
            counts.add(group.commands.len() as u64);
            true
        }
        Err(_) => false,
    }
}

/// Answers each request that waits by itself.
#[tactic(auto, using(crate::proofs::Joined::served_none))]
pub(crate) fn answer_alone<S, V: Service<S>>(
    service: &V,
    state: &mut S,
    clients: &mut [Client<Socket>],
    now: u64,
)
    ensures { IsServed (V.does service.now) state.old state.new }
{
    for client in clients.iter_mut() {
        answer_one(service, state, client, now);
    }
}

/// Answers the request that waits on a connection, if one does.
#[tactic(auto, using(crate::proofs::Joined::served_none))]
fn answer_one<S, V: Service<S>>(service: &V, state: &mut S, client: &mut Client<Socket>, now: u64)
    ensures { IsServed (V.does service.now) state.old state.new }
{
    if !is_waiting(client) {
        return;
    }
    match service.answer(state, client.at, &mut client.connection) {
        Ok(()) => {}
        Err(_) => end_untold(service, client, now),
    }
}
