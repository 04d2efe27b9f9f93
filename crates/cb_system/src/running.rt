//! A running system, whose journal is a run by its type.

ghost use Rattle.std.specs.Prelude.{◌≡◌, ◌++◌, ◌∷◌, [], None, ◌<◌, length, IfNone, IfSome, IfOk, OnOk, OnErr, MatchBool};
ghost use Rattle.cb_spec.specs.declared.system.Channel.{Channel};
ghost use Rattle.cb_spec.specs.Journals.{events};
ghost use Rattle.cb_spec.specs.States.{state_of};
ghost use Rattle.cb_spec.specs.Sound.{Good};
ghost use Rattle.cb_safety_laws.specs.Causes.{Meet};
ghost use Rattle.cb_beginning.specs.Placed.{state_in};
ghost use Rattle.cb_system.specs.Views.{last_end, IsSame, HasSettle, HasOp, HasPass};
ghost use Rattle.cb_system.specs.Steps.{IsUnresolved, IsGoing, IsOver, HasFired, HasNone, IsStepped};
ghost use Rattle.cb_system.specs.Started.{IsStarted};
ghost use Rattle.cb_system.specs.Found.{HasCall, CanFire};

use crate::branch::env_of;
use crate::due::cause_of;
use crate::firing::{Firing, firing_of};
use crate::pass::passed_at;
use crate::perform::performed_at;
use crate::row::row_shown;
use crate::settled::{living_after, next, settled_at};
use cb_beginning::begin::begin;
use cb_code::code::Code;
use cb_code::place::Place;
use cb_offers::offers::Offers;
use cb_relation::pick::Pick;
use cb_spec::sound::SoundSpec;
use cb_spec::state::{End, Entry};
use cb_spec::store::Store;
use cb_spec::system::System;
use cb_term::Memory;
use cb_turn::Kept;
use sqlite_items::Items;
use std::alloc::Global;
use std::marker::Model;
use std::mem;

/// A running system. Contracts see its system, its limit, its beginning, its journal and its state.
#[derive(Drop)]
pub struct Running {
    sound: SoundSpec,
    limit: u32,
    initial: Store,
    // While nothing has ended it there is room for an entry more, so that want of memory can always end it.
    journal: Vec<Entry>,
    // How many events are in it, and the cause that has ended it.
    count: u32,
    end: Option<End>,
    code: Code,
    // The machines' variables, and a place for each parameter of an operation.
    store: Store,
    // By the controllers' numbers: where they are, and the places of their definitions' bodies.
    places: Vec<Place>,
    bodies: Vec<Items<u32>>,
    offers: Offers,
    // How many controllers are at a process that is not resolved yet, and how many have not ended.
    unsettled: u32,
    living: u32,
}

/// What a running system works from: its system and its limit. It is what contracts see of both; no value of it is made.
#[derive(Drop)]
pub struct Plan {
    pub system: System,
    pub limit: u32,
}

/// What a step has done.
#[derive(Clone, Copy, Debug, PartialEq, Eq)]
pub enum Stepped {
    /// The controller's process is resolved.
    Settled,
    /// The controller has called an operation, or values have passed a channel of its own.
    Fired,
    /// The controller can do nothing until another does something.
    Idle,
    /// The journal has ended.
    Over(End),
}

impl Model for Running {
    ghost use Rattle.std.specs.Prelude.{vec_len, vec_capacity};
    ghost use Rattle.cb_beginning.specs.Placed.{state_in, Laid};
    ghost use Rattle.cb_settling.specs.Calling.{IsRoomy};
    ghost use Rattle.cb_system.specs.Views.{RunView};
    ghost use Rattle.cb_system.specs.RunCodes.{run_code};
    ghost use Rattle.cb_system.specs.Kept.{Keeps, AreCounted};
    ghost use Rattle.cb_system.specs.Tabled.{IsTabled};

    ghost Value = { RunView };

    ghost coded = { run_code };

    ghost view = { λ r. record { system = r.sound; limit = r.limit; initial = r.initial; journal = r.journal.items; state = state_in r.code r.store r.places.items } };

    ghost invariant = { λ r. (Keeps r.sound r.limit r.initial r.journal.items (state_in r.code r.store r.places.items) r.count r.end (vec_len r.journal) (vec_capacity r.journal) × Laid r.sound r.code r.places.items r.bodies.items × IsRoomy r.sound r.store × AreCounted r.places.items r.unsettled r.living) × IsTabled r.sound r.code r.places.items r.offers };
}

impl Kept for Running {
    type Plan = Plan;

    type Entry = Entry;

    ghost plan = { λ r. record { system = r.system; limit = r.limit } };

    ghost list = { λ r. r.journal };
}

impl Running {
    /// A run of the system that begins: each machine's initialisation runs once, the picker taking the choices that it leaves, and
    /// each controller is at its START call. At most `limit` calls and passes may follow. `Err`: want of memory.
    pub fn start<P: Pick>(
        alloc: Global,
        sound: SoundSpec,
        limit: u32,
        pick: &mut P,
    ) -> Result<Running, Memory>
        ensures { IfOk result (IsStarted sound limit) }
    {
        let beginning = begin(alloc, &sound, pick)?;
        let mut journal = Vec::new(alloc);
        journal.reserve(1)?;
        let controllers = beginning.places.len() as u32;
        let channels = sound.spec().channels.as_slice().len() as u32;
        let offers = Offers::new(alloc, channels, controllers)?;
        Ok(Running {
            sound,
            limit,
            initial: beginning.initial,
            journal,
            count: 0,
            end: None,
            code: beginning.code,
            store: beginning.store,
            places: beginning.places,
            bodies: beginning.bodies,
            offers,
            unsettled: controllers,
            living: controllers,
        })
    }

    /// The system.
    pub fn spec(&self) -> &System
        ensures { result.now ≡ self.now.system }
    {
        self.sound.spec()
    }

    /// What has happened.
    pub fn journal(&self) -> &[Entry]
        ensures { result.now ≡ self.now.journal }
    {
        self.journal.as_slice()
    }

    /// The values at the beginning.
    pub fn initial(&self) -> &Store
        ensures { result.now ≡ self.now.initial }
    {
        &self.initial
    }

    /// The values of machine variables.
    pub fn store(&self) -> &Store
        ensures { result.now ≡ self.now.state.store }
    {
        &self.store
    }

    /// The processes, and where among them each controller is, by their numbers.
    pub fn places(&self) -> (&Code, &[Place])
        ensures { self.now.state ≡ state_in result.0.now self.now.state.store result.1.now }
    {
        (&self.code, self.places.as_slice())
    }

    /// The cause that has ended the journal.
    pub fn end_of(&self) -> Option<End>
        ensures end { result ≡ last_end self.now.journal }
        ensures good { Good self.now.system self.now.limit self.now.initial self.now.journal (state_of self.now.state) }
    {
        self.end
    }

    /// Ends the journal for want of memory.
    pub fn stop_for_memory(&mut self)
        requires { last_end self.old.journal ≡ None }
        ensures system { self.new.system ≡ self.old.system }
        ensures limit { self.new.limit ≡ self.old.limit }
        ensures initial { self.new.initial ≡ self.old.initial }
        ensures state { self.new.state ≡ self.old.state }
        ensures journal { self.new.journal ≡ self.old.journal ++ Entry.End End.Memory ∷ [] }
    {
        self.journal.push_reserved(Entry::End(End::Memory));
        self.end = Some(End::Memory);
    }

    /// Ends the journal where a cause other than want of memory is due, and tells the cause for which it has ended. It takes no
    /// memory.
    pub fn end_if_due(&mut self) -> Option<End>
        ensures system { self.new.system ≡ self.old.system }
        ensures limit { self.new.limit ≡ self.old.limit }
        ensures initial { self.new.initial ≡ self.old.initial }
        ensures none { IfNone result (IsGoing self.old × (self.new ≡ self.old)) }
        ensures some { IfSome result (IsOver self.old self.new) }
    {
        if let Some(end) = self.end {
            return Some(end);
        }
        let due = cause_of(
            self.living,
            self.unsettled,
            self.count,
            self.limit,
            &self.offers,
        )?;
        self.journal.push_reserved(Entry::End(due));
        self.end = Some(due);
        Some(due)
    }

    /// One step of the controller with this number, where the picker takes the choices that are left. These are tried in order:
    /// the journal has ended, or a cause other than want of memory is due, which ends it; the controller's process is resolved;
    /// it calls an operation, or values pass a channel of its own; else nothing happens. `Err`: want of memory, after which all
    /// is as before.
    pub fn step<P: Pick>(
        &mut self,
        alloc: Global,
        controller: u32,
        pick: &mut P,
    ) -> Result<Stepped, Memory>
        requires { controller < length self.old.system.order }
        ensures system { self.new.system ≡ self.old.system }
        ensures limit { self.new.limit ≡ self.old.limit }
        ensures initial { self.new.initial ≡ self.old.initial }
        ensures ok { IfOk result (IsStepped controller self.old self.new) }
        ensures err { OnErr result (IsSame self.old self.new) }
    {
        if let Some(end) = self.end_if_due() {
            return Ok(Stepped::Over(end));
        }
        if self.settle_one(alloc, controller, pick)? {
            return Ok(Stepped::Settled);
        }
        if self.fire_one(alloc, controller, pick)? {
            return Ok(Stepped::Fired);
        }
        Ok(Stepped::Idle)
    }

    // Resolves the process of the controller with this number, if it is at one.
    fn settle_one<P: Pick>(
        &mut self,
        alloc: Global,
        controller: u32,
        pick: &mut P,
    ) -> Result<bool, Memory>
        requires open { last_end self.old.journal ≡ None }
        requires more { events self.old.journal < self.old.limit }
        requires range { controller < length self.old.system.order }
        ensures system { self.new.system ≡ self.old.system }
        ensures limit { self.new.limit ≡ self.old.limit }
        ensures initial { self.new.initial ≡ self.old.initial }
        ensures journal { IfOk result (λ b. MatchBool b (IsUnresolved (state_of self.old.state) controller × HasSettle controller self.old.journal self.new.journal) ((¬ IsUnresolved (state_of self.old.state) controller) × (self.new ≡ self.old))) }
        ensures err { OnErr result (self.new ≡ self.old) }
    {
        self.journal.reserve(2)?;
        let Some(settled) = settled_at(
            alloc,
            self.sound.spec(),
            &self.code,
            self.places.as_slice(),
            self.bodies.as_slice(),
            controller,
            pick,
        )?
        else {
            return Ok(false);
        };
        let (outcome, bits) = settled;
        let row = row_shown(alloc, &self.code, &outcome)?;
        self.offers.set(controller, row.as_slice())?;
        self.unsettled -= 1;
        self.living = living_after(self.living, &outcome);
        let at = controller as usize;
        let place = mem::replace(&mut self.places[at], Place::Ended);
        self.places[at] = next(place, outcome);
        self.journal
            .push_reserved(Entry::Settle { controller, bits });
        Ok(true)
    }

    // Lets a branch of the controller fire, if one can.
    fn fire_one<P: Pick>(
        &mut self,
        alloc: Global,
        controller: u32,
        pick: &mut P,
    ) -> Result<bool, Memory>
        requires open { last_end self.old.journal ≡ None }
        requires more { events self.old.journal < self.old.limit }
        requires range { controller < length self.old.system.order }
        ensures system { self.new.system ≡ self.old.system }
        ensures limit { self.new.limit ≡ self.old.limit }
        ensures initial { self.new.initial ≡ self.old.initial }
        ensures journal { IfOk result (λ b. MatchBool b (HasFired controller self.old self.new) (HasNone controller self.old × IsSame self.old self.new)) }
        ensures err { OnErr result (IsSame self.old self.new) }
    {
        let firing = self.firing(controller, pick);
        match firing {
            Firing::Nothing => Ok(false),
            Firing::Calls { branch } => {
                self.perform_one(alloc, controller, branch, pick)?;
                Ok(true)
            }
            Firing::Passes { channel, sent, got } => {
                self.pass_one(alloc, channel, sent, got)?;
                Ok(true)
            }
        }
    }

    // What the controller can do.
    fn firing<P: Pick>(&self, controller: u32, pick: &mut P) -> Firing
        requires { controller < length self.now.system.order }
        ensures { CanFire controller self.now result }
    {
        firing_of(
            &self.code,
            self.places.as_slice(),
            &self.offers,
            controller,
            pick,
        )
    }

    // Performs the operation that a branch of the controller calls.
    fn perform_one<P: Pick>(
        &mut self,
        alloc: Global,
        controller: u32,
        branch: u32,
        pick: &mut P,
    ) -> Result<(), Memory>
        requires open { last_end self.old.journal ≡ None }
        requires more { events self.old.journal < self.old.limit }
        requires call { HasCall self.old controller branch }
        ensures system { self.new.system ≡ self.old.system }
        ensures limit { self.new.limit ≡ self.old.limit }
        ensures initial { self.new.initial ≡ self.old.initial }
        ensures journal { OnOk result (HasOp controller branch self.old.journal self.new.journal) }
        ensures err { OnErr result (IsSame self.old self.new) }
    {
        self.journal.reserve(2)?;
        let performed = performed_at(
            alloc,
            self.sound.spec(),
            &self.code,
            self.places.as_slice(),
            &mut self.store,
            controller,
            branch,
            pick,
        )?;
        self.count += 1;
        self.unsettled += 1;
        self.offers.clear(controller);
        self.places[controller as usize] = Place::At {
            process: performed.next,
            env: performed.env,
        };
        self.journal.push_reserved(Entry::Op {
            controller,
            branch,
            machine: performed.machine,
            operation: performed.operation,
            args: performed.args,
            results: performed.called.results,
            written: performed.called.written,
        });
        Ok(())
    }

    // Passes values from a branch of the channel's sender to one of its receiver.
    fn pass_one(&mut self, alloc: Global, channel: u32, sent: u32, got: u32) -> Result<(), Memory>
        requires open { last_end self.old.journal ≡ None }
        requires more { events self.old.journal < self.old.limit }
        requires meet { (ch : Channel) × Meet self.old.system (state_of self.old.state) channel sent got ch }
        ensures system { self.new.system ≡ self.old.system }
        ensures limit { self.new.limit ≡ self.old.limit }
        ensures initial { self.new.initial ≡ self.old.initial }
        ensures journal { OnOk result (HasPass channel sent got self.old.journal self.new.journal) }
        ensures err { OnErr result (self.new ≡ self.old) }
    {
        self.journal.reserve(2)?;
        let passed = passed_at(
            alloc,
            self.sound.spec(),
            &self.code,
            self.places.as_slice(),
            channel,
            sent,
            got,
        )?;
        self.count += 1;
        self.unsettled += 2;
        self.offers.clear(passed.sender);
        self.offers.clear(passed.receiver);
        let from = passed.sender as usize;
        let place = mem::replace(&mut self.places[from], Place::Ended);
        self.places[from] = Place::At {
            process: passed.out_next,
            env: env_of(place),
        };
        self.places[passed.receiver as usize] = Place::At {
            process: passed.in_next,
            env: passed.env,
        };
        self.journal.push_reserved(Entry::Pass {
            channel,
            sent,
            got,
            values: passed.values,
        });
        Ok(())
    }
}
