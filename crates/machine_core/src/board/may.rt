//! Who may make an entry, and what it has to do next.
ghost use Rattle.std.specs.Prelude.{◌≡◌, reverse};
ghost use Rattle.acpi_regs.specs.Actor.{side_of};
ghost use Rattle.machine_history.specs.Legal as legal;
ghost use Rattle.machine_history.specs.Wire.{open_of};
ghost use Rattle.machine_core.specs.Actors.{words_of};

use super::Board;
use crate::actors::Words;
use crate::same::{asked_by, is_host, is_someone, same_actor};
use acpi_regs::{Actor, Deed, Side};

impl Board {
    /// Whether the actor may make such an entry, whatever its numbers.
    pub(super) fn may_make(&self, actor: Actor, deed: Deed) -> bool
        ensures { result ≡ legal.may_make self.now.machine (open_of (reverse self.now.entries)) actor deed }
    {
        match deed {
            Deed::Step(_) => self.may_step(actor),
            Deed::Ctl(_) => self.is_ec(actor),
            Deed::Push(_) => self.is_firmware(actor),
            Deed::Raise(_) => self.is_firmware(actor),
            Deed::Assert(_) => self.is_firmware(actor),
            Deed::Latch(_) => is_host(actor),
            Deed::Claim(_) => is_host(actor),
            Deed::Start(_) => self.is_worker(actor),
            Deed::Finish(_) => self.is_worker(actor),
            Deed::Notify(..) => self.is_worker(actor),
            Deed::Up(_) => self.is_worker(actor),
            Deed::Down(_) => self.is_worker(actor),
            _ => self.runs_scripts(actor),
        }
    }

    /// Where the OS asked, int and poll step for it; firmware steps for itself.
    fn may_step(&self, actor: Actor) -> bool
        ensures { result ≡ legal.may_step self.now.machine (open_of (reverse self.now.entries)) actor }
    {
        match self.requester() {
            None => is_host(actor) || self.is_firmware(actor),
            Some(by) => match by.side() {
                Some(Side::Os) => is_host(actor),
                _ => self.is_firmware(actor) && same_actor(actor, by),
            },
        }
    }

    fn is_worker(&self, actor: Actor) -> bool
        ensures { result ≡ legal.is_worker self.now.machine actor }
    {
        match actor {
            Actor::Worker(number) => number < self.machine.workers(),
            _ => false,
        }
    }

    fn is_firmware(&self, actor: Actor) -> bool
        ensures { result ≡ legal.is_firmware self.now.machine actor }
    {
        match actor {
            Actor::Firmware(number) => usize::from(number) < self.machine.firmware().len(),
            _ => false,
        }
    }

    fn runs_scripts(&self, actor: Actor) -> bool
        ensures { result ≡ legal.runs_scripts self.now.machine actor }
    {
        self.is_worker(actor) || self.is_firmware(actor)
    }

    fn is_ec(&self, actor: Actor) -> bool
        ensures { result ≡ legal.is_ec self.now.machine actor }
    {
        match actor {
            Actor::Ec => self.machine.controller().is_some(),
            _ => false,
        }
    }

    /// What the actor's own entries tell of it.
    pub(super) fn words(&self, actor: Actor) -> Words
        ensures { result ≡ words_of (reverse self.now.entries) actor }
    {
        self.actors.state(actor).words
    }

    /// Whether the deed is the one that the actor's next act asks for.
    pub(super) fn is_next(&self, actor: Actor, deed: Deed) -> bool
        ensures { result ≡ legal.is_next self.now.machine (reverse self.now.entries) actor deed }
    {
        asked_by(self.act(actor), deed)
    }

    /// Whether the actor competes for its side.
    fn is_seeker(&self, actor: Actor) -> bool
        ensures { result ≡ legal.is_seeker (reverse self.now.entries) actor }
    {
        match actor.side() {
            Some(side) => is_someone(actor, self.seeker(side)),
            None => false,
        }
    }

    /// Whether nobody competes for the actor's side.
    pub(super) fn unsought(&self, actor: Actor) -> bool
        ensures { result ≡ legal.unsought (reverse self.now.entries) (side_of actor) }
    {
        match actor.side() {
            Some(side) => self.seeker(side).is_none(),
            None => false,
        }
    }

    /// Whether the actor's side was signalled.
    pub(super) fn woken_on(&self, actor: Actor) -> bool
        ensures { result ≡ legal.woken_on (reverse self.now.entries) (side_of actor) }
    {
        match actor.side() {
            Some(side) => self.wake(side),
            None => false,
        }
    }

    /// Whether the actor competes, and has not owned the lock since its seek.
    pub(super) fn is_trying(&self, actor: Actor) -> bool
        ensures { result ≡ legal.is_trying (reverse self.now.entries) actor }
    {
        self.is_seeker(actor) && !self.words(actor).owned
    }

    /// Whether the actor has to leave: it competes, and has disowned the lock since its seek.
    pub(super) fn has_quit(&self, actor: Actor) -> bool
        ensures { result ≡ legal.has_quit self.now.machine (reverse self.now.entries) actor }
    {
        self.runs_scripts(actor) && self.is_seeker(actor) && self.words(actor).disowned
    }

    pub(super) fn may_start(&self, actor: Actor, job: u32) -> bool
        ensures { result ≡ legal.may_start self.now.machine (reverse self.now.entries) actor job }
    {
        self.words(actor).running.is_none()
            && job == self.jobs.starts
            && (self.jobs.starts as usize) < self.jobs.made.len()
    }
}
