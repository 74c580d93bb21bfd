//! The table of entries: which condition of its row an entry fails first.
ghost use Rattle.std.specs.Prelude.{◌≡◌, ◌&&◌, is_none, not, reverse, Some, if◌then◌else◌};
ghost use Rattle.acpi_regs.specs.Lock.{is_busy};
ghost use Rattle.machine_history.specs.Legal as legal;
ghost use Rattle.machine_history.specs.Machine.{is_fickle};
ghost use Rattle.machine_history.specs.Values.{next_move};
ghost use Rattle.machine_history.specs.Wire.{burst, open_of};

use super::Board;
use crate::same::{is_int, is_job, is_leave, is_next_effect, is_next_host, is_someone, is_taking};
use acpi_regs::{Actor, Cell, Deed, Effect, Entry, HostMove};
use machine_history::LogRule;

impl Board {
    /// The first condition of the table of entries that the entry fails. `None` exactly where [`Board::can`] is true.
    pub fn refusal(&self, entry: &Entry) -> Option<LogRule>
        ensures { result ≡ legal.refusal self.now.machine (reverse self.now.entries) entry.now }
    {
        let actor = entry.actor;
        let deed = entry.deed;
        if !self.may_make(actor, deed) {
            return Some(LogRule::Actor);
        }
        if !self.may_now(actor, deed) {
            return Some(LogRule::Seeker);
        }
        self.row(actor, deed)
    }

    /// From its disown to its leave an actor may only leave, and no other may.
    fn may_now(&self, actor: Actor, deed: Deed) -> bool
        ensures { result ≡ (if legal.has_quit self.now.machine (reverse self.now.entries) actor
            then legal.is_leave deed else not (legal.is_leave deed)) }
    {
        if self.has_quit(actor) {
            is_leave(deed)
        } else {
            !is_leave(deed)
        }
    }

    /// The first condition that fails of those that the row of the entry has of its own.
    fn row(&self, actor: Actor, deed: Deed) -> Option<LogRule>
        ensures { result ≡ legal.first_failing (legal.row self.now.machine (reverse self.now.entries) actor deed) }
    {
        match deed {
            Deed::Seek => test(
                LogRule::Next,
                self.is_next(actor, deed),
                test(LogRule::Seeker, self.unsought(actor), None),
            ),
            Deed::Busy => self.trying(actor, test(LogRule::Busy, !self.is_busy(actor), None)),
            Deed::Woken => self.trying(
                actor,
                test(
                    LogRule::Busy,
                    self.is_busy(actor),
                    test(LogRule::Wake, self.woken_on(actor), None),
                ),
            ),
            Deed::Own => self.trying(
                actor,
                test(
                    LogRule::Busy,
                    !self.is_busy(actor),
                    test(LogRule::Owner, self.owner().is_none(), None),
                ),
            ),
            Deed::Disown => test(
                LogRule::Owner,
                is_someone(actor, self.owner()),
                test(LogRule::Next, self.is_next(actor, deed), None),
            ),
            Deed::Leave(_) => None,
            Deed::Read(cell, byte) => self.read_row(actor, cell, byte),
            Deed::Begin(_) => test(
                LogRule::Next,
                self.is_next(actor, deed),
                test(LogRule::Begin, !self.is_open(), None),
            ),
            Deed::Step(made) => self.step_row(actor, made),
            Deed::Ctl(effect) => self.ctl_row(effect),
            Deed::Take(byte) => self.take_row(actor, byte),
            Deed::Latch(event) => test(LogRule::Latch, self.is_pulsed(event), None),
            Deed::Claim(event) => test(LogRule::Status, self.is_pending(event), None),
            Deed::Start(job) => test(LogRule::Job, self.may_start(actor, job), None),
            Deed::Finish(job) => test(
                LogRule::Job,
                is_job(job, self.words(actor).running),
                test(LogRule::Next, self.act(actor).is_none(), None),
            ),
            _ => test(LogRule::Next, self.is_next(actor, deed), None),
        }
    }

    fn trying(&self, actor: Actor, rest: Option<LogRule>) -> Option<LogRule>
        ensures { result ≡ (if legal.is_trying (reverse self.now.entries) actor then rest else Some LogRule.Seeker) }
    {
        test(LogRule::Seeker, self.is_trying(actor), rest)
    }

    fn is_busy(&self, actor: Actor) -> bool
        ensures { result ≡ is_busy actor (reverse self.now.entries) }
    {
        self.words(actor).busy
    }

    fn read_row(&self, actor: Actor, cell: Cell, byte: u8) -> Option<LogRule>
        ensures { result ≡ legal.first_failing
            (legal.row self.now.machine (reverse self.now.entries) actor (Deed.Read cell byte)) }
    {
        self.machine.law_rules();
        if !self.is_next(actor, Deed::Read(cell, byte)) {
            return Some(LogRule::Next);
        }
        test(LogRule::Value, byte == self.cell(cell), None)
    }

    fn step_row(&self, actor: Actor, made: HostMove) -> Option<LogRule>
        ensures { result ≡ legal.first_failing
            (legal.row self.now.machine (reverse self.now.entries) actor (Deed.Step made)) }
    {
        test(
            LogRule::Begin,
            self.is_open(),
            test(
                LogRule::Wire,
                self.is_next_host(made),
                test(LogRule::Due, !is_int(actor) || self.due(), None),
            ),
        )
    }

    fn ctl_row(&self, effect: Effect) -> Option<LogRule>
        ensures { result ≡ legal.first_failing (legal.ctl_row self.now.machine (reverse self.now.entries) effect) }
    {
        match effect {
            Effect::Calm => test(LogRule::Wire, self.may_calm(), None),
            _ => test(
                LogRule::Begin,
                self.is_open(),
                test(LogRule::Wire, self.is_next_effect(effect), None),
            ),
        }
    }

    /// Whether the controller may leave burst mode of its own accord.
    fn may_calm(&self) -> bool
        ensures { result ≡ (is_fickle self.now.machine.controller && burst (reverse self.now.entries)
            && is_none (open_of (reverse self.now.entries))) }
    {
        self.is_fickle() && self.is_burst() && !self.is_open()
    }

    fn is_fickle(&self) -> bool
        ensures { result ≡ is_fickle self.now.machine.controller }
    {
        match self.machine.controller() {
            Some(controller) => controller.fickle,
            None => false,
        }
    }

    fn take_row(&self, actor: Actor, byte: Option<u8>) -> Option<LogRule>
        ensures { result ≡ legal.first_failing
            (legal.row self.now.machine (reverse self.now.entries) actor (Deed.Take byte)) }
    {
        test(
            LogRule::Begin,
            self.is_opener(actor),
            test(
                LogRule::Wire,
                self.taking().is_some(),
                test(LogRule::Value, is_taking(byte, self.taking()), None),
            ),
        )
    }

    /// Whether the open begin is the actor's own.
    fn is_opener(&self, actor: Actor) -> bool
        ensures { result ≡ legal.is_opener actor (open_of (reverse self.now.entries)) }
    {
        is_someone(actor, self.requester())
    }

    fn is_next_host(&self, made: HostMove) -> bool
        ensures { result ≡ legal.is_host_move made (next_move self.now.machine (reverse self.now.entries)) }
    {
        is_next_host(made, self.host_move())
    }

    fn is_next_effect(&self, made: Effect) -> bool
        ensures { result ≡ legal.is_ctl_move made (next_move self.now.machine (reverse self.now.entries)) }
    {
        is_next_effect(made, self.ctl_move())
    }
}

/// The rule of a condition that fails, else what the conditions behind it say.
fn test(rule: LogRule, holds: bool, rest: Option<LogRule>) -> Option<LogRule>
    ensures { result ≡ (if holds then rest else Some rule) }
{
    if holds { rest } else { Some(rule) }
}
