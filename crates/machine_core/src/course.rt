//! How far an actor has come in what it has to do: in a script, in the acts of a query job, or nowhere.
ghost use Rattle.std.specs.Prelude.{◌≡◌, [], IfOk, None, Some, MatchOption, slice_get, true, is_some, unwrap_or, List};
ghost use Rattle.std.specs.Option.{option_copied};
ghost use Rattle.handler_script.specs.Plan.{next_act, plan_after, query_plan};
ghost use Rattle.machine_desc.specs.declared.machine.ListedEvent.{ListedEvent};
ghost use Rattle.machine_desc.specs.Machine.{MachineData, glk};
ghost use Rattle.machine_history.specs.Machine.{query_in, script_in};
ghost use Rattle.machine_history.specs.Scripts.{job_plan, left_after};
ghost use Rattle.machine_core.specs.Actors.{FitsDeed, FitsNext, Stands, byte_of, handler_of, left_by, left_in, plan_in, query_handler_of, query_left, script_at, stands_in};
ghost use Rattle.machine_history.specs.Scripts as scripts;

use crate::same::same_event;
use acpi_regs::{Deed, Event, Request};
use handler_script::{Act, Cursor, Script};
use machine_desc::{ListedEvent, Machine, Query};
use machine_history::Job;

/// Where a script stands in the machine.
#[derive(Clone, Copy, Debug)]
pub enum ScriptPlace {
    /// The firmware's script of this number.
    Firmware(u8),
    /// The handler of the listed event at this place.
    Event(usize),
    /// The handler of the query code at this place.
    Query(usize),
}

/// The next act of a query job (ACPI 6.5, section 12.3.5).
#[derive(Clone, Copy, Debug)]
pub enum QueryStage {
    /// Takes the lock, which the controller needs.
    Lock,
    /// Asks for the first code, under the lock.
    Ask,
    /// Gives the lock back.
    Unlock,
    /// Asks for the first code without the lock, and does nothing else: the controller needs no lock.
    Alone,
}

/// What an actor has left.
#[derive(Clone, Copy, Debug)]
pub enum Course {
    /// Nothing.
    Ended,
    /// A query job from this act on.
    Query(QueryStage),
    /// A script from this cursor on.
    Script(ScriptPlace, Cursor),
}

impl QueryStage {
    /// The first act of a query job of this machine.
    fn first(machine: &Machine) -> QueryStage
        ensures { query_left result ≡ query_plan (glk machine.now) }
    {
        if machine.glk() {
            QueryStage::Lock
        } else {
            QueryStage::Alone
        }
    }

    fn act(self) -> Act
        ensures { next_act (query_left self) ≡ Some result }
    {
        match self {
            QueryStage::Lock => Act::Lock,
            QueryStage::Ask => Act::Ask(Request::Qr),
            QueryStage::Unlock => Act::Unlock,
            QueryStage::Alone => Act::Ask(Request::Qr),
        }
    }
}

impl Course {
    /// At the begin of a script.
    pub fn begun(place: ScriptPlace) -> Course
        ensures left { (m : MachineData) → left_by m result ≡ plan_in m (script_at m place) }
        ensures stands { (m : MachineData) → Stands m result }
    {
        Course::Script(place, Cursor::new())
    }

    /// At the begin of what a job has to do.
    pub fn of_job(machine: &Machine, job: Option<Job>) -> Course
        ensures left { left_by machine.now result ≡ job_plan machine.now job }
        ensures stands { Stands machine.now result }
    {
        match job {
            Some(Job::Event(event)) => Course::of_event(machine, event),
            Some(Job::Query) => Course::Query(QueryStage::first(machine)),
            Some(Job::Code(code)) => Course::of_code(machine, code),
            None => Course::Ended,
        }
    }

    fn of_event(machine: &Machine, event: Event) -> Course
        ensures left { left_by machine.now result ≡ job_plan machine.now (Some (Job.Event event)) }
        ensures stands { Stands machine.now result }
    {
        match event_place(machine.events(), event) {
            Some(place) => Course::begun(ScriptPlace::Event(place)),
            None => Course::Ended,
        }
    }

    fn of_code(machine: &Machine, code: u8) -> Course
        ensures left { left_by machine.now result ≡ job_plan machine.now (Some (Job.Code code)) }
        ensures stands { Stands machine.now result }
    {
        let place = match machine.controller() {
            Some(controller) => code_place(controller.queries.as_slice(), code),
            None => None,
        };
        match place {
            Some(place) => Course::begun(ScriptPlace::Query(place)),
            None => Course::Ended,
        }
    }

    /// The next act; `None` where nothing is left.
    pub fn next(self, machine: &Machine) -> Option<Act>
        requires { Stands machine.now self }
        ensures { result ≡ next_act (left_by machine.now self) }
    {
        match self {
            Course::Ended => None,
            Course::Query(stage) => Some(stage.act()),
            Course::Script(place, cursor) => next_in(machine, place, cursor),
        }
    }

    /// The course after a deed of its actor, where these jobs were made before.
    pub fn after(self, machine: &Machine, made: &[Job], deed: Deed) -> Course
        requires stands { Stands machine.now self }
        requires fits { FitsDeed machine.now self deed }
        ensures left { left_by machine.now result ≡ left_after machine.now made.now deed (left_by machine.now self) }
        ensures stands { Stands machine.now result }
    {
        match deed {
            Deed::Start(job) => Course::of_job(machine, nth_job(made, job)),
            Deed::Finish(_) => Course::Ended,
            _ => {
                if passes(deed) {
                    self.passed(machine, byte_of(deed))
                } else {
                    self
                }
            }
        }
    }

    /// Behind the next act, with the byte that it was answered where it brings one.
    fn passed(self, machine: &Machine, byte: Option<u8>) -> Course
        requires stands { Stands machine.now self }
        requires fits { FitsNext machine.now self byte }
        ensures left { left_by machine.now result ≡ plan_after (unwrap_or byte 0) (left_by machine.now self) }
        ensures stands { Stands machine.now result }
    {
        match self {
            Course::Ended => Course::Ended,
            Course::Query(QueryStage::Lock) => Course::Query(QueryStage::Ask),
            Course::Query(QueryStage::Ask) => Course::Query(QueryStage::Unlock),
            Course::Query(QueryStage::Unlock) => Course::Ended,
            Course::Query(QueryStage::Alone) => Course::Ended,
            Course::Script(place, cursor) => {
                Course::Script(place, passed_in(machine, place, cursor, byte))
            }
        }
    }
}

/// The script at a place, where the machine has one.
fn script_at(machine: &Machine, place: ScriptPlace) -> Option<&Script>
    ensures { option_copied result ≡ script_at machine.now place }
{
    match place {
        ScriptPlace::Firmware(number) => machine.firmware().get(usize::from(number)),
        ScriptPlace::Event(place) => handler_at(machine.events(), place),
        ScriptPlace::Query(place) => match machine.controller() {
            Some(controller) => query_handler_at(controller.queries.as_slice(), place),
            None => None,
        },
    }
}

fn handler_at(events: &[ListedEvent], place: usize) -> Option<&Script>
    ensures { option_copied result ≡ handler_of (slice_get events.now place) }
{
    match events.get(place) {
        Some(event) => Some(&event.script),
        None => None,
    }
}

fn query_handler_at(queries: &[Query], place: usize) -> Option<&Script>
    ensures { option_copied result ≡ query_handler_of (slice_get queries.now place) }
{
    match queries.get(place) {
        Some(query) => Some(&query.script),
        None => None,
    }
}

fn next_in(machine: &Machine, place: ScriptPlace, cursor: Cursor) -> Option<Act>
    requires { stands_in machine.now (script_at machine.now place) cursor ≡ true }
    ensures { result ≡ next_act (left_in machine.now (script_at machine.now place) cursor) }
{
    machine.law_rules();
    match script_at(machine, place) {
        Some(script) => cursor.next(script, machine.act_fields()),
        None => None,
    }
}

fn passed_in(machine: &Machine, place: ScriptPlace, cursor: Cursor, byte: Option<u8>) -> Cursor
    requires stands { stands_in machine.now (script_at machine.now place) cursor ≡ true }
    requires fits { FitsNext machine.now (Course.Script place cursor) byte }
    ensures stands { stands_in machine.now (script_at machine.now place) result ≡ true }
    ensures left { left_in machine.now (script_at machine.now place) result
        ≡ plan_after (unwrap_or byte 0) (left_in machine.now (script_at machine.now place) cursor) }
{
    machine.law_rules();
    let mut passed = cursor;
    match script_at(machine, place) {
        Some(script) => passed.answer(script, machine.act_fields(), byte),
        None => {}
    }
    passed
}

/// The place of the first of these that lists the event.
fn event_place(events: &[ListedEvent], event: Event) -> Option<usize>
    ensures { MatchOption result (script_in events.now event ≡ [])
        (λ i. handler_of (slice_get events.now i) ≡ Some (script_in events.now event)) }
{
    for (place, listed) in events.iter().enumerate() {
        if same_event(listed.listed.event, event) {
            return Some(place);
        }
    }
    None
}

/// The place of the first of these that handles the code.
fn code_place(queries: &[Query], code: u8) -> Option<usize>
    ensures { MatchOption result (query_in queries.now code ≡ [])
        (λ i. query_handler_of (slice_get queries.now i) ≡ Some (query_in queries.now code)) }
{
    for (place, query) in queries.iter().enumerate() {
        if query.code == code {
            return Some(place);
        }
    }
    None
}

fn nth_job(made: &[Job], job: u32) -> Option<Job>
    ensures { result ≡ slice_get made.now job }
{
    made.get(job as usize).copied()
}

/// Whether the deed passes the next act of its actor.
fn passes(deed: Deed) -> bool
    ensures { result ≡ scripts.passes deed }
{
    matches!(
        deed,
        Deed::Own
            | Deed::Disown
            | Deed::Read(..)
            | Deed::Write(..)
            | Deed::Take(_)
            | Deed::Push(_)
            | Deed::Raise(_)
            | Deed::Assert(_)
            | Deed::Drop(_)
            | Deed::Notify(..)
            | Deed::Up(_)
            | Deed::Down(_)
    )
}

/// The byte that a deed brings for the act that it passes.
fn byte_of(deed: Deed) -> Option<u8>
    ensures { result ≡ byte_of deed }
{
    match deed {
        Deed::Read(_, byte) => Some(byte),
        Deed::Take(byte) => byte,
        _ => None,
    }
}
