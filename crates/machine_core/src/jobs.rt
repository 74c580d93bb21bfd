//! The jobs that were made, in order, and how many of them were started.
ghost use Rattle.std.specs.Prelude.{◌≡◌, ◌+◌, ◌<◌, ◌≤◌, ◌^◌, [], IfOk, length, vec_capacity};
ghost use Rattle.machine_history.specs.Jobs.{and_job, event_ended, starts_after};
ghost use Rattle.machine_core.specs.Jobs.{next_start};

use acpi_regs::{Deed, Event, Memory};
use machine_history::Job;
use std::alloc::Global;

/// All jobs so far. The first ones were started, in order.
#[derive(Debug, Drop)]
pub struct Jobs {
    pub made: Vec<Job>,
    pub starts: u32,
}

impl Jobs {
    /// No job, and room for so many.
    pub fn new(alloc: Global, room: usize) -> Result<Jobs, Memory>
        ensures made { IfOk result (λ jobs. jobs.made.items ≡ []) }
        ensures starts { IfOk result (λ jobs. jobs.starts ≡ 0) }
        ensures room { IfOk result (λ jobs. vec_capacity jobs.made ≡ room) }
    {
        let made = Vec::with_capacity(alloc, room)?;
        Ok(Jobs { made, starts: 0 })
    }

    /// The jobs after an entry that made this one, if it made one.
    pub fn add(&mut self, deed: Deed, made: Option<Job>)
        requires room { length self.old.made.items < vec_capacity self.old.made }
        requires starts { self.old.starts + 1 < 2 ^ 32 }
        ensures made { self.new.made.items ≡ and_job self.old.made.items made }
        ensures starts { self.new.starts ≡ starts_after deed self.old.starts }
        ensures room { vec_capacity self.new.made ≡ vec_capacity self.old.made }
    {
        add_job(&mut self.made, made);
        self.starts = starts_after(self.starts, deed);
    }

    /// The number of the next job to start, where one waits.
    pub fn next_start(&self) -> Option<u32>
        ensures { result ≡ next_start self.now.made.items self.now.starts }
    {
        if (self.starts as usize) < self.made.len() {
            Some(self.starts)
        } else {
            None
        }
    }

    /// The event whose job has this number.
    pub fn event_ended(&self, job: u32) -> Option<Event>
        ensures { result ≡ event_ended self.now.made.items job }
    {
        match self.made.get(job as usize) {
            Some(Job::Event(event)) => Some(*event),
            _ => None,
        }
    }
}

fn add_job(jobs: &mut Vec<Job>, made: Option<Job>)
    requires { length jobs.old.items < vec_capacity jobs.old }
    ensures items { jobs.new.items ≡ and_job jobs.old.items made }
    ensures capacity { vec_capacity jobs.new ≡ vec_capacity jobs.old }
{
    if let Some(job) = made {
        jobs.push_reserved(job);
    }
}

fn starts_after(starts: u32, deed: Deed) -> u32
    requires { starts + 1 < 2 ^ 32 }
    ensures { result ≡ starts_after deed starts }
{
    match deed {
        Deed::Start(_) => starts + 1,
        _ => starts,
    }
}
