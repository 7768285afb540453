//! What happens from an opening to a crash or to the end: one call of `run`.
ghost use Rattle.std.specs.Prelude.{◌≡◌, OnOk};
ghost use Rattle.sim.specs.Segments.{nothing, with_action, with_show};

use crate::events::{drive, install, log, one_event};
use crate::handed::Handed;
use nfs_types::Moment;
use sim_words::Action;
use std::alloc::{AllocError, Global};
use std::marker::Model;
use store::Event;

/// The events so far, the messages among them, the device calls that fail, counted from the opening's first, and whether
/// the files are told.
#[derive(Drop)]
pub struct Segment {
    pub events: Vec<Event>,
    pub handed: Vec<Handed>,
    pub fails: Vec<u32>,
    pub shows: bool,
}

impl Model for Segment {
    ghost use Rattle.sim.specs.Segments.{Happened};

    ghost Value = { Happened };

    ghost view = { λ s. record { events = s.events.items; handed = s.handed.items; fails = s.fails.items; shows = s.shows } };
}

impl Segment {
    /// Nothing has happened yet.
    pub fn new(alloc: Global) -> Segment
        ensures { result ≡ nothing }
    {
        Segment {
            events: Vec::new(alloc),
            handed: Vec::new(alloc),
            fails: Vec::new(alloc),
            shows: false,
        }
    }

    /// The files are told.
    pub fn show(&mut self)
        ensures { self.new ≡ with_show self.old }
    {
        self.shows = true;
    }

    /// Something more happens at this moment.
    pub fn add(&mut self, moment: Moment, action: Action) -> Result<(), AllocError>
        ensures { OnOk result (self.new ≡ with_action moment action self.old) }
    {
        match action {
            Action::Call {
                worker,
                xid,
                credential,
                call,
            } => {
                let event = self.events.len();
                let worker = worker as usize;
                self.handed.push(Handed { event, worker, xid })?;
                self.events.push(Event::Call {
                    worker,
                    credential,
                    moment,
                    call,
                })?;
                Ok(())
            }
            Action::Drive(worker) => drive(&mut self.events, worker),
            Action::Log(calls) => log(&mut self.events, calls),
            Action::Install(calls) => install(&mut self.events, calls),
            Action::Event(event) => {
                self.events.push(one_event(event))?;
                Ok(())
            }
            Action::Fail(call) => {
                self.fails.push(call)?;
                Ok(())
            }
        }
    }
}
