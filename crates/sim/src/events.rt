//! What a command of a script is to a run: its events.
ghost use Rattle.std.specs.Prelude.{◌≡◌, ◌++◌, OnOk};
ghost use Rattle.sim.specs.Events.{drive_events, install_events, log_events, one_event};

use sim_words::OneEvent;
use std::alloc::AllocError;
use store::Event;

/// How often a worker goes on where it is driven: more often than any procedure needs.
pub const DRIVES: u32 = 2000;

/// One event.
pub fn one_event(event: OneEvent) -> Event
    ensures { result ≡ one_event event }
{
    match event {
        OneEvent::Work(worker) => Event::Work(worker as usize),
        OneEvent::Read(worker) => Event::Read(worker as usize),
        OneEvent::Log => Event::Log,
        OneEvent::LogIo => Event::LogIo,
        OneEvent::Install => Event::Install,
        OneEvent::InstIo => Event::InstIo,
    }
}

/// A worker goes on, with each read that is due.
#[tactic(auto, using(crate::proofs::Repeated::two_more, crate::proofs::Repeated::repeated_none))]
pub fn drive(events: &mut Vec<Event>, worker: u32) -> Result<(), AllocError>
    ensures { OnOk result (events.new.items ≡ events.old.items ++ drive_events worker) }
{
    let worker = worker as usize;
    'drives: for _made in 0..DRIVES {
        events.push(Event::Work(worker))?;
        events.push(Event::Read(worker))?;
    }
    Ok(())
}

/// The log makes so many device calls: each is taken, made and given back.
#[tactic(auto, using(crate::proofs::Repeated::three_more, crate::proofs::Repeated::repeated_none))]
pub fn log(events: &mut Vec<Event>, calls: u32) -> Result<(), AllocError>
    ensures { OnOk result (events.new.items ≡ events.old.items ++ log_events calls) }
{
    'calls: for _made in 0..calls {
        events.push(Event::Log)?;
        events.push(Event::LogIo)?;
        events.push(Event::Log)?;
    }
    Ok(())
}

/// And so does the installer.
#[tactic(auto, using(crate::proofs::Repeated::three_more, crate::proofs::Repeated::repeated_none))]
pub fn install(events: &mut Vec<Event>, calls: u32) -> Result<(), AllocError>
    ensures { OnOk result (events.new.items ≡ events.old.items ++ install_events calls) }
{
    'calls: for _made in 0..calls {
        events.push(Event::Install)?;
        events.push(Event::InstIo)?;
        events.push(Event::Install)?;
    }
    Ok(())
}
