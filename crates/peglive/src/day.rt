//! A day over sockets.
ghost use Rattle.std.specs.Prelude.{◌≡◌, ℕ, [], IfOk};
ghost use Rattle.venue_words.specs.Conditions.{IsConfig};

use crate::access::{Listed, is_of_this_machine, read_access};
use crate::config::{Head, read_head};
use crate::exit::Exit;
use crate::words::{Day, Service};
use day_journal::FileDisk;
use io_edge::RealClock;
use live_core::{DayEnd, serve_day};
use live_edge::LiveEdge;
use live_machine::{BookMachine, PhaseMachine};
use live_words::{Access, Names};
use ports::Ports;
use socket_ports::{Door, DoorFault, Sockets};
use std::sync::ledger::{Blank, Ledger};
use venue_words::{Config, Steps};

/// Says why a door is not open.
fn tell_door(rt: &HostRuntime, word: &str, fault: DoorFault) -> Exit {
    match eprintln!(rt; "peglive: {word}: {fault}") {
        Ok(()) => Exit::NoDoor,
        Err(_) => Exit::Unwritten,
    }
}

/// Who may log on from where. Without a file members are let in from this machine alone.
fn access_of(rt: &HostRuntime, service: Service<'_>, config: &Config) -> Result<Listed, Exit> {
    if let Some(file) = service.access {
        return read_access(rt, file, config, service.members);
    }
    if !is_of_this_machine(service.members) {
        return Err(Exit::OpenDoor);
    }
    match eprintln!(rt;
        "peglive: members are let in from this machine alone, where any program may log on as any of them; --access FILE says who may from where"
    ) {
        Ok(()) => Ok(Listed {
            access: Access::Anywhere,
            doors: Vec::new(rt.alloc()),
        }),
        Err(_) => Err(Exit::Unwritten),
    }
}

/// Opens the door of all members, and the further ones.
fn open_doors(rt: &HostRuntime, members: &str, listed: &Listed) -> Result<Vec<Door>, Exit> {
    let mut doors = Vec::new(rt.alloc());
    match Door::at_address(rt, members) {
        Ok(door) => keep_door(&mut doors, door)?,
        Err(fault) => return Err(tell_door(rt, members, fault)),
    }
    for own in listed.doors.as_slice() {
        match Door::listen(rt, own.address) {
            Ok(door) => keep_door(&mut doors, door)?,
            Err(fault) => {
                return match eprintln!(rt; "peglive: {}: {fault}", own.address) {
                    Ok(()) => Err(Exit::NoDoor),
                    Err(_) => Err(Exit::Unwritten),
                };
            }
        }
    }
    Ok(doors)
}

/// One door more.
fn keep_door(doors: &mut Vec<Door>, door: Door) -> Result<(), Exit> {
    match doors.push(door) {
        Ok(()) => Ok(()),
        Err(_) => Err(Exit::NoMemory),
    }
}

/// The sockets of a day, whose doors are open.
fn sockets_of<'a>(
    rt: &'a HostRuntime,
    service: Service<'_>,
    config: &Config,
    listed: &Listed,
) -> Result<Sockets<'a, HostRuntime>, Exit>
    ensures unused { IfOk result (λ sockets. (port : ℕ) → ⟦<Sockets<'a, HostRuntime> as Ports>⟧.went sockets port ≡ []) }
{
    let members = open_doors(rt, service.members, listed)?;
    let desk = match Door::at(rt, service.desk) {
        Ok(door) => door,
        Err(fault) => return Err(tell_door(rt, service.desk, fault)),
    };
    let Ok(names) = Names::of(rt.alloc(), config) else {
        return Err(Exit::NoMemory);
    };
    match Sockets::new(rt, rt.alloc(), members, desk, names) {
        Ok(sockets) => Ok(sockets),
        Err(error) => Err(tell_door(rt, service.members, DoorFault::System(error))),
    }
}

/// Runs a day over sockets, until an operator stops it or something fails.
pub fn serve<L: Ledger>(rt: &HostRuntime, day: Day<'_>, service: Service<'_>, blank: Blank) -> Exit
    requires { (blank.name ≡ L.name) × (blank.parts ≡ L.parts) × (L.parts ≡ 1) }
{
    let Head { config, lines } = match read_head(rt, day.config) {
        Ok(head) => head,
        Err(exit) => return exit,
    };
    let listed = match access_of(rt, service, &config) {
        Ok(listed) => listed,
        Err(exit) => return exit,
    };
    let sockets = match sockets_of(rt, service, &config, &listed) {
        Ok(sockets) => sockets,
        Err(exit) => return exit,
    };
    let made = LiveEdge::new(
        rt.alloc(),
        sockets,
        RealClock::new(rt),
        config,
        listed.access,
        service.stale,
    );
    let Ok(mut edge) = made else {
        return Exit::NoMemory;
    };
    let mut machine: BookMachine<L> = PhaseMachine::new(rt.alloc(), Steps::start(blank));
    let (end, disk) = serve_day(
        rt.alloc(),
        &mut machine,
        lines,
        FileDisk::new(rt),
        day.journal,
        &mut edge,
    );
    if end == DayEnd::DiskFault && disk.is_held_elsewhere() {
        return Exit::Held;
    }
    Exit::Day(end)
}
