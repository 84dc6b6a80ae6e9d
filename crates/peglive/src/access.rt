//! The file of who may log on from where.
use crate::config::tell_unread;
use crate::exit::Exit;
use live_words::{Access, Network, Rule, address_of};
use socket_ports::MAX_DOORS;
use std::alloc::{AllocError, Global};
use std::net::{IpAddr, SocketAddr};
use std::{fmt, fs};
use venue_words::Config;

/// What is wrong with a line.
#[derive(Clone, Copy, Debug, PartialEq, Eq)]
enum Fault {
    /// It is of neither form.
    BadWords,
    /// The config has no member of this name.
    UnknownMember,
    /// The word is no network.
    BadNetwork,
    /// The word is no address to listen at.
    BadAddress,
    /// Others may log on at this address.
    SharedAddress,
    /// There are as many further addresses as may be.
    TooMany,
}

impl fmt::Display for Fault {
    fn fmt<W: fmt::Write>(&self, f: &mut fmt::Formatter<W>) -> fmt::Result {
        f.write_str(match self {
            Fault::BadWords =>
                "a line is NAME FROM NETWORK or NAME AT ADDRESS, with one space between",
            Fault::UnknownMember => "the config has no member of this name",
            Fault::BadNetwork => {
                "a network is an address, as 10.1.2.3, or its first address and how many bits all of it share, as 10.1.0.0/16"
            }
            Fault::BadAddress => "an address is an IP address and a port, as 127.0.0.1:7002",
            Fault::SharedAddress => "other members may log on at this address",
            Fault::TooMany => "there are too many addresses",
        })
    }
}

/// A further address, and the member who alone may log on there.
#[derive(Clone, Copy, Debug)]
pub struct OwnDoor {
    pub member: usize,
    pub address: SocketAddr,
}

/// Who may log on from where, and the further addresses by their doors, the first of which is 1.
#[derive(Drop)]
pub struct Listed {
    pub access: Access,
    pub doors: Vec<OwnDoor>,
}

/// What the lines so far say.
#[derive(Drop)]
struct Rules {
    /// The address of all members.
    shared: Option<SocketAddr>,
    rules: Vec<Rule>,
    doors: Vec<OwnDoor>,
}

/// The network that a word says.
fn network_of(word: &str) -> Option<Network> {
    let (address, bits) = match word.split_once('/') {
        Some((address, bits)) => (address, Some(bits)),
        None => (word, None),
    };
    let address = address.parse::<IpAddr>().ok()?;
    let most = if address.is_ipv4() { 32u32 } else { 128 };
    let bits = match bits {
        Some(bits) => bits.parse::<u32>().ok()?,
        None => most,
    };
    let mask = match most.checked_sub(bits)? {
        free if free < 128 => u128::MAX << free,
        _ => 0,
    };
    let first = address_of(address);
    if first & mask == first {
        Some(Network { first, mask })
    } else {
        None
    }
}

impl Rules {
    /// The door of a member at an address, which is one more where there is none.
    fn door(&mut self, member: usize, address: SocketAddr) -> Result<usize, Fault> {
        if self.shared == Some(address) {
            return Err(Fault::SharedAddress);
        }
        for (index, door) in self.doors.iter().enumerate() {
            if door.address == address {
                return if door.member == member {
                    Ok(index.saturating_add(1))
                } else {
                    Err(Fault::SharedAddress)
                };
            }
        }
        if self.doors.len() >= MAX_DOORS - 1
            || self.doors.push(OwnDoor { member, address }).is_err()
        {
            return Err(Fault::TooMany);
        }
        Ok(self.doors.len())
    }

    /// The rule of a line.
    fn rule_of(&mut self, config: &Config, line: &[u8]) -> Result<Rule, Fault> {
        let Ok(line) = str::from_utf8(line) else {
            return Err(Fault::BadWords);
        };
        let mut words = line.split(' ');
        let (Some(name), Some(how), Some(what), None) = (
            words.next(),
            words.next(),
            words.next(),
            words.next(),
        ) else {
            return Err(Fault::BadWords);
        };
        let Some(member) = config
            .members
            .as_slice()
            .iter()
            .position(|other| other.as_slice() == name.as_bytes())
        else {
            return Err(Fault::UnknownMember);
        };
        match how {
            "FROM" => match network_of(what) {
                Some(network) => Ok(Rule::From { member, network }),
                None => Err(Fault::BadNetwork),
            },
            "AT" => match what.parse::<SocketAddr>() {
                Ok(address) => {
                    let door = self.door(member, address)?;
                    Ok(Rule::At { member, door })
                }
                Err(_) => Err(Fault::BadAddress),
            },
            _ => Err(Fault::BadWords),
        }
    }
}

/// Says what is wrong with each line that will not do, and answers how many these are; none where out of memory.
fn read_lines(
    rt: &HostRuntime,
    name: &str,
    text: &[u8],
    config: &Config,
    rules: &mut Rules,
) -> Result<usize, Exit> {
    let mut bad: usize = 0;
    for (index, line) in text.split(|byte| *byte == b'\n').enumerate() {
        if line.is_empty() || line.starts_with(b"#") {
            continue;
        }
        match rules.rule_of(config, line) {
            Ok(rule) => {
                if rules.rules.push(rule).is_err() {
                    return Err(Exit::NoMemory);
                }
            }
            Err(fault) => {
                bad = bad.saturating_add(1);
                if eprintln!(rt; "peglive: {name}:{}: {fault}", index.saturating_add(1)).is_err() {
                    return Err(Exit::Unwritten);
                }
            }
        }
    }
    Ok(bad)
}

/// Reads who may log on from where. All lines that will not do are told.
pub fn read_access(
    rt: &HostRuntime,
    name: &str,
    config: &Config,
    members: &str,
) -> Result<Listed, Exit> {
    let Ok(text) = fs::read(rt, name) else {
        return match tell_unread(rt, name) {
            Ok(()) => Err(Exit::Unread),
            Err(_) => Err(Exit::Unwritten),
        };
    };
    let mut rules = Rules {
        shared: members.parse::<SocketAddr>().ok(),
        rules: Vec::new(rt.alloc()),
        doors: Vec::new(rt.alloc()),
    };
    if read_lines(rt, name, text.as_slice(), config, &mut rules)? > 0 {
        return Err(Exit::BadAccess);
    }
    Ok(Listed {
        access: Access::Listed(rules.rules),
        doors: rules.doors,
    })
}

/// Whether members are let in from this machine alone.
pub fn is_of_this_machine(members: &str) -> bool {
    match members.parse::<SocketAddr>() {
        Ok(address) => address.ip().is_loopback(),
        Err(_) => true,
    }
}
