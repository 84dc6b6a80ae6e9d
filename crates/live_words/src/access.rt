//! Who may log on from where.
ghost use Rattle.std.specs.Prelude.{◌≡◌, ◌==◌, ◌&&◌, true};
ghost use Rattle.std.specs.List.{list_any};
ghost use Rattle.live_words.specs.Access.{is_in, lets, IsAllowed};

use std::net::IpAddr;

/// Where a connection came in.
#[derive(Clone, Copy, Debug, PartialEq, Eq)]
pub struct Origin {
    /// The door: 0 is that of all members.
    pub door: usize,
    /// The address that it came from; one of IPv4 as the address of IPv6 that maps it.
    pub address: u128,
}

/// An address as an origin has it.
pub fn address_of(address: IpAddr) -> u128 {
    match address {
        IpAddr::V4(address) => address.to_ipv6_mapped().to_bits(),
        IpAddr::V6(address) => address.to_bits(),
    }
}

/// Addresses that share their first bits.
#[derive(Clone, Copy, Debug, PartialEq, Eq)]
pub struct Network {
    /// The first address.
    pub first: u128,
    /// The bits that all addresses of the network share with the first.
    pub mask: u128,
}

impl Network {
    /// Whether an address is one of the network's.
    fn contains(self, address: u128) -> bool
        ensures { result ≡ is_in self address }
    {
        address & self.mask == self.first & self.mask
    }
}

/// From where a member may log on.
#[derive(Clone, Copy, Debug, PartialEq, Eq)]
pub enum Rule {
    /// From an address of this network, at the door of all members.
    From { member: usize, network: Network },
    /// At this further door, from any address.
    At { member: usize, door: usize },
}

impl Rule {
    /// Whether a connection from there may be the member's.
    fn lets(self, member: usize, origin: Origin) -> bool
        ensures { result ≡ lets self member origin }
    {
        match self {
            Rule::From {
                member: whose,
                network,
            } => whose == member && origin.door == 0 && network.contains(origin.address),
            Rule::At {
                member: whose,
                door,
            } => whose == member && origin.door == door,
        }
    }
}

/// Who may log on from where.
#[derive(Drop)]
pub enum Access {
    /// Each member from anywhere.
    Anywhere,
    /// Each member as a rule lets him; one of whom there is no rule can't log on.
    Listed(Vec<Rule>),
}

impl Access {
    /// Whether a connection from there may be a member's.
    pub fn allows(&self, member: usize, origin: Origin) -> bool
        ensures { result ≡ true → IsAllowed self.now member origin }
    {
        match self {
            Access::Anywhere => true,
            Access::Listed(rules) => rules.iter().any(|rule| rule.lets(member, origin)),
        }
    }
}
