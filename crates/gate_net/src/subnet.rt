//! A range of addresses that begin alike.
ghost use Rattle.std.specs.Prelude.{◌≡◌, ◌==◌, ◌<◌, ◌≤◌, ◌/◌, ◌^◌, slice_index, MatchOption, None, Some};
ghost use Rattle.std.specs.Result.{result_ok};
ghost use Rattle.std.specs.Net.Addr.{ipv4_bits};
ghost use Rattle.gate_net.specs.Addresses.{seen, is_mapped};
ghost use Rattle.gate_net.specs.Subnets.{netmask, mask_length, length_of, prefix_of, parted_at, subnet_at, slashed, subnet_of, host, is_in, width};

use crate::address::{Address, written};
use gate_rules::NetDenial;
use std::marker::Model;
use std::net::{IpAddr, Ipv4Addr};

/// An address and how many of its first bits count (RFC 4632). The other bits of the address mean nothing.
#[derive(Clone, Copy, PartialEq, Eq)]
pub struct Subnet {
    address: Address,
    prefix: u8,
}

impl Model for Subnet {
    ghost use Rattle.gate_net.specs.Subnets.{Subnet as Range, IsSubnet};

    ghost Value = { Range };

    ghost view = { λ s. record { address = s.address; prefix = s.prefix } };

    ghost invariant = { λ s. IsSubnet (record { address = s.address; prefix = s.prefix }) };

    ghost inverse = { λ s. record { address = s.address; prefix = s.prefix } };
}

/// The netmask, of 32 bits, that begins with this many ones.
fn mask_of(ones: u32) -> u64
    requires { ones ≤ 32 }
    ensures { result ≡ netmask ones }
{
    (1 << 32) - (1 << (32 - ones))
}

/// How many ones a netmask has before its zeros; none if a one follows a zero.
fn ones_of(mask: Ipv4Addr) -> Option<u8>
    ensures { result ≡ mask_length (ipv4_bits mask) }
{
    let bits = mask.to_bits();
    let ones = bits.leading_ones();
    if u64::from(bits) == mask_of(ones) {
        Some(ones as u8)
    } else {
        None
    }
}

fn begins_with_plus(text: &[u8]) -> bool
    ensures { result ≡ (slice_index text.now 0 == 43) }
{
    match text {
        [b'+', ..] => true,
        _ => false,
    }
}

/// Reads a number of one to three digits, which may begin with zeros, of at most `most`.
fn read_length(text: &str, most: u8) -> Option<u8>
    ensures { result ≡ length_of most text.now }
{
    if text.len() > 3 {
        return None;
    }
    if begins_with_plus(text.as_bytes()) {
        return None;
    }
    match text.parse::<u8>() {
        Ok(n) => if n <= most { Some(n) } else { None },
        Err(_) => None,
    }
}

fn read_prefix(ip: IpAddr, text: &str) -> Option<u8>
    ensures { result ≡ prefix_of (seen ip) text.now }
{
    match ip {
        IpAddr::V4(_) => match read_length(text, 32) {
            Some(n) => Some(n),
            None => match text.parse::<Ipv4Addr>() {
                Ok(mask) => ones_of(mask),
                Err(_) => None,
            },
        },
        IpAddr::V6(_) => read_length(text, 128),
    }
}

/// The text before the first `at` and the text after it, or none if there is no `at`.
pub(crate) fn part(text: &str, at: char) -> Option<(&str, &str)>
    requires { at < 128 }
    ensures { MatchOption result (parted_at at text.now ≡ None) (λ p. parted_at at text.now ≡ Some (p.0.now, p.1.now)) }
{
    text.split_once(at)
}

fn first_bits(bits: u128, dropped: u32) -> u128
    requires { dropped ≤ 128 }
    ensures { result ≡ bits / 2 ^ dropped }
{
    bits.checked_shr(dropped).unwrap_or(0)
}

impl Subnet {
    fn host(address: Address) -> Subnet
        ensures { result ≡ host address }
    {
        let prefix = match address.ip() {
            IpAddr::V4(_) => 32,
            IpAddr::V6(_) => 128,
        };
        Subnet { address, prefix }
    }

    fn read_host(text: &str) -> Result<Subnet, NetDenial>
        ensures { result ≡ subnet_at text.now None }
    {
        match Address::parse(text) {
            Some(address) => Ok(Subnet::host(address)),
            None => Err(NetDenial::BadSubnet),
        }
    }

    /// Reads a subnet from the address before the slash and the text behind it.
    fn read_slashed(ip: IpAddr, text: &str) -> Result<Subnet, NetDenial>
        ensures { result ≡ slashed text.now (Some (seen ip)) }
    {
        if is_mapped_address(ip) {
            return Err(NetDenial::MappedSubnet);
        }
        match read_prefix(ip, text) {
            Some(prefix) => Ok(Subnet {
                address: Address::of(ip),
                prefix,
            }),
            None => Err(NetDenial::BadSubnet),
        }
    }

    /// Reads a subnet, or names the rule that fails, N3 before N2.
    pub(crate) fn read(text: &str) -> Result<Subnet, NetDenial>
        ensures { result ≡ subnet_of text.now }
    {
        match part(text, '/') {
            Some((left, right)) => match written(left) {
                Some(ip) => Subnet::read_slashed(ip, right),
                None => Err(NetDenial::BadSubnet),
            },
            None => Subnet::read_host(text),
        }
    }

    /// Reads an address; an address, a slash and a number of bits in one to three digits, at most 32 or 128; or an IPv4
    /// address, a slash and a netmask, which is written as an IPv4 address and has its ones before its zeros. An IPv6
    /// address in ::ffff:0:0/96 may not have a slash.
    pub fn parse(text: &str) -> Option<Subnet>
        ensures { result ≡ result_ok (subnet_of text.now) }
    {
        Subnet::read(text).ok()
    }

    /// Whether the address is of the subnet's family and begins with the bits of the subnet that count.
    pub fn contains(&self, address: &Address) -> bool
        ensures { result ≡ is_in address.now self.now }
    {
        match (address.ip(), self.address.ip()) {
            (IpAddr::V4(a), IpAddr::V4(b)) => {
                let dropped = 32 - u32::from(self.prefix);
                first_bits(u128::from(a.to_bits()), dropped)
                    == first_bits(u128::from(b.to_bits()), dropped)
            }
            (IpAddr::V6(a), IpAddr::V6(b)) => {
                let dropped = 128 - u32::from(self.prefix);
                first_bits(a.to_bits(), dropped) == first_bits(b.to_bits(), dropped)
            }
            _ => false,
        }
    }

    /// How many of the first bits count: at most 32 of an IPv4 address, and at most 128 of an IPv6 address.
    pub fn prefix(&self) -> u8
        ensures value { result ≡ self.now.prefix }
        ensures bound { result ≤ width self.now.address }
    {
        self.prefix
    }
}

/// Whether this is an IPv6 address in ::ffff:0:0/96.
fn is_mapped_address(ip: IpAddr) -> bool
    ensures { result ≡ is_mapped (seen ip) }
{
    match ip {
        IpAddr::V4(_) => false,
        IpAddr::V6(ip) => ip.to_ipv4_mapped().is_some(),
    }
}
