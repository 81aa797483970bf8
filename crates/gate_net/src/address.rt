//! The address of a peer.
ghost use Rattle.std.specs.Prelude.{◌≡◌};
ghost use Rattle.std.specs.Option.{option_map};
ghost use Rattle.gate_net.specs.Addresses.{written_of, address_of, canonical, seen};

use std::fmt;
use std::marker::Model;
use std::net::IpAddr;

/// An IPv4 or IPv6 address. An IPv6 address in ::ffff:0:0/96 is its IPv4 address (RFC 4291, 2.5.5.2).
///
/// Contracts see the four octets of an IPv4 address, and the eight groups of an IPv6 address, from the left.
#[derive(Clone, Copy, PartialEq, Eq)]
pub struct Address {
    ip: IpAddr,
}

impl Model for Address {
    ghost use Rattle.std.specs.Prelude.{◌≡◌, false};
    ghost use Rattle.gate_net.specs.Addresses.{Address as Seen, seen, kept, is_mapped};

    ghost Value = { Seen };

    ghost view = { λ a. seen a.ip };

    ghost invariant = { λ a. is_mapped (seen a.ip) ≡ false };

    ghost inverse = { λ a. record { ip = kept a } };
}

/// The address as it is written, mapped or not.
///
/// The standard library also reads an IPv6 text whose end is written as IPv4. This doesn't.
pub(crate) fn written(text: &str) -> Option<IpAddr>
    ensures { option_map seen result ≡ written_of text.now }
{
    match text.parse::<IpAddr>() {
        Ok(IpAddr::V4(ip)) => Some(IpAddr::V4(ip)),
        Ok(IpAddr::V6(ip)) => if text.contains('.') {
            None
        } else {
            Some(IpAddr::V6(ip))
        },
        Err(_) => None,
    }
}

impl Address {
    /// The address itself, or the IPv4 address that is mapped into it.
    pub(crate) fn of(ip: IpAddr) -> Address
        ensures { result ≡ canonical (seen ip) }
    {
        Address {
            ip: ip.to_canonical(),
        }
    }

    /// Reads an IPv4 text (RFC 3986, IPv4address) or an IPv6 text (RFC 4291, 2.2) without an IPv4 end and without a zone.
    pub fn parse(text: &str) -> Option<Address>
        ensures { result ≡ address_of text.now }
    {
        Some(Address::of(written(text)?))
    }

    pub(crate) fn ip(&self) -> IpAddr
        ensures { seen result ≡ self.now }
    {
        self.ip
    }
}

/// A group of an IPv6 address in lower case, without leading zeros.
#[derive(Clone, Copy)]
struct Group(u16);

impl fmt::Display for Group {
    ghost use Rattle.std.specs.Prelude.{Some, false};
    ghost use Rattle.std.specs.Fmt.{digits};

    ghost output = { λ group. Some (digits 16 false group.0) };

    fn fmt<W: fmt::Write>(&self, f: &mut fmt::Formatter<W>) -> fmt::Result {
        let number = self.0;
        write!(f, "{number:x}")
    }
}

impl fmt::Display for Address {
    ghost use Rattle.std.specs.Prelude.{Some};
    ghost use Rattle.gate_net.specs.Addresses.{address_text};

    ghost output = { λ a. Some (address_text a) };

    /// All eight groups of an IPv6 address are printed, without `::`.
    fn fmt<W: fmt::Write>(&self, f: &mut fmt::Formatter<W>) -> fmt::Result {
        match self.ip {
            IpAddr::V4(ip) => write!(f, "{ip}"),
            IpAddr::V6(ip) => {
                let [a, b, c, d, e, g, h, i] = ip.segments();
                let (a, b, c, d) = (Group(a), Group(b), Group(c), Group(d));
                let (e, g, h, i) = (Group(e), Group(g), Group(h), Group(i));
                write!(f, "{a}:{b}:{c}:{d}:{e}:{g}:{h}:{i}")
            }
        }
    }
}
