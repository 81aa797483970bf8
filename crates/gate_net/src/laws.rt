//! What follows from the definitions.
ghost use Rattle.gate_net.specs.Spelling.{AddressesAreSpelled, AddressesReadBack};
ghost use Rattle.gate_net.specs.SubnetTexts.{SubnetsAreSpelled, MappedSubnetsAreTold};
ghost use Rattle.gate_net.specs.Laws.{FlagsAreGiven, EntriesTakeNothing};

/// A text is read as an address exactly if it spells that address by the grammars of RFC 3986 and RFC 4291; an
/// IPv4-mapped IPv6 address is read as its IPv4 address.
pub fn addresses_are_spelled()
    ensures { AddressesAreSpelled }
{}

/// What is printed for an address is read as that address.
pub fn addresses_read_back()
    ensures { AddressesReadBack }
{}

/// A text is read as a subnet exactly if it spells that subnet: an address alone, or one with a number of bits
/// (RFC 4632) or an IPv4 netmask. N3 is named exactly if the address before the slash is an IPv4-mapped one.
pub fn subnets_are_spelled()
    ensures spelled { SubnetsAreSpelled }
    ensures mapped { MappedSubnetsAreTold }
{}

/// An address has a flag exactly if an entry whose subnet has the address gives the flag.
pub fn flags_are_given()
    ensures { FlagsAreGiven }
{}

/// With more entries, in whatever order, no address loses a flag.
pub fn entries_take_nothing()
    ensures { EntriesTakeNothing }
{}
