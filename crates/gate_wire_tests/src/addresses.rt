//! Addresses and entries from outside.
use gate_bytes::Text;
use gate_net::{Address, NetDenial, NetFault, Subnet, Whitelist, WhitelistEntry};
use std::alloc::{AllocError, Global};
use std::test::Fail;

fn texts(alloc: Global, entries: &[&str]) -> Result<Vec<Text>, AllocError> {
    let mut texts = Vec::with_capacity(alloc, entries.len())?;
    for entry in entries {
        texts.push(Text::from_string(String::from_str(alloc, *entry)?))?;
    }
    Ok(texts)
}

fn whitelist(alloc: Global, entries: &[&str]) -> Result<Whitelist, Fail> {
    let texts = texts(alloc, entries)?;
    Ok(Whitelist::parse(alloc, &texts, true, false)?)
}

/// What is wrong with an entry, alone and in a whitelist.
fn denial_of(alloc: Global, entry: &str) -> Result<Option<NetDenial>, Fail> {
    let texts = texts(alloc, &[entry])?;
    let denial = WhitelistEntry::parse(entry).err();
    Ok(match Whitelist::parse(alloc, &texts, true, false) {
        Err(NetFault::Denied(found)) if denial == Some(found) => denial,
        _ => None,
    })
}

fn prints(alloc: Global, address: &Address, text: &str) -> Result<bool, Fail> {
    Ok(address.to_string(alloc)?.as_str() == text)
}

fn gives(alloc: Global, list: &Whitelist, address: &Address, flags: &str) -> Result<bool, Fail> {
    Ok(list.flags_of(address).text(alloc)?.as_str() == flags)
}

/// Whether a text is read as the address that is printed so, with these flags.
fn enters(
    alloc: Global,
    list: &Whitelist,
    text: &str,
    printed: &str,
    flags: &str,
) -> Result<bool, Fail> {
    let Some(address) = Address::parse(text) else {
        return Ok(false);
    };
    Ok(prints(alloc, &address, printed)? && gives(alloc, list, &address, flags)?)
}

/// The first address of `ENTERED` that is printed otherwise, or has other flags.
fn first_unlike(alloc: Global, list: &Whitelist) -> Result<Option<&'static str>, Fail> {
    for (text, printed, flags) in &ENTERED {
        if !enters(alloc, list, text, printed, flags)? {
            return Ok(Some(*text));
        }
    }
    Ok(None)
}

// RFC 4291, 2.2, RFC 5952, and the help text of Bitcoin Core 22.0 on -whitelist.
/// Entries that give the addresses of `ENTERED` their flags.
const ENTRIES: [&str; 5] = [
    "noban@2001:db8::/32",
    "mempool@::/0",
    "addr@0.0.0.0/0",
    "bloom,forcerelay@10.0.0.0/255.0.0.0",
    "10.1.0.0/016",
];

/// An address, how it is printed, and its flags.
const ENTERED: [(&str, &str, &str); 6] = [
    (
        "2001:DB8:0:0:8:800:200C:417A",
        "2001:db8:0:0:8:800:200c:417a",
        "noban,mempool,download",
    ),
    ("FF01::101", "ff01:0:0:0:0:0:0:101", "mempool"),
    ("::", "0:0:0:0:0:0:0:0", "mempool"),
    (
        "::ffff:a00:1",
        "10.0.0.1",
        "bloomfilter,forcerelay,relay,addr",
    ),
    (
        "10.1.2.3",
        "10.1.2.3",
        "bloomfilter,noban,forcerelay,relay,mempool,download,addr",
    ),
    ("192.0.2.1", "192.0.2.1", "addr"),
];

#[test]
fn addresses_and_their_flags(rt: HostRuntime) -> Result<(), Fail> {
    let list = whitelist(rt.alloc(), &ENTRIES)?;
    let unlike = first_unlike(rt.alloc(), &list);
    drop(list);
    assert_eq!(rt; unlike?, None);
    Ok(())
}

/// An entry, and the token and the name of the rule that it breaks.
const REFUSED: [(&str, &str, &str); 5] = [
    ("nobans@::ffff:a00:0/104", "unknown-permission", "N1"),
    ("noban@::ffff:a00:0/junk", "mapped-subnet", "N3"),
    ("noban@10.0.0.0/33", "bad-subnet", "N2"),
    ("noban@10.0.0.0/255.0.255.0", "bad-subnet", "N2"),
    ("10.0.0.0/0008", "bad-subnet", "N2"),
];

#[test]
fn entries_that_are_refused(rt: HostRuntime) -> Result<(), Fail> {
    for (text, token, rule) in &REFUSED {
        let told = denial_of(rt.alloc(), text)?.map(|denial| (
            denial.row().token,
            denial.row().name,
        ));
        assert!(rt; told == Some((*token, *rule)), "{text}");
    }
    Ok(())
}

/// Whether each of the texts between the spaces is read as the address that is printed as `printed`.
fn all_print(alloc: Global, texts: &str, printed: &str) -> Result<bool, Fail> {
    for text in texts.split(' ') {
        let Some(address) = Address::parse(text) else {
            return Ok(false);
        };
        if !prints(alloc, &address, printed)? {
            return Ok(false);
        }
    }
    Ok(true)
}

// RFC 4291, 2.2; RFC 5952, 1, 2, 4 and 6; Bitcoin Core 22.0, netbase_tests, embedded_test.
/// Texts of one address, and how it is printed.
const SPELLED: [(&str, &str); 14] = [
    (
        "2001:DB8:0:0:8:800:200C:417A 2001:DB8::8:800:200C:417A",
        "2001:db8:0:0:8:800:200c:417a",
    ),
    ("FF01:0:0:0:0:0:0:101 FF01::101", "ff01:0:0:0:0:0:0:101"),
    ("0:0:0:0:0:0:0:1 ::1", "0:0:0:0:0:0:0:1"),
    ("0:0:0:0:0:0:0:0 ::", "0:0:0:0:0:0:0:0"),
    (
        "2001:db8:0:0:1:0:0:1 2001:0db8:0:0:1:0:0:1 2001:db8::1:0:0:1 2001:db8::0:1:0:0:1 2001:0db8::1:0:0:1 2001:db8:0:0:1::1 2001:db8:0000:0:1::1 2001:DB8:0:0:1::1",
        "2001:db8:0:0:1:0:0:1",
    ),
    (
        "2001:db8:aaaa:bbbb:cccc:dddd:eeee:0001 2001:db8:aaaa:bbbb:cccc:dddd:eeee:01 2001:db8:aaaa:bbbb:cccc:dddd:eeee:1",
        "2001:db8:aaaa:bbbb:cccc:dddd:eeee:1",
    ),
    (
        "2001:db8:aaaa:bbbb:cccc:dddd::1 2001:db8:aaaa:bbbb:cccc:dddd:0:1",
        "2001:db8:aaaa:bbbb:cccc:dddd:0:1",
    ),
    (
        "2001:db8:0:0:0::1 2001:db8:0:0::1 2001:db8:0::1 2001:db8::1",
        "2001:db8:0:0:0:0:0:1",
    ),
    (
        "2001:db8::aaaa:0:0:1 2001:db8:0:0:aaaa::1",
        "2001:db8:0:0:aaaa:0:0:1",
    ),
    (
        "2001:db8:aaaa:bbbb:cccc:dddd:eeee:AAAA 2001:db8:aaaa:bbbb:cccc:dddd:eeee:AaAa",
        "2001:db8:aaaa:bbbb:cccc:dddd:eeee:aaaa",
    ),
    (
        "2001:db8:0:1:1:1:1:1 2001:db8::1:1:1:1:1",
        "2001:db8:0:1:1:1:1:1",
    ),
    ("2001:0:0:1:0:0:0:1 2001:0:0:1::1", "2001:0:0:1:0:0:0:1"),
    ("2001:db8::1:80", "2001:db8:0:0:0:0:1:80"),
    ("1.2.3.4 ::FFFF:0102:0304", "1.2.3.4"),
];

#[test]
fn texts_of_one_address(rt: HostRuntime) -> Result<(), Fail> {
    for (texts, printed) in &SPELLED {
        assert!(rt; all_print(rt.alloc(), texts, printed)?, "{printed}");
    }
    Ok(())
}

// RFC 4291, 2.2 and 2.3; RFC 5952, 5 and 6; RFC 3986 has no leading zeros.
/// Texts that spell no address.
const NO_ADDRESSES: [&str; 23] = [
    "::13.1.68.3",
    "fe80::1%1",
    "127.1",
    "1::2::3",
    "10.0.0.01",
    "0:0:0:0:0:0:13.1.68.3",
    "0:0:0:0:0:FFFF:129.144.52.38",
    "::FFFF:129.144.52.38",
    "2001:0DB8:0:CD3",
    "[2001:db8::1]",
    "[2001:db8::1]:80",
    "2001:db8::1.80",
    "2001:db8::1p80",
    "2001:db8::1#80",
    ":::",
    ":1::",
    "1:2:3:4:5:6:7:8:9",
    "1:2:3:4:5:6:7::8:9",
    "127.0.0.1:8333",
    "1.2.3",
    "1.2.3.4.5",
    "1.2.3.256",
    "",
];

#[test]
fn texts_of_no_address(rt: HostRuntime) {
    for text in &NO_ADDRESSES {
        assert!(rt; Address::parse(text).is_none(), "{text}");
    }
}

/// Whether a subnet is read, and has an address.
fn has(subnet: &str, address: &str) -> bool {
    match (Subnet::parse(subnet), Address::parse(address)) {
        (Some(subnet), Some(address)) => subnet.contains(&address),
        _ => false,
    }
}

// RFC 4291, 2.3; Bitcoin Core 22.0, netbase_tests, subnet_test.
/// A subnet, an address, and whether the subnet has it.
const MEMBERS: [(&str, &str, bool); 24] = [
    ("1.2.3.0/24", "1.2.3.4", true),
    ("1.2.3.0/255.255.255.0", "1.2.3.4", true),
    ("1.2.2.0/24", "1.2.3.4", false),
    ("1.2.3.4", "1.2.3.4", true),
    ("1.2.3.4/32", "1.2.3.4", true),
    ("1.2.3.4", "5.6.7.8", false),
    ("1.2.3.4/32", "5.6.7.8", false),
    ("::ffff:7f00:1", "127.0.0.1", true),
    ("1:2:3:4:5:6:7:8", "1:2:3:4:5:6:7:8", true),
    ("1:2:3:4:5:6:7:8", "1:2:3:4:5:6:7:9", false),
    ("1:2:3:4:5:6:7:0/112", "1:2:3:4:5:6:7:1234", true),
    ("192.168.0.1/24", "192.168.0.2", true),
    ("192.168.0.20/29", "192.168.0.18", true),
    ("1.2.2.1/24", "1.2.2.4", true),
    ("1.2.2.110/31", "1.2.2.111", true),
    ("1.2.2.20/26", "1.2.2.63", true),
    ("::/0", "1:2:3:4:5:6:7:1234", true),
    ("::/0", "1.2.3.4", false),
    ("0.0.0.0/0", "1.2.3.4", true),
    ("0.0.0.0/0", "1:2:3:4:5:6:7:1234", false),
    (
        "2001:0DB8:0000:CD30:0000:0000:0000:0000/60",
        "2001:DB8:0:CD3F::",
        true,
    ),
    ("2001:0DB8::CD30:0:0:0:0/60", "2001:DB8:0:CD40::", false),
    (
        "2001:0DB8:0:CD30:123:4567:89AB:CDEF/60",
        "2001:DB8:0:CD30::",
        true,
    ),
    ("2001:0DB8::CD30/60", "2001:DB8:0:CD30::", false),
];

#[test]
fn subnets_and_their_addresses(rt: HostRuntime) {
    for (subnet, address, expected) in &MEMBERS {
        assert!(rt; Subnet::parse(subnet).is_some(), "{subnet}");
        assert!(rt; has(subnet, address) == *expected, "{subnet} {address}");
    }
}

// Bitcoin Core 22.0, netbase_tests, subnet_test; netmasks of IPv6 and dotted ends are none here.
/// Texts that spell no subnet.
const NO_SUBNETS: [&str; 14] = [
    "1.2.3.0/-1",
    "1.2.3.0/33",
    "1.2.3.0/300",
    "1:2:3:4:5:6:7:8/-1",
    "1:2:3:4:5:6:7:8/129",
    "1.2.3.4/255.255.232.0",
    "1.2.3.4/255.0.255.255",
    "1:2:3:4:5:6:7:8/ffff:ffff:ffff:fffe:ffff:ffff:ffff:ff0f",
    "1:2:3:4:5:6:7:8/ffff:ffff:ffff:ffff:ffff:ffff:ffff:0",
    "2001:0DB8:0:CD3/60",
    "::ffff:127.0.0.1",
    "fuzzy",
    "bloop",
    "",
];

#[test]
fn texts_of_no_subnet(rt: HostRuntime) {
    for text in &NO_SUBNETS {
        assert!(rt; Subnet::parse(text).is_none(), "{text}");
    }
}

// Bitcoin Core 22.0, netbase_tests, subnet_test: each netmask of ones before zeros, by its length.
/// A subnet with a netmask, and the length of its prefix.
const NETMASKS: [(&str, u8); 11] = [
    ("1.2.3.4/0.0.0.0", 0),
    ("1.2.3.4/128.0.0.0", 1),
    ("1.2.3.4/240.0.0.0", 4),
    ("1.2.3.4/255.0.0.0", 8),
    ("1.2.3.4/255.254.0.0", 15),
    ("1.2.3.4/255.255.0.0", 16),
    ("1.2.3.4/255.255.128.0", 17),
    ("1.2.3.4/255.255.255.0", 24),
    ("1.2.3.4/255.255.255.252", 30),
    ("1.2.3.4/255.255.255.254", 31),
    ("1.2.3.4/255.255.255.255", 32),
];

#[test]
fn netmasks_by_their_lengths(rt: HostRuntime) {
    for (text, length) in &NETMASKS {
        assert!(rt;
            Subnet::parse(text).map(|subnet| subnet.prefix()) == Some(*length),
            "{text}"
        );
    }
}
