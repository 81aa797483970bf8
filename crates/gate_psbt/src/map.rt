//! The maps of a PSBT: pairs of a key and a value, up to an empty key.
ghost use Rattle.std.specs.Prelude.{◌≡◌};
ghost use Rattle.gate_psbt.specs.Faults.{TakesBy};
ghost use Rattle.gate_psbt.specs.Maps.{ValueBy, fits, has_key, is_key, map_at, pair_at, value_of};

use crate::fault::PartFault;
use crate::field::take_counted;
use gate_bytes::Cursor;
use std::alloc::Global;
use std::marker::Model;

/// What a map belongs to.
#[derive(Clone, Copy)]
pub(crate) enum Owner {
    Whole,
    Input,
    Output,
}

/// A key and its value: contracts see the pair of their bytes.
#[derive(Drop)]
pub(crate) struct Pair<'a> {
    key: &'a [u8],
    value: &'a [u8],
}

impl<'a> Model for Pair<'a> {
    ghost use Rattle.std.specs.Prelude.{List, ℕ};

    ghost Value = { List ℕ × List ℕ };

    ghost view = { λ p. (p.key.now, p.value.now) };
}

impl<'a> Pair<'a> {
    ghost use Rattle.std.specs.Prelude.{◌≡◌};

    fn key(&self) -> &'a [u8]
        ensures { result.now ≡ self.now.0 }
    {
        self.key
    }

    fn value(&self) -> &'a [u8]
        ensures { result.now ≡ self.now.1 }
    {
        self.value
    }
}

/// Whether a key is as long as its type allows, which is its first byte.
fn fits(owner: Owner, key: &[u8]) -> bool
    ensures { result ≡ fits owner key.now }
{
    let [kind, ..] = key else {
        return false;
    };
    match (owner, *kind) {
        (Owner::Whole, 0x00 | 0xfb) => key.len() == 1,
        (Owner::Whole, 0x01) => key.len() == 79,
        (Owner::Input, 0x00 | 0x01 | 0x03 | 0x04 | 0x05 | 0x07 | 0x08) => key.len() == 1,
        (Owner::Input, 0x02 | 0x06) => key.len() == 34 || key.len() == 66,
        (Owner::Output, 0x00 | 0x01) => key.len() == 1,
        (Owner::Output, 0x02) => key.len() == 34 || key.len() == 66,
        _ => true,
    }
}

/// Takes a key and its value, or the empty key.
#[tactic(auto, unfolding(crate::specs::Maps::pair_at))]
fn take_pair<'a>(owner: Owner, cursor: &mut Cursor<'a>) -> Result<Option<Pair<'a>>, PartFault>
    ensures { TakesBy (λ p. p) result cursor.new (pair_at owner cursor.old) }
{
    let key = take_counted(cursor)?;
    if key.is_empty() {
        return Ok(None);
    }
    if !fits(owner, key) {
        return Err(PartFault::KeyLength);
    }
    let value = take_counted(cursor)?;
    Ok(Some(Pair { key, value }))
}

/// Whether one of the pairs has this key.
fn has_key(pairs: &[Pair<'_>], key: &[u8]) -> bool
    ensures { result ≡ has_key pairs.now key.now }
{
    pairs.iter().any(|pair| pair.key == key)
}

/// Takes a map.
pub(crate) fn take_map<'a>(
    alloc: Global,
    owner: Owner,
    cursor: &mut Cursor<'a>,
) -> Result<Vec<Pair<'a>>, PartFault>
    ensures { TakesBy (λ pairs. pairs.items) result cursor.new (map_at owner cursor.old) }
{
    let mut pairs = Vec::new(alloc);
    // Each pair takes more than a byte, so the empty key comes before so many of them, or none comes.
    let most = cursor.left();
    for _ in 0..most {
        match take_pair(owner, cursor)? {
            None => return Ok(pairs),
            Some(pair) => {
                if has_key(&pairs, pair.key()) {
                    return Err(PartFault::DuplicateKey);
                }
                pairs.push(pair)?;
            }
        }
    }
    Err(PartFault::Short)
}

/// Whether a key is this type alone.
fn is_key(kind: u8, key: &[u8]) -> bool
    ensures { result ≡ is_key kind key.now }
{
    match key {
        [only] => *only == kind,
        _ => false,
    }
}

/// The value of the key that is this type alone.
pub(crate) fn value_of<'a>(pairs: &[Pair<'a>], kind: u8) -> Option<&'a [u8]>
    ensures { ValueBy result (value_of kind pairs.now) }
{
    for pair in pairs {
        if is_key(kind, pair.key()) {
            return Some(pair.value());
        }
    }
    None
}
