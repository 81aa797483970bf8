ghost use Rattle.std.specs.Prelude.{◌≡◌, ◌-◌, ◌++◌, ◌∷◌, ◌↔◌, [], length, slice_get, IsTrue, OnOk, OnErr, MatchOption};
ghost use Rattle.std.specs.Option.{option_map};
ghost use Rattle.std.specs.List.{flat_map};
ghost use Rattle.std.specs.Str.{bytes_eq};
ghost use Rattle.std.specs.Cmp.Lexicographic.{pointwise, lists_per, lists_equiv};
ghost use Rattle.std.specs.Cmp.{partial_equiv_from_equiv, nat_eq_equiv};
ghost use Rattle.gate_bytes.specs.Compact.{IsCount};
ghost use Rattle.gate_bytes.specs.Reading.{IsBytes};
ghost use Rattle.gate_tx.specs.Text.{var_bytes};
ghost use Rattle.gate_tx.specs.Reading.{Takes, GivesBy, var_bytes_at, vector_at, split_items};

use crate::fault::TxFault;
use crate::witness_items::{WitnessItems, item_at, split_last_at, take_counted, take_rest};
use gate_bytes::{Copied, Cursor, Exact, Memory, put_compact};
use std::alloc::Global;
use std::marker::Model;

/// What shows the right to spend an output: contracts see the list of its items. It is kept as the
/// items' texts, one behind the other, and their number, so an item takes the memory of its text.
#[derive(Drop)]
pub struct Witness {
    count: usize,
    texts: Vec<u8>,
}

impl Model for Witness {
    ghost use Rattle.std.specs.Prelude.{List, ℕ};

    ghost Value = { List (List ℕ) };

    ghost use Rattle.gate_tx.specs.Items.{items_at, AreKept};

    ghost view = { λ w. items_at w.count w.texts.items };

    ghost invariant = { λ w. AreKept (items_at w.count w.texts.items) w.count w.texts.items };
}

impl Witness {
    /// A witness without items. Takes no memory.
    pub fn new(alloc: Global) -> Witness
        ensures { result ≡ [] }
    {
        Witness {
            count: 0,
            texts: Vec::new(alloc),
        }
    }

    /// Reads a count and that many items. Takes memory once, for the bytes of the items that are there.
    #[tactic(auto, unfolding(crate::specs::Reading::vector_at))]
    pub(crate) fn read(alloc: Global, cursor: &mut Cursor<'_>) -> Result<Witness, TxFault>
        ensures { Takes result cursor.new (vector_at var_bytes_at cursor.old) }
    {
        let count = cursor.compact()?;
        let bytes = take_rest(cursor);
        let (texts, rest) = split_items(bytes, count)?;
        *cursor = Cursor::new(rest);
        Ok(Witness {
            count: count as usize,
            texts: Vec::from_slice(alloc, texts)?,
        })
    }

    /// How many items there are.
    pub fn len(&self) -> usize
        ensures { result ≡ length self.now }
    {
        self.count
    }

    pub fn is_empty(&self) -> bool
        ensures { IsTrue result ↔ (self.now ≡ []) }
    {
        self.len() == 0
    }

    /// Puts an item of at most `MAX_COUNT` bytes at the end.
    pub fn push(&mut self, item: &[u8]) -> Result<(), Memory>
        requires { IsCount (length item.now) }
        ensures ok { OnOk result (self.new ≡ self.old ++ item.now ∷ []) }
        ensures err { OnErr result (self.new ≡ self.old) }
    {
        put_counted(&mut self.texts, item)?;
        self.count += 1;
        Ok(())
    }

    /// The item at a place, counted from 0. It is found by going over the items before it.
    pub fn item(&self, place: usize) -> Option<&[u8]>
        ensures { option_map (λ item. item.now) result ≡ slice_get self.now place }
    {
        item_at(self.count, &self.texts, place)
    }

    /// The last item, and the items before it. It is found by going over them.
    pub fn split_last(&self) -> Option<(&[u8], WitnessItems<'_>)>
        ensures { MatchOption result (self.now ≡ []) (λ p. self.now ≡ p.1 ++ p.0.now ∷ []) }
    {
        split_last_at(self.count, &self.texts)
    }

    /// The last item. It is found by going over the items before it.
    pub fn last(&self) -> Option<&[u8]>
        ensures { option_map (λ item. item.now) result ≡ slice_get self.now (length self.now - 1) }
    {
        self.item(self.len().saturating_sub(1))
    }

    /// The texts of the items, one behind the other.
    pub(crate) fn texts(&self) -> &[u8]
        ensures { result.now ≡ flat_map var_bytes self.now }
    {
        &self.texts
    }
}

impl Copied for Witness {
    fn copy(&self, alloc: Global) -> Result<Witness, Memory> {
        Ok(Witness {
            count: self.count,
            texts: Vec::from_slice(alloc, &self.texts)?,
        })
    }
}

impl PartialEq for Witness {
    ghost eq = { λ a b. pointwise bytes_eq a b };

    ghost laws = { lists_per (lists_per (partial_equiv_from_equiv nat_eq_equiv)) };

    fn eq(&self, other: &Witness) -> bool {
        self.count == other.count && self.texts.as_slice() == other.texts.as_slice()
    }
}

impl Eq for Witness {
    ghost laws = { lists_equiv (lists_equiv nat_eq_equiv) };
}

impl Exact for Witness {
    ghost use Rattle.gate_tx.specs.Equality.{items_decides};

    ghost exact = { items_decides };
}

/// Puts the text of an item at the end.
fn put_counted(out: &mut Vec<u8>, item: &[u8]) -> Result<(), Memory>
    ensures ok { OnOk result (out.new.items ≡ out.old.items ++ var_bytes item.now) }
    ensures err { OnErr result (out.new.items ≡ out.old.items) }
{
    let before = out.len();
    put_compact(out, item.len() as u64)?;
    if out.extend_from_slice(item).is_err() {
        out.truncate(before);
        return Err(Memory);
    }
    Ok(())
}

/// The texts of `count` items at the front of the bytes, and the bytes behind them.
#[tactic(auto, unfolding(crate::specs::Reading::split_items))]
fn split_items(bytes: &[u8], count: u64) -> Result<(&[u8], &[u8]), TxFault>
    ensures bytes { IsBytes bytes.now }
    ensures gives { GivesBy (λ x. (x.0.now, x.1.now)) result (split_items count bytes.now) }
{
    let mut ahead = Cursor::new(bytes);
    for _ in 0..count {
        take_counted(&mut ahead)?;
    }
    Ok(bytes.split_at(bytes.len() - ahead.left()))
}
