ghost use Rattle.std.specs.Prelude.{◌≡◌, ◌++◌, ◌∷◌, ◌↔◌, ℕ, List, [], length, slice_get, IsTrue, MatchOption};
ghost use Rattle.std.specs.Option.{option_map};
ghost use Rattle.std.specs.Iterator.{YieldsFirstBy, item_count};
ghost use Rattle.gate_tx.specs.Items.{items_at, HasItems};
ghost use Rattle.gate_tx.specs.Reading.{TakesBy, var_bytes_at};

use gate_bytes::{ByteFault, Cursor};
use std::marker::Model;

/// Items of a witness, from the left: contracts see the list of those that are left.
#[derive(Drop)]
pub struct WitnessItems<'a> {
    left: usize,
    ahead: Cursor<'a>,
}

impl<'a> Model for WitnessItems<'a> {
    ghost use Rattle.std.specs.Prelude.{List, ℕ};

    ghost Value = { List (List ℕ) };

    ghost use Rattle.gate_tx.specs.Items.{items_at, HasItems};

    ghost view = { λ items. items_at items.left items.ahead };

    ghost invariant = { λ items. HasItems items.left items.ahead };
}

impl<'a> WitnessItems<'a> {
    /// The `left` items whose texts the bytes begin with.
    pub(crate) fn of(left: usize, bytes: &'a [u8]) -> WitnessItems<'a>
        requires { HasItems left bytes.now }
        ensures { result ≡ items_at left bytes.now }
    {
        WitnessItems {
            left,
            ahead: Cursor::new(bytes),
        }
    }

    /// How many items are left.
    pub fn len(&self) -> usize
        ensures { result ≡ length self.now }
    {
        self.left
    }

    pub fn is_empty(&self) -> bool
        ensures { IsTrue result ↔ (self.now ≡ []) }
    {
        self.len() == 0
    }

    /// The last item, and the items before it. It is found by going over them.
    pub fn split_last(self) -> Option<(&'a [u8], WitnessItems<'a>)>
        ensures { MatchOption result (self.entry ≡ []) (λ p. self.entry ≡ p.1 ++ p.0.now ∷ []) }
    {
        let WitnessItems { left, mut ahead } = self;
        split_last_at(left, take_rest(&mut ahead))
    }
}

impl<'a> Iterator for WitnessItems<'a> {
    type Item = &'a [u8];

    ghost next_gives = { YieldsFirstBy (λ item. item.now) (λ left. left) };

    ghost remaining = { item_count (λ left. left) };

    fn next(&mut self) -> Option<&'a [u8]> {
        take_item(&mut self.left, &mut self.ahead)
    }
}

/// The item at a place, of the `count` items whose texts the bytes begin with.
pub(crate) fn item_at(count: usize, bytes: &[u8], place: usize) -> Option<&[u8]>
    requires { HasItems count bytes.now }
    ensures { option_map (λ item. item.now) result ≡ slice_get (items_at count bytes.now) place }
{
    WitnessItems::of(count, bytes).nth(place)
}

/// The last item and those before it, of the `count` items whose texts the bytes begin with.
pub(crate) fn split_last_at(count: usize, bytes: &[u8]) -> Option<(&[u8], WitnessItems<'_>)>
    requires { HasItems count bytes.now }
    ensures { MatchOption result (items_at count bytes.now ≡ []) (λ p. items_at count bytes.now ≡ p.1 ++ p.0.now ∷ []) }
{
    if count == 0 {
        return None;
    }
    let before = count - 1;
    let Some(last) = item_at(count, bytes, before) else {
        return None;
    };
    Some((last, WitnessItems::of(before, bytes)))
}

/// Takes a count and that many bytes, which are not copied.
#[tactic(auto, unfolding(crate::specs::Reading::var_bytes_at))]
pub(crate) fn take_counted<'a>(cursor: &mut Cursor<'a>) -> Result<&'a [u8], ByteFault>
    ensures { TakesBy (λ bytes. bytes.now) result cursor.new (var_bytes_at cursor.old) }
{
    let len = cursor.compact()?;
    cursor.take(len as usize)
}

/// Takes the first of the `left` items at the front of what is ahead.
fn take_item<'a>(left: &mut usize, ahead: &mut Cursor<'a>) -> Option<&'a [u8]>
    requires { HasItems left.old ahead.old }
    ensures has { HasItems left.new ahead.new }
    ensures steps { YieldsFirstBy (λ item. item.now) (λ (p : ℕ × List ℕ). items_at p.0 p.1) (left.old, ahead.old) result (left.new, ahead.new) }
{
    if *left == 0 {
        return None;
    }
    let Ok(item) = take_counted(ahead) else {
        return None;
    };
    *left -= 1;
    Some(item)
}

/// Takes all bytes that are left.
pub(crate) fn take_rest<'a>(cursor: &mut Cursor<'a>) -> &'a [u8]
    ensures { result.now ≡ cursor.old }
{
    let left = cursor.left();
    match cursor.take(left) {
        Ok(bytes) => bytes,
        Err(_) => &[],
    }
}
