ghost use Rattle.std.specs.Prelude.{◌≡◌, ◌<◌, ◌≤◌, Some, IsTrue, length, OnOk};
ghost use Rattle.std.specs.declared.cmp.Ordering.TheVariants.{Equal};
ghost use Rattle.std.specs.Option.{option_copied};
ghost use Rattle.gate_ranking.specs.Ranking.{at};
ghost use Rattle.gate_ranking.specs.Tournament.{place_of, held_cmp, first_of, IsPlayed, IsReplayed};

use gate_bytes::Memory;
use std::cmp::Ordering;

/// The key at a place; none if the place is empty or beyond the end.
pub(crate) fn key_at<K>(keys: &[Option<K>], place: usize) -> Option<&K>
    ensures { option_copied result ≡ at keys.now place }
{
    match keys.get(place) {
        Some(key) => key.as_ref(),
        None => None,
    }
}

/// Whether the key at a place equals this one.
pub(crate) fn has_equal<K: Ord>(keys: &[Option<K>], place: usize, key: &K) -> bool
    ensures { IsTrue result → held_cmp K.cmp (at keys.now place) (Some key.now) ≡ Equal }
{
    match key_at(keys, place) {
        Some(held) => held.cmp(key) == Ordering::Equal,
        None => false,
    }
}

/// The place that a node of the tree holds. The nodes past the end of the tree are the leaves, one for each place.
pub(crate) fn place_of(tree: &[usize], node: usize) -> usize
    ensures { result ≡ place_of tree.now node }
{
    let leaves = tree.len();
    if node < leaves {
        tree[node]
    } else {
        node - leaves
    }
}

/// Of two places the one of the lesser key, of equal keys the later. An empty place is behind all keys.
pub(crate) fn first_of<K: Ord>(keys: &[Option<K>], a: usize, b: usize) -> usize
    ensures { result ≡ first_of K.cmp keys.now a b }
{
    match key_at(keys, a) {
        Some(one) => match key_at(keys, b) {
            Some(other) => match one.cmp(other) {
                Ordering::Less => a,
                Ordering::Equal => a.max(b),
                Ordering::Greater => b,
            },
            None => a,
        },
        None => match key_at(keys, b) {
            Some(_) => b,
            None => a.max(b),
        },
    }
}

/// Plays the matches of a place again, up to the root or to the first one that another place won before and wins again.
pub(crate) fn replay<K: Ord>(keys: &[Option<K>], tree: &mut [usize], place: usize)
    requires { place < length tree.old }
    ensures { IsReplayed K.cmp keys.now place tree.old tree.new }
{
    let mut node = (tree.len() + place) / 2;
    while node > 0 {
        let winner = first_of(keys, place_of(tree, 2 * node), place_of(tree, 2 * node + 1));
        if winner != place && winner == tree[node] {
            return;
        }
        tree[node] = winner;
        node /= 2;
    }
}

/// Plays all matches.
pub(crate) fn play<K: Ord>(keys: &[Option<K>], tree: &mut [usize])
    ensures { IsPlayed K.cmp keys.now tree.new }
{
    let mut node = tree.len();
    while node > 1 {
        node -= 1;
        tree[node] = first_of(keys, place_of(tree, 2 * node), place_of(tree, 2 * node + 1));
    }
}

/// Takes the memory of a tree with leaves for this many places, and plays all matches if the tree grew.
pub(crate) fn widen<K: Ord>(
    keys: &[Option<K>],
    tree: &mut Vec<usize>,
    needed: usize,
) -> Result<(), Memory>
    ensures wide { OnOk result (needed ≤ length tree.new.items) }
    ensures longer { length tree.old.items ≤ length tree.new.items }
    ensures played { IsPlayed K.cmp keys.now tree.old.items → IsPlayed K.cmp keys.now tree.new.items }
{
    let leaves = tree.len();
    if needed <= leaves {
        return Ok(());
    }
    tree.resize(needed.max(leaves.saturating_mul(2)), 0)?;
    play(keys, tree);
    Ok(())
}
