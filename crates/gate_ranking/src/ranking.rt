ghost use Rattle.std.specs.Prelude.{◌≡◌, ◌<◌, ◌≤◌, ◌+◌, ◌++◌, ◌∷◌, [], Some, None, filter, is_some, length, slice_set, IfOk, IfSome, IfNone, OnOk, OnErr, max};
ghost use Rattle.std.specs.Option.{option_map};
ghost use Rattle.gate_ranking.specs.Ranking.{at, IsLeast, IsBare};
ghost use Rattle.gate_ranking.specs.Lesser.{held_in, least_by};

use crate::tournament::{has_equal, key_at, place_of, play, replay, widen};
use gate_bytes::Memory;
use std::alloc::Global;
use std::marker::Model;

/// Keys at places, some of which are empty: an indexed priority queue, as a tournament of places.
#[derive(Drop)]
pub struct Ranking<K: Ord + Copy> {
    keys: Vec<Option<K>>,
    /// The place that won each match, the last match at 1. The children of a node are at twice its index and at the
    /// next; the indexes past the end are the leaves, one for each place.
    tree: Vec<usize>,
    room: usize,
}

impl<K: Ord + Copy> Model for Ranking<K> {
    ghost use Rattle.std.specs.Vec.{vec_capacity};
    ghost use Rattle.gate_ranking.specs.Ranking.{Ranked};
    ghost use Rattle.gate_ranking.specs.Keeping.{IsKept};

    ghost Value = { Ranked K };

    ghost view = { λ r. record { keys = r.keys.items; room = r.room } };

    ghost invariant = { λ r. IsKept K.cmp r.keys.items r.tree.items (vec_capacity r.keys) r.room };
}

impl<K: Ord + Copy> Ranking<K> {
    pub fn new(alloc: Global) -> Ranking<K>
        ensures keys { result.keys ≡ [] }
        ensures room { result.room ≡ 0 }
    {
        Ranking {
            keys: Vec::new(alloc),
            tree: Vec::new(alloc),
            room: 0,
        }
    }

    /// How many places there are, held or empty.
    pub fn places(&self) -> usize
        ensures { result ≡ length self.now.keys }
    {
        self.keys.len()
    }

    /// The least of all keys and its place, of equal ones that of the last place; none if all places are empty.
    pub fn least(&self) -> Option<(usize, &K)>
        ensures some { IfSome result (λ found. IsLeast K.cmp self.now.keys found.0 found.1.now) }
        ensures none { IfNone result (IsBare self.now.keys) }
        ensures value { option_map (λ found. found.1.now) result ≡ least_by K.cmp (λ key. key) (held_in self.now.keys) }
    {
        let place = place_of(&self.tree, 1);
        match key_at(&self.keys, place) {
            Some(key) => Some((place, key)),
            None => None,
        }
    }

    /// Takes the memory for this many more keys.
    pub fn reserve(&mut self, more: usize) -> Result<(), Memory>
        ensures keys { self.new.keys ≡ self.old.keys }
        ensures room { OnOk result (self.new.room ≡ max self.old.room more) }
        ensures err { OnErr result (self.new.room ≡ self.old.room) }
    {
        if more <= self.room {
            return Ok(());
        }
        self.keys.reserve(more)?;
        let needed = self.keys.len() + more;
        widen(&self.keys, &mut self.tree, needed)?;
        self.room = more;
        Ok(())
    }

    /// Puts a key at the next place, for which there is room.
    pub fn push(&mut self, key: K)
        requires { 0 < self.old.room }
        ensures keys { self.new.keys ≡ self.old.keys ++ Some key ∷ [] }
        ensures room { self.new.room + 1 ≡ self.old.room }
    {
        let place = self.keys.len();
        self.keys.push_reserved(Some(key));
        replay(&self.keys, &mut self.tree, place);
        self.room -= 1;
    }

    /// Writes a key at a place, whether a key is there or not. In place of an equal key it plays no match.
    pub fn update(&mut self, place: usize, key: K)
        requires { place < length self.old.keys }
        ensures keys { self.new.keys ≡ slice_set self.old.keys place (Some key) }
        ensures room { self.new.room ≡ self.old.room }
    {
        let is_equal = has_equal(&self.keys, place, &key);
        self.keys[place] = Some(key);
        if !is_equal {
            replay(&self.keys, &mut self.tree, place);
        }
    }

    /// Leaves a place empty.
    pub fn remove(&mut self, place: usize)
        requires { place < length self.old.keys }
        ensures keys { self.new.keys ≡ slice_set self.old.keys place None }
        ensures room { self.new.room ≡ self.old.room }
    {
        self.keys[place] = None;
        replay(&self.keys, &mut self.tree, place);
    }

    /// Drops the empty places: the keys after them move to lower places, in the same order. It costs the places that
    /// there are, and not as many as there once were.
    pub fn close_up(&mut self)
        ensures keys { self.new.keys ≡ filter is_some self.old.keys }
        ensures room { self.new.room ≡ self.old.room }
    {
        self.keys.retain(|key| key.is_some());
        // Twice the leaves that are needed: as many keys can be added before the tree grows again.
        let leaves = self.keys.len() + self.room;
        self.tree.truncate(leaves.saturating_mul(2));
        play(&self.keys, &mut self.tree);
    }
}
