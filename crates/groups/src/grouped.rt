// Lists of items, each a part of one row of items.
ghost use Rattle.std.specs.Prelude.{◌≡◌, ◌<◌, [], ◌∷◌, ◌++◌, length, IfOk, slice_index_or};
ghost use Rattle.groups.specs.Groups.{size, lastly};

use std::alloc::{AllocError, Global};
use std::marker::Model;

// The most groups, and the most items, that there is memory for.
const MOST: usize = 4096;

// Clauses see the list of the groups, each as the list of its items.
// No `Vec` of `Vec`s, since memory for `MOST` of both is reserved in `new`, and no later call can fail for want of it.
#[derive(Drop)]
pub struct Grouped<T> {
    // Where each group begins in `items`: it ends where the next one begins, and the last one where they end.
    starts: Vec<usize>,
    items: Vec<T>,
}

impl<T> Model for Grouped<T> {
    ghost use Rattle.std.specs.Prelude.{◌≤◌, List, length, vec_capacity};
    ghost use Rattle.groups.specs.Starts.{parts, Tiled};

    ghost Value = { List (List T) };

    ghost view = { λ g. parts g.items.items g.starts.items };

    ghost invariant = { λ g. Tiled (length g.items.items) g.starts.items × (4096 ≤ vec_capacity g.starts) × (4096 ≤ vec_capacity g.items) };
}

impl<T: Copy> Grouped<T> {
    // No group yet.
    pub fn new(heap: Global) -> Result<Grouped<T>, AllocError>
        ensures { IfOk result (λ groups. groups ≡ []) }
    {
        let starts = Vec::with_capacity(heap, MOST)?;
        let items = Vec::with_capacity(heap, MOST)?;
        Ok(Grouped { starts, items })
    }

    // Takes all groups out, and keeps the memory.
    pub fn clear(&mut self)
        ensures { self.new ≡ [] }
    {
        self.starts.clear();
        self.items.clear();
    }

    // One group more, with nothing in it.
    pub fn open(&mut self)
        requires { length self.old < 4096 }
        ensures { self.new ≡ self.old ++ [] ∷ [] }
    {
        self.starts.push_reserved(self.items.len());
    }

    // One item more in the last group, if there is a group.
    pub fn add(&mut self, item: T)
        requires { size self.old < 4096 }
        ensures { self.new ≡ lastly (λ xs. xs ++ item ∷ []) self.old }
    {
        if !self.starts.is_empty() {
            self.items.push_reserved(item);
        }
    }

    // The group with this index. Past the last it is an empty slice and no `None`, since callers go over it either way.
    pub fn get(&self, i: usize) -> &[T]
        ensures { result.now ≡ slice_index_or self.now i [] }
    {
        match self.starts.get(i) {
            Some(start) => {
                let end = self.starts.get(i + 1).copied().unwrap_or(self.items.len());
                &self.items[*start..end]
            }
            None => &[],
        }
    }
}
