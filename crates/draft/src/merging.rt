// The changes of a draft, merged into the store below.
ghost use Rattle.std.specs.Prelude.{◌≡◌, [], map, is_ok, OnOk, if◌then◌else◌};
ghost use Rattle.draft.specs.Changes.{changed};
ghost use Rattle.draft.specs.Layer.{entries};
ghost use Rattle.draft.specs.Merging.{removing, putting, merged, touches_anew, touched_anew, merge_fits, HasRoomAbove, merge_answer, merge_after};
ghost use Rattle.draft.specs.Overlay.{overlay};

use super::change::Change;
use super::drafts::Draft;
use store::Store;

// Merging would go over the limit below, or over the cap there.
#[derive(Clone, Copy, PartialEq, Eq, Debug)]
pub struct NoFit;

// Removes from a store what the changes take out. Answers are not looked at, here and below: `merge` proves that none is a refusal.
fn remove_all<S: Store>(below: &mut S, changes: &[Change])
    ensures below { S.Store.means below.new ≡ removing (map changed changes.now) (S.Store.means below.old) }
    ensures under { S.Store.under below.new ≡ S.Store.under below.old }
{
    for change in changes {
        if change.words.is_none() {
            let _ = below.remove(change.key);
        }
    }
}

// Puts into a store what the changes put. A loop of its own: a step that is passed in would need clauses on what
// each of its calls leaves, and would be no shorter.
fn put_all<S: Store>(below: &mut S, changes: &[Change])
    ensures below { S.Store.means below.new ≡ putting (map changed changes.now) (S.Store.means below.old) }
    ensures under { S.Store.under below.new ≡ S.Store.under below.old }
{
    for change in changes {
        if let Some(words) = &change.words {
            let _ = below.put(change.key, words.as_slice());
        }
    }
}

impl<S: Store> Draft<S> {
    // Whether a change touches a key below that is not touched yet.
    fn touches_anew(&self, change: &Change) -> bool
        ensures { result ≡ touches_anew (S.Store.means self.now.below) (changed change.now) }
    {
        (change.words.is_some() || self.below.has(change.key)) && !self.below.touches(change.key)
    }

    // How many changes do.
    fn touched_anew(&self) -> usize
        ensures { result ≡ touched_anew (S.Store.means self.now.below) (entries self.now.changes) }
    {
        self.changes
            .as_slice()
            .iter()
            .filter(|change| self.touches_anew(change))
            .count()
    }

    // Whether a merge would be refused nowhere: by the limit below, and by the cap where there is one.
    pub fn fits_below(&self) -> bool
        ensures { HasRoomAbove (S.Store.means self.now.below) → result ≡ merge_fits (entries self.now.changes) (S.Store.means self.now.below) }
    {
        self.size() <= self.below.limit()
            && self
                .below
                .free_touches()
                .is_none_or(|free| self.touched_anew() <= free)
    }

    // Merges the changes into the store below, removes first, then puts, and forgets them; where that does not fit, nothing is altered.
    pub fn merge(&mut self) -> Result<(), NoFit>
        ensures answer { HasRoomAbove (S.Store.means self.old.below) → result ≡ merge_answer (entries self.old.changes) (S.Store.means self.old.below) }
        ensures calls { S.Store.means self.new.below ≡ merge_after (entries self.old.changes) (S.Store.means self.old.below) result }
        ensures below { HasRoomAbove (S.Store.means self.old.below) → OnOk result (S.Store.means self.new.below ≡ merged (entries self.old.changes) (S.Store.means self.old.below)) }
        ensures map { HasRoomAbove (S.Store.means self.old.below) → OnOk result ((S.Store.means self.new.below).pairs ≡ overlay (entries self.old.changes) (S.Store.means self.old.below).pairs) }
        ensures changes { entries self.new.changes ≡ (if is_ok result then [] else entries self.old.changes) }
        ensures under { S.Store.under self.new.below ≡ S.Store.under self.old.below }
    {
        if !self.fits_below() {
            return Err(NoFit);
        }
        remove_all(&mut self.below, self.changes.as_slice());
        put_all(&mut self.below, self.changes.as_slice());
        self.forget();
        Ok(())
    }
}
