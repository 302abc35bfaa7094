// Up to 64 changes, one for each touched key, in the order of their keys.
// They lie in the draft itself, so making a draft can't want memory. An array with a count, since an `ArrayVec` writes over each change that it
// forgets. What they mean is the function `entries`, and no model: a model would be the bare list, of which a proof does not know that its keys rise.
ghost use Rattle.std.specs.Prelude.{◌≡◌, ◌≤◌, true, length, take};
ghost use Rattle.draft.specs.Changes.{rising};

use super::change::Change;

#[derive(Drop)]
pub struct Changes {
    pub(crate) rows: [Change; 64],
    pub(crate) used: usize,
    ghost long: { length rows ≡ 64 },
    ghost within: { used ≤ 64 },
    ghost sorted: { rising (take used rows) ≡ true },
}
