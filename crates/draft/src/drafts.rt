// A store with changes over it.
use super::changes::Changes;
use store::Store;

#[derive(Drop)]
pub struct Draft<S: Store> {
    pub(crate) below: S,
    pub(crate) changes: Changes,
}
