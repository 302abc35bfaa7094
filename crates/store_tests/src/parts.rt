// What the tests share: keys, empty table stores, and calls with their answers.
use std::process::Abort;
use std::test::Fail;
use store::{Key, Pair, Store, TableStore};

pub(crate) const SEVENTEEN_WORDS: [u64; 17] = [
    1, 2, 3, 4, 5, 6, 7, 8, 9, 10, 11, 12, 13, 14, 15, 16, 17,
];

pub(crate) fn key(address: u64, module: u16, index: u8) -> Key {
    Key {
        address,
        module,
        index,
    }
}

pub(crate) fn empty(rt: &HostRuntime, rows: usize) -> Result<TableStore, Fail> {
    let Ok(row) = Pair::new(key(1, 1, 1), &[1]) else {
        return Err(Fail::new("one word is no pair"));
    };
    Ok(TableStore::over(vec![in rt.alloc(); row; rows]?))
}

#[derive(Clone, Copy)]
pub(crate) enum Call {
    // the first words of the seventeen, that many
    Put(usize),
    Remove,
    Read,
    Has,
}

// What a call is answered, of one type for all calls, so that a row of them can be listed.
#[derive(Clone, Copy, PartialEq, Eq, Debug)]
pub(crate) enum Answer {
    Done,
    Refused(u8),
    Yes,
    No,
    Words(usize),
}

impl From<bool> for Answer {
    fn from(yes: bool) -> Answer {
        if yes { Answer::Yes } else { Answer::No }
    }
}

pub(crate) fn made<S: Store>(store: &mut S, key: Key, call: Call) -> Answer {
    match call {
        Call::Put(count) => match store.put(key, &SEVENTEEN_WORDS[0..count.min(17)]) {
            Ok(()) => Answer::Done,
            Err(refusal) => Answer::Refused(refusal.number()),
        },
        Call::Remove => match store.remove(key) {
            Ok(was) => Answer::from(was),
            Err(refusal) => Answer::Refused(refusal.number()),
        },
        Call::Read => {
            let mut place = [0; 16];
            Answer::Words(store.read(key, &mut place))
        }
        Call::Has => Answer::from(store.has(key)),
    }
}

// Makes each call at its address, and checks its answer and the size after it.
pub(crate) fn follow<S: Store>(rt: &impl Abort, store: &mut S, calls: &[(u64, Call, Answer, u64)]) {
    for (address, call, expected, size) in calls.iter() {
        assert_eq!(rt; made(store, key(*address, 0, 0), *call), *expected);
        assert_eq!(rt; store.size(), *size);
    }
}

// Puts one word at each address from 0 up.
pub(crate) fn fill<S: Store>(rt: &impl Abort, store: &mut S, keys: u64) {
    for address in 0..keys {
        assert_eq!(rt; made(store, key(address, 0, 0), Call::Put(1)), Answer::Done);
    }
}
