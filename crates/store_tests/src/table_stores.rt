// The store that keeps its pairs in sorted rows.
use super::parts::{Answer, Call, SEVENTEEN_WORDS, empty, follow, key};
use std::test::Fail;
use store::{Key, ListingStore, Store, TableStore};

// what a place holds before a read
const OLD: [u64; 16] = [7; 16];

const ONE_WORD: [u64; 16] = [5, 0, 0, 0, 0, 0, 0, 0, 0, 0, 0, 0, 0, 0, 0, 0];

const TWO_WORDS: [u64; 16] = [5, 6, 0, 0, 0, 0, 0, 0, 0, 0, 0, 0, 0, 0, 0, 0];

const SIXTEEN_WORDS: [u64; 16] = [1, 2, 3, 4, 5, 6, 7, 8, 9, 10, 11, 12, 13, 14, 15, 16];

// The number of the refusal, where the pair is not put.
fn refused(store: &mut TableStore, key: Key, words: &[u64]) -> Option<u8> {
    store.put(key, words).err().map(|refusal| refusal.number())
}

#[test]
fn limits(rt: HostRuntime) -> Result<(), Fail> {
    for (rows, limit) in [(0, 0), (3, 3), (4096, 4096), (4097, 4096)] {
        let store = empty(&rt, rows)?;
        assert_eq!(rt; store.size(), 0);
        assert_eq!(rt; store.limit(), limit);
        assert!(rt; !store.has(key(1, 1, 1)));
        assert_eq!(rt; store.next(None), None);
        assert_eq!(rt; store.into_rows().len() as u64, limit);
    }
    Ok(())
}

#[test]
fn words(rt: HostRuntime) -> Result<(), Fail> {
    let mut store = empty(&rt, 2)?;
    for (given, number, count, left) in [
        (&SIXTEEN_WORDS[0..0], Some(41), 0, OLD),
        (&SEVENTEEN_WORDS[0..17], Some(41), 0, OLD),
        (&ONE_WORD[0..1], None, 1, ONE_WORD),
        (&SIXTEEN_WORDS[0..16], None, 16, SIXTEEN_WORDS),
        (&TWO_WORDS[0..2], None, 2, TWO_WORDS),
        (&SEVENTEEN_WORDS[0..17], Some(41), 2, TWO_WORDS),
        (&SEVENTEEN_WORDS[0..16], None, 16, SIXTEEN_WORDS),
    ] {
        assert_eq!(rt; refused(&mut store, key(8, 7, 6), given), number);
        let mut place = OLD;
        assert_eq!(rt; store.read(key(8, 7, 6), &mut place), count);
        assert_eq!(rt; place, left);
        assert_eq!(rt; store.read(key(8, 7, 5), &mut place), 0);
        assert_eq!(rt; place, left);
    }
    assert_eq!(rt; store.size(), 1);
    Ok(())
}

#[test]
fn at_the_limit(rt: HostRuntime) -> Result<(), Fail> {
    let mut store = empty(&rt, 2)?;
    follow(
        &rt,
        &mut store,
        &[
            (1, Call::Put(1), Answer::Done, 1),
            (2, Call::Put(1), Answer::Done, 2),
            (3, Call::Put(1), Answer::Refused(40), 2),
            (3, Call::Put(17), Answer::Refused(41), 2),
            (1, Call::Put(16), Answer::Done, 2),
            (2, Call::Put(0), Answer::Refused(41), 2),
            (3, Call::Remove, Answer::No, 2),
            (1, Call::Remove, Answer::Yes, 1),
            (1, Call::Remove, Answer::No, 1),
            (2, Call::Remove, Answer::Yes, 0),
            (2, Call::Has, Answer::No, 0),
            (3, Call::Put(1), Answer::Done, 1),
        ],
    );
    assert_eq!(rt; store.limit(), 2);
    Ok(())
}

// keys by their address, module and index
const AS_PUT: [(u64, u16, u8); 7] = [
    (2, 1, 1),
    (1, 9, 9),
    (18446744073709551615, 0, 0),
    (2, 0, 3),
    (3, 0, 0),
    (2, 1, 0),
    (2, 300, 0),
];

const IN_ORDER: [(u64, u16, u8); 7] = [
    (1, 9, 9),
    (2, 0, 3),
    (2, 1, 0),
    (2, 1, 1),
    (2, 300, 0),
    (3, 0, 0),
    (18446744073709551615, 0, 0),
];

#[test]
fn order(rt: HostRuntime) -> Result<(), Fail> {
    let mut store = empty(&rt, 8)?;
    for (address, module, index) in AS_PUT {
        let k = key(address, module, index);
        assert_eq!(rt;
            refused(&mut store, k, &[address, module as u64, index as u64]),
            None
        );
        assert!(rt; store.has(k) && !store.touches(k) && store.free_touches().is_none());
    }
    let mut after = None;
    for (address, module, index) in IN_ORDER {
        after = store.next(after);
        assert_eq!(rt; after, Some(key(address, module, index)));
        let mut place = OLD;
        assert_eq!(rt; store.read(key(address, module, index), &mut place), 3);
        assert!(rt; place[0] == address && place[1] == module as u64 && place[2] == index as u64);
    }
    assert_eq!(rt; store.next(after), None);
    // from keys that are absent
    assert_eq!(rt; store.next(Some(key(0, 0, 0))), Some(key(1, 9, 9)));
    assert_eq!(rt; store.next(Some(key(2, 1, 255))), Some(key(2, 300, 0)));
    assert_eq!(rt; store.next(Some(key(2, 65535, 0))), Some(key(3, 0, 0)));
    Ok(())
}
