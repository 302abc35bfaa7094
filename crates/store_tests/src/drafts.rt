// A draft over a table store.
use super::parts::{Answer, Call, SEVENTEEN_WORDS, empty, fill, follow, key, made};
use draft::Draft;
use std::test::Fail;
use store::Store;

#[test]
fn sixty_four_touched_keys(rt: HostRuntime) -> Result<(), Fail> {
    let mut below = empty(&rt, 100)?;
    follow(&rt, &mut below, &[(1000, Call::Put(1), Answer::Done, 1)]);
    let mut draft = Draft::over(below);
    fill(&rt, &mut draft, 64);
    assert_eq!(rt; draft.free_touches(), Some(0));
    follow(
        &rt,
        &mut draft,
        &[
            // a 65th key, and words of a wrong length, which are tested first
            (64, Call::Put(1), Answer::Refused(36), 65),
            (64, Call::Put(0), Answer::Refused(41), 65),
            (64, Call::Put(17), Answer::Refused(41), 65),
            // a key that only the store below has, one that is absent, and one that is touched
            (1000, Call::Remove, Answer::Refused(36), 65),
            (64, Call::Remove, Answer::No, 65),
            (63, Call::Put(16), Answer::Done, 65),
            (63, Call::Remove, Answer::Yes, 64),
            (63, Call::Remove, Answer::No, 64),
            (63, Call::Put(2), Answer::Done, 65),
            (63, Call::Read, Answer::Words(2), 65),
            (1000, Call::Read, Answer::Words(1), 65),
        ],
    );
    Ok(())
}

#[test]
fn a_remove_touches(rt: HostRuntime) -> Result<(), Fail> {
    let mut below = empty(&rt, 100)?;
    fill(&rt, &mut below, 65);
    let mut draft = Draft::over(below);
    follow(&rt, &mut draft, &[(99, Call::Remove, Answer::No, 65)]);
    assert_eq!(rt; draft.free_touches(), Some(64));
    for address in 0..64 {
        assert_eq!(rt;
            made(&mut draft, key(address, 0, 0), Call::Remove),
            Answer::Yes
        );
    }
    follow(
        &rt,
        &mut draft,
        &[(64, Call::Remove, Answer::Refused(36), 1)],
    );
    assert!(rt; draft.touches(key(63, 0, 0)) && !draft.touches(key(64, 0, 0)));
    draft.forget();
    assert_eq!(rt; draft.free_touches(), Some(64));
    assert_eq!(rt; draft.size(), 65);
    Ok(())
}

#[test]
fn an_emptied_key_takes_words_again(rt: HostRuntime) -> Result<(), Fail> {
    let mut below = empty(&rt, 1)?;
    follow(&rt, &mut below, &[(1, Call::Put(2), Answer::Done, 1)]);
    let mut draft = Draft::over(below);
    follow(
        &rt,
        &mut draft,
        &[
            (1, Call::Read, Answer::Words(2), 1),
            (1, Call::Remove, Answer::Yes, 0),
            (1, Call::Has, Answer::No, 0),
            (1, Call::Read, Answer::Words(0), 0),
            (1, Call::Put(3), Answer::Done, 1),
            (1, Call::Has, Answer::Yes, 1),
            (1, Call::Read, Answer::Words(3), 1),
        ],
    );
    // the store below is as it was
    let mut below = draft.into_below();
    follow(&rt, &mut below, &[(1, Call::Read, Answer::Words(2), 1)]);
    Ok(())
}

#[test]
fn zeros_follow_the_words(rt: HostRuntime) -> Result<(), Fail> {
    let mut draft = Draft::over(empty(&rt, 0)?);
    assert_eq!(rt; draft.limit(), 64);
    for count in [16, 1, 15] {
        assert!(rt; draft.put(key(3, 2, 1), &SEVENTEEN_WORDS[0..count]).is_ok());
        let mut place = [7; 16];
        assert_eq!(rt; draft.read(key(3, 2, 1), &mut place), count);
        for (i, word) in place.iter().enumerate() {
            assert_eq!(rt; *word, if i < count { i as u64 + 1 } else { 0 });
        }
    }
    Ok(())
}

#[test]
fn keys_that_differ_in_one_part(rt: HostRuntime) -> Result<(), Fail> {
    let mut draft = Draft::over(empty(&rt, 0)?);
    for (address, module, index, size) in [(1, 1, 1, 1), (1, 1, 2, 2), (1, 2, 1, 3), (2, 1, 1, 4)] {
        let k = key(address, module, index);
        assert_eq!(rt; made(&mut draft, k, Call::Has), Answer::No);
        assert_eq!(rt; made(&mut draft, k, Call::Put(1)), Answer::Done);
        assert_eq!(rt; made(&mut draft, k, Call::Has), Answer::Yes);
        assert_eq!(rt; draft.size(), size);
    }
    Ok(())
}
