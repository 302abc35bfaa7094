// Changes merged into the store below, one draft over another included.
use super::parts::{Answer, Call, empty, fill, follow};
use draft::{Draft, NoFit};
use std::test::Fail;
use store::{Store, TableStore};

// The address of a touched key, and the number of its words.
fn listed(draft: &Draft<TableStore>, place: usize) -> Option<(u64, usize)> {
    let change = draft.touched().get(place)?;
    Some((change.touched().address, change.words().len()))
}

#[test]
fn at_the_limit(rt: HostRuntime) -> Result<(), Fail> {
    let mut below = empty(&rt, 2)?;
    fill(&rt, &mut below, 2);
    let mut draft = Draft::over(below);
    // three pairs are one too many below, and nothing is altered
    follow(&rt, &mut draft, &[(5, Call::Put(1), Answer::Done, 3)]);
    assert!(rt; !draft.fits_below());
    assert_eq!(rt; draft.merge(), Err(NoFit));
    // the puts wait for the remove of a larger key, whatever their order
    follow(
        &rt,
        &mut draft,
        &[
            (5, Call::Remove, Answer::Yes, 2),
            (1, Call::Remove, Answer::Yes, 1),
            (4, Call::Put(3), Answer::Done, 2),
        ],
    );
    assert!(rt; draft.fits_below());
    assert_eq!(rt; draft.merge(), Ok(()));
    assert_eq!(rt; draft.touched().len(), 0);
    let mut below = draft.into_below();
    follow(
        &rt,
        &mut below,
        &[
            (0, Call::Read, Answer::Words(1), 2),
            (1, Call::Read, Answer::Words(0), 2),
            (4, Call::Read, Answer::Words(3), 2),
            (5, Call::Read, Answer::Words(0), 2),
        ],
    );
    Ok(())
}

#[test]
fn every_touched_key(rt: HostRuntime) -> Result<(), Fail> {
    let mut below = empty(&rt, 9)?;
    fill(&rt, &mut below, 3);
    let mut draft = Draft::over(below);
    follow(
        &rt,
        &mut draft,
        &[
            (7, Call::Put(16), Answer::Done, 4),
            (1, Call::Put(2), Answer::Done, 4),
            (0, Call::Remove, Answer::Yes, 3),
            (9, Call::Put(1), Answer::Done, 4),
            (9, Call::Remove, Answer::Yes, 3),
        ],
    );
    for (place, address, count) in [(0, 0, 0), (1, 1, 2), (2, 7, 16), (3, 9, 0)] {
        assert_eq!(rt; listed(&draft, place), Some((address, count)));
    }
    assert_eq!(rt; listed(&draft, 4), None);
    assert_eq!(rt; draft.merge(), Ok(()));
    let mut below = draft.into_below();
    follow(
        &rt,
        &mut below,
        &[
            (0, Call::Read, Answer::Words(0), 3),
            (1, Call::Read, Answer::Words(2), 3),
            (2, Call::Read, Answer::Words(1), 3),
            (7, Call::Read, Answer::Words(16), 3),
            (9, Call::Read, Answer::Words(0), 3),
        ],
    );
    Ok(())
}

#[test]
fn a_draft_over_a_draft(rt: HostRuntime) -> Result<(), Fail> {
    let mut lower = Draft::over(empty(&rt, 2)?);
    fill(&rt, &mut lower, 2);
    let mut upper = Draft::over(lower);
    assert_eq!(rt; upper.limit(), 130);
    follow(
        &rt,
        &mut upper,
        &[
            (0, Call::Remove, Answer::Yes, 1),
            (3, Call::Put(3), Answer::Done, 2),
            (1, Call::Read, Answer::Words(1), 2),
        ],
    );
    assert_eq!(rt; upper.merge(), Ok(()));
    let mut lower = upper.into_below();
    assert_eq!(rt; lower.touched().len(), 3);
    assert_eq!(rt; lower.merge(), Ok(()));
    let mut below = lower.into_below();
    follow(
        &rt,
        &mut below,
        &[
            (0, Call::Has, Answer::No, 2),
            (1, Call::Read, Answer::Words(1), 2),
            (3, Call::Read, Answer::Words(3), 2),
        ],
    );
    Ok(())
}

#[test]
fn at_the_cap(rt: HostRuntime) -> Result<(), Fail> {
    let mut lower = Draft::over(empty(&rt, 100)?);
    fill(&rt, &mut lower, 63);
    let mut upper = Draft::over(lower);
    // a key that is touched below, and two that are not
    follow(
        &rt,
        &mut upper,
        &[
            (0, Call::Put(2), Answer::Done, 63),
            (100, Call::Put(2), Answer::Done, 64),
            (101, Call::Put(2), Answer::Done, 65),
        ],
    );
    assert!(rt; !upper.fits_below());
    assert_eq!(rt; upper.merge(), Err(NoFit));
    // a key that the draft below lacks is taken out without touching it there
    follow(&rt, &mut upper, &[(101, Call::Remove, Answer::Yes, 64)]);
    assert!(rt; upper.fits_below());
    assert_eq!(rt; upper.merge(), Ok(()));
    let lower = upper.into_below();
    assert_eq!(rt; lower.touched().len(), 64);
    Ok(())
}
