// Rows of a record of another kind: what is known of a module, by its number.
use std::test::Fail;
use table::{Keyed, find, insert, next, remove};

#[derive(Clone, Copy, PartialEq, Eq, Debug)]
struct About {
    number: u16,
    length: u16,
}

impl Keyed for About {
    type Key = u16;

    ghost keyof = { λ a. a.number };

    fn key(&self) -> u16 {
        self.number
    }
}

const TWO: About = About {
    number: 2,
    length: 20,
};

const FIVE: About = About {
    number: 5,
    length: 50,
};

const SEVEN: About = About {
    number: 7,
    length: 70,
};

const NINE: About = About {
    number: 9,
    length: 90,
};

const LONGER_FIVE: About = About {
    number: 5,
    length: 55,
};

// a row that is not in use
const FREE: About = About {
    number: 3,
    length: 0,
};

#[test]
fn what_is_found(rt: HostRuntime) {
    let rows = [TWO, FIVE, NINE, FREE];
    for (number, place, above) in [
        (0, Err(0), Some(TWO)),
        (2, Ok(0), Some(FIVE)),
        (3, Err(1), Some(FIVE)),
        (5, Ok(1), Some(NINE)),
        (8, Err(2), Some(NINE)),
        (9, Ok(2), None),
        (65535, Err(3), None),
    ] {
        assert_eq!(rt; find(&rows, 3, number), place);
        assert_eq!(rt; next(&rows, 3, number), above);
    }
    assert_eq!(rt; find(&rows, 0, 2), Err(0));
    assert_eq!(rt; find(&rows[0..3], 99, 9), Ok(2));
    assert_eq!(rt; next(&rows[0..3], 99, 9), None);
}

#[test]
fn what_is_put(rt: HostRuntime) -> Result<(), Fail> {
    let mut rows = vec![in rt.alloc(); TWO, FIVE, NINE, FREE]?;
    for (about, used, left) in [
        (LONGER_FIVE, Some(3), [TWO, LONGER_FIVE, NINE, FREE]),
        (FIVE, Some(3), [TWO, FIVE, NINE, FREE]),
        (SEVEN, Some(4), [TWO, FIVE, SEVEN, NINE]),
    ] {
        assert_eq!(rt; insert(rows.as_mut_slice(), 3, about).ok(), used);
        assert_eq!(rt; rows.as_slice(), left.as_slice());
    }
    // no row is free for one more, and a length beyond the rows counts as theirs
    for (about, used, left) in [
        (FREE, None, [TWO, FIVE, SEVEN, NINE]),
        (LONGER_FIVE, Some(4), [TWO, LONGER_FIVE, SEVEN, NINE]),
    ] {
        assert_eq!(rt; insert(rows.as_mut_slice(), 99, about).ok(), used);
        assert_eq!(rt; rows.as_slice(), left.as_slice());
    }
    Ok(())
}

#[test]
fn what_is_taken_out(rt: HostRuntime) -> Result<(), Fail> {
    let mut rows = vec![in rt.alloc(); TWO, FIVE, SEVEN, NINE]?;
    for (used, number, answer, left) in [
        (99, 6, None, [TWO, FIVE, SEVEN, NINE]),
        (99, 5, Some(3), [TWO, SEVEN, NINE, NINE]),
        (3, 5, None, [TWO, SEVEN, NINE, NINE]),
        (3, 9, Some(2), [TWO, SEVEN, NINE, NINE]),
        (2, 9, None, [TWO, SEVEN, NINE, NINE]),
        (2, 2, Some(1), [SEVEN, SEVEN, NINE, NINE]),
        (1, 7, Some(0), [SEVEN, SEVEN, NINE, NINE]),
        (0, 7, None, [SEVEN, SEVEN, NINE, NINE]),
    ] {
        assert_eq!(rt; remove(rows.as_mut_slice(), used, number), answer);
        assert_eq!(rt; rows.as_slice(), left.as_slice());
    }
    Ok(())
}
