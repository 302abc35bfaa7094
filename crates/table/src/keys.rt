// What a key and a record have to say of themselves.
ghost use Rattle.std.specs.Prelude.{◌≡◌};
ghost use Rattle.std.specs.Ordering.{partial_lt};
ghost use Rattle.table.specs.Numbers.{numbers_in_order};
ghost use Rattle.table.specs.Order.{Order};

// A kind of key, with a total order: `<` orders the keys, and two of which neither is less are the same.
pub trait Ordered: Copy + Ord {
    ghost order: { Order (partial_lt Self.PartialOrd.partial_cmp) };
}

impl Ordered for u16 {
    ghost order = { numbers_in_order };
}

// A kind of record that names its key.
pub trait Keyed: Copy {
    type Key: Ordered;

    ghost keyof: { Self → Self.Key };

    fn key(&self) -> Self::Key
        ensures { result ≡ keyof self.now };
}
