// What may be done with the values of a type.
ghost use Rattle.std.specs.Prelude.{◌≡◌};
ghost use Rattle.types.specs.Abilities.{abilities_of, allows, only_if};

#[derive(Clone, Copy, PartialEq, Eq, Debug)]
pub struct Abilities {
    pub copy: bool,
    pub drop: bool,
    pub store: bool,
    pub key: bool,
}

// Whether `a` holds only where `b` does. `a <= b` says the same of two bools, and is no plainer.
fn only_if(a: bool, b: bool) -> bool
    ensures { result ≡ only_if a b }
{
    !a || b
}

// The abilities that a struct's byte tells; the upper four bits say nothing.
impl From<u8> for Abilities {
    ghost from_gives = { λ byte abilities. abilities ≡ abilities_of byte };

    fn from(byte: u8) -> Abilities {
        Abilities {
            copy: byte & 1 != 0,
            drop: byte & 2 != 0,
            store: byte & 4 != 0,
            key: byte & 8 != 0,
        }
    }
}

impl Abilities {
    pub const PRIMITIVE: Abilities = Abilities {
        copy: true,
        drop: true,
        store: true,
        key: false,
    };

    // Whether a struct with these abilities may have a field with those.
    pub fn allow(self, field: Abilities) -> bool
        ensures { result ≡ allows self field }
    {
        only_if(self.copy, field.copy)
            && only_if(self.drop, field.drop)
            && only_if(self.store, field.store)
            && only_if(self.key, field.store)
    }
}
