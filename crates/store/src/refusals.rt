// What a store refuses, with the numbers that users see.
ghost use Rattle.std.specs.Prelude.{◌≡◌};
ghost use Rattle.store.specs.Refusals.{number};

#[derive(Clone, Copy, PartialEq, Eq, Debug)]
pub enum Refusal {
    TooManyTouched,
    AtLimit,
    WrongLength,
}

impl Refusal {
    pub fn number(self) -> u8
        ensures { result ≡ number self }
    {
        match self {
            Refusal::TooManyTouched => 36,
            Refusal::AtLimit => 40,
            Refusal::WrongLength => 41,
        }
    }
}
