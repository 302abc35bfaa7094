// The parts of a module, each with its place: the offset of its record in the module's bytes.
ghost use Rattle.std.specs.Prelude.{◌≡◌};
ghost use Rattle.modules.specs.Modules.{typed_at};
ghost use Rattle.modules.specs.Visibilities.{visibility_of};

use instructions::Instruction;
use operands::TypeRef;
use types::Abilities;

// Who may call a function: its own module, every module, or a transaction too.
#[derive(Clone, Copy, Debug, PartialEq, Eq)]
pub enum Visibility {
    Private,
    Public,
    Entry,
}

// The byte is 1 for public and 2 for entry, and any other is private.
impl From<u8> for Visibility {
    ghost from_gives = { λ byte visibility. visibility ≡ visibility_of byte };

    fn from(byte: u8) -> Visibility {
        match byte {
            1 => Visibility::Public,
            2 => Visibility::Entry,
            _ => Visibility::Private,
        }
    }
}

// The type of a field, a parameter, a result or a local.
// This and the three below are no one generic struct: each names what stands at its place, and nothing is done alike with all four.
#[derive(Clone, Copy, Debug, PartialEq, Eq)]
pub struct Typed {
    pub ty: TypeRef,
    pub place: usize,
}

impl Typed {
    // The type in the body of a record.
    pub(crate) fn new(body: &[u8; 3], place: usize) -> Typed
        ensures { result ≡ typed_at place body.now }
    {
        let ty = TypeRef::from(body);
        Typed { ty, place }
    }
}

// A line of code.
#[derive(Clone, Copy, Debug, PartialEq, Eq)]
pub struct Line {
    pub instruction: Instruction,
    pub place: usize,
}

// A struct, but for its fields.
#[derive(Clone, Copy, Debug, PartialEq, Eq)]
pub struct StructHead {
    pub abilities: Abilities,
    pub place: usize,
}

// A function, but for its types and its code.
#[derive(Clone, Copy, Debug, PartialEq, Eq)]
pub struct FunctionHead {
    pub visibility: Visibility,
    pub place: usize,
}
