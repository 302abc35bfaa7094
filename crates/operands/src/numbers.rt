// What the bytes of a record's body say; the low byte comes first.
ghost use Rattle.std.specs.Prelude.{◌≡◌, Some};
ghost use Rattle.operands.specs.Operands.{low_first, type_ref, function_ref};
ghost use Rattle.operands.specs.Texts.{type_text};

use std::fmt;

// A type, by a module's number and an index there. In module 0, bool, num and address are 0, 1 and 2; in any other the index counts structs.
#[derive(Clone, Copy, Debug, PartialEq, Eq)]
pub struct TypeRef {
    pub module: u16,
    pub index: u8,
}

// A function, by its module and its index there. A type of its own, so that no `TypeRef` stands for one.
#[derive(Clone, Copy, Debug, PartialEq, Eq)]
pub struct FunctionRef {
    pub module: u16,
    pub function: u8,
}

// This and `word` stay two: `from_le_bytes` is a method of each width by itself, and a trait over it would be longer than both.
pub fn module_number(body: &[u8; 2]) -> u16
    ensures { result ≡ low_first 2 body.now }
{
    u16::from_le_bytes(*body)
}

pub fn word(body: &[u8; 8]) -> u64
    ensures { result ≡ low_first 8 body.now }
{
    u64::from_le_bytes(*body)
}

impl From<&[u8; 3]> for TypeRef {
    ghost from_gives = { λ body t. t ≡ type_ref body.now };

    fn from(body: &[u8; 3]) -> TypeRef {
        let [low, high, index] = *body;
        TypeRef {
            module: u16::from_le_bytes([low, high]),
            index,
        }
    }
}

impl From<&[u8; 3]> for FunctionRef {
    ghost from_gives = { λ body f. f ≡ function_ref body.now };

    fn from(body: &[u8; 3]) -> FunctionRef {
        let [low, high, function] = *body;
        FunctionRef {
            module: u16::from_le_bytes([low, high]),
            function,
        }
    }
}

impl fmt::Display for TypeRef {
    ghost output = { λ x. Some (type_text x) };

    fn fmt<W: fmt::Write>(&self, f: &mut fmt::Formatter<W>) -> fmt::Result {
        let module = self.module;
        let index = self.index;
        match (module, index) {
            (0, 0) => f.write_str("bool"),
            (0, 1) => f.write_str("num"),
            (0, 2) => f.write_str("address"),
            _ => write!(f, "{module}.{index}"),
        }
    }
}
