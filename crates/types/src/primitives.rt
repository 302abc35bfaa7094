// The primitive types: module 0 has them at its indices 0, 1 and 2, and no others.
ghost use Rattle.std.specs.Prelude.{◌≡◌};
ghost use Rattle.types.specs.Primitives.{is_primitive};

use operands::TypeRef;

pub const BOOL: TypeRef = TypeRef {
    module: 0,
    index: 0,
};

pub const NUM: TypeRef = TypeRef {
    module: 0,
    index: 1,
};

pub const ADDRESS: TypeRef = TypeRef {
    module: 0,
    index: 2,
};

pub fn is_primitive(t: TypeRef) -> bool
    ensures { result ≡ is_primitive t }
{
    t == BOOL || t == NUM || t == ADDRESS
}
