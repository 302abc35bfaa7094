// How long the body of each kind of record is.
ghost use Rattle.std.specs.Prelude.{◌≡◌, cond, Some, None};
ghost use Rattle.bytecode.specs.Kinds.{body_length, known};

// By kind byte, from 00 to FF; 255 says that there is no such kind. One constant table of 256 bytes is a rule of the project.
const BODY_LENGTHS: [u8; 256] = [
    0, // end
    2, // module
    1, // struct
    3, // field
    1, // function
    3, // param
    3, // result
    3, // local
    255, 255, 255, 255, 255, 255, 255, 255, 1, // pushbool
    8, // pushnum
    8, // pushaddr
    0, // sender
    0, // pop
    1, // copyloc
    1, // moveloc
    1, // stloc
    0, // add
    0, // sub
    0, // mul
    255, 255, 0, // lt
    0, // eq
    255, 255, 255, 1, // jump
    1, // jumpif
    3, // call
    0, // ret
    0, // abort
    1, // pack
    1, // unpack
    1, // moveto
    1, // movefrom
    1, // exists
    255, 255, 255, 255, 255, 255, 255, 255, 255, 255, 255, 255, 255, 255, 255, 255, 255, 255, 255,
    255, 255, 255, 255, 255, 255, 255, 255, 255, 255, 255, 255, 255, 255, 255, 255, 255, 255, 255,
    255, 255, 255, 255, 255, 255, 255, 255, 255, 255, 255, 255, 255, 255, 255, 255, 255, 255, 255,
    255, 255, 255, 255, 255, 255, 255, 255, 255, 255, 255, 255, 255, 255, 255, 255, 255, 255, 255,
    255, 255, 255, 255, 255, 255, 255, 255, 255, 255, 255, 255, 255, 255, 255, 255, 255, 255, 255,
    255, 255, 255, 255, 255, 255, 255, 255, 255, 255, 255, 255, 255, 255, 255, 255, 255, 255, 255,
    255, 255, 255, 255, 255, 255, 255, 255, 255, 255, 255, 255, 255, 255, 255, 255, 255, 255, 255,
    255, 255, 255, 255, 255, 255, 255, 255, 255, 255, 255, 255, 255, 255, 255, 255, 255, 255, 255,
    255, 255, 255, 255, 255, 255, 255, 255, 255, 255, 255, 255, 255, 255, 255, 255, 255, 255, 255,
    255, 255, 255, 255, 255, 255, 255, 255, 255, 255, 255, 255, 255, 255, 255, 255, 255, 255, 255,
    255, 255, 255, 255, 255, 255, 255, 255, 255, 255, 255, 255, 255, 255, 255, 255, 255, 255, 255,
    255, 255, 255,
];

// The length of the body that follows this kind byte, if there is such a kind.
pub fn body_length(kind: u8) -> Option<usize>
    ensures { result ≡ cond (known kind) (Some (body_length kind)) None }
{
    match BODY_LENGTHS[kind as usize] {
        255 => None,
        length => Some(length as usize),
    }
}
