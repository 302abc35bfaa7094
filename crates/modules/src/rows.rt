// The rows into which a module is decoded.
use super::parts::{FunctionHead, Line, StructHead, Typed};
use groups::Grouped;
use std::marker::Model;

mod filling;
mod reading;

// A list of fields for each struct, and for each function lists of parameters, results, locals and code. The parameters are among the locals.
// Clauses see the module that they mean. It is kept in columns, and not as a `Vec` of structs with a `Vec` in each, since memory is reserved once,
// when rows are made, and decoding can't fail for want of it. No record is shorter than a byte, so memory for 4,096 of each is enough for every module.
#[derive(Drop)]
pub struct Rows {
    // 0 where there is no module, which no readable one has
    number: u16,
    structs: Vec<StructHead>,
    fields: Grouped<Typed>,
    functions: Vec<FunctionHead>,
    params: Grouped<Typed>,
    results: Grouped<Typed>,
    locals: Grouped<Typed>,
    code: Grouped<Line>,
}

impl Model for Rows {
    ghost use Rattle.modules.specs.Modules.{Module};

    ghost Value = { Module };

    ghost use Rattle.modules.specs.Rows.{module_of, Aligned};

    ghost view = { module_of };

    ghost invariant = { Aligned };
}
