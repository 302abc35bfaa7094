// How rows are made and filled.
ghost use Rattle.std.specs.Prelude.{◌≡◌, ℕ, length, IfOk, Ok};
ghost use Rattle.codec.specs.Reading.{read_module};
ghost use Rattle.codec.specs.Walking.{shown_at};
ghost use Rattle.modules.specs.Adding.{added, Room};
ghost use Rattle.modules.specs.Bounds.{Bounded};
ghost use Rattle.modules.specs.Modules.{decoded, no_module};

use super::Rows;
use crate::parts::{FunctionHead, Line, StructHead, Typed, Visibility};
use bytecode::Record;
use codec::{MAX_MODULE, Placed, Walk};
use groups::Grouped;
use instructions::Instruction;
use operands::module_number;
use std::alloc::{AllocError, Global};
use types::Abilities;

impl Rows {
    // Rows without a module, with memory for every module.
    pub fn new(heap: Global) -> Result<Rows, AllocError>
        ensures { IfOk result (λ rows. rows ≡ no_module) }
    {
        let structs = Vec::with_capacity(heap, MAX_MODULE)?;
        let fields = Grouped::new(heap)?;
        let functions = Vec::with_capacity(heap, MAX_MODULE)?;
        let params = Grouped::new(heap)?;
        let results = Grouped::new(heap)?;
        let locals = Grouped::new(heap)?;
        let code = Grouped::new(heap)?;
        Ok(Rows {
            number: 0,
            structs,
            fields,
            functions,
            params,
            results,
            locals,
            code,
        })
    }

    fn clear(&mut self)
        ensures { self.new ≡ no_module }
    {
        self.number = 0;
        self.structs.clear();
        self.fields.clear();
        self.functions.clear();
        self.params.clear();
        self.results.clear();
        self.locals.clear();
        self.code.clear();
    }

    // One record more.
    fn add(&mut self, placed: &Placed)
        requires { Room 1 self.old }
        ensures { self.new ≡ added self.old (shown_at placed.now) }
    {
        let Placed { place, record } = *placed;
        match record {
            Record::End => {}
            Record::Module(body) => self.number = module_number(body),
            Record::Struct([byte]) => {
                let abilities = Abilities::from(*byte);
                self.structs.push_reserved(StructHead { abilities, place });
                self.fields.open();
            }
            Record::Field(body) => self.fields.add(Typed::new(body, place)),
            Record::Function([byte]) => {
                let visibility = Visibility::from(*byte);
                self.functions
                    .push_reserved(FunctionHead { visibility, place });
                self.params.open();
                self.results.open();
                self.locals.open();
                self.code.open();
            }
            Record::Param(body) => {
                self.params.add(Typed::new(body, place));
                self.locals.add(Typed::new(body, place));
            }
            Record::Result(body) => self.results.add(Typed::new(body, place)),
            Record::Local(body) => self.locals.add(Typed::new(body, place)),
            _ => {
                if let Some(instruction) = Instruction::of(&record) {
                    self.code.add(Line { instruction, place });
                }
            }
        }
    }

    // The rows of the module in these bytes. Of bytes that are too many for a module nothing is decoded.
    pub fn decode(&mut self, bytes: &[u8])
        ensures means { self.new ≡ decoded bytes.now }
        ensures bounded { (n : ℕ) → read_module bytes.now ≡ Ok n → Bounded (length bytes.now) self.new }
    {
        self.clear();
        if bytes.len() > MAX_MODULE {
            return;
        }
        for placed in Walk::over(bytes) {
            self.add(&placed);
        }
    }
}
