// What rows say of their module.
ghost use Rattle.std.specs.Prelude.{◌≡◌, length};
ghost use Rattle.modules.specs.Modules.{struct_at, function_at, struct_head_at, function_head_at};

use super::Rows;
use crate::parts::{FunctionHead, Line, StructHead, Typed};

impl Rows {
    pub fn number(&self) -> u16
        ensures { result ≡ self.now.number }
    {
        self.number
    }

    pub fn struct_count(&self) -> usize
        ensures { result ≡ length self.now.structs }
    {
        self.structs.len()
    }

    pub fn struct_head(&self, index: usize) -> Option<StructHead>
        ensures { result ≡ struct_head_at self.now index }
    {
        self.structs.get(index).copied()
    }

    // The fields of a struct; past the last struct there are none: an empty slice and no `None`, since callers go over it either way.
    pub fn fields(&self, index: usize) -> &[Typed]
        ensures { result.now ≡ (struct_at self.now index).fields }
    {
        self.fields.get(index)
    }

    pub fn function_count(&self) -> usize
        ensures { result ≡ length self.now.functions }
    {
        self.functions.len()
    }

    pub fn function_head(&self, index: usize) -> Option<FunctionHead>
        ensures { result ≡ function_head_at self.now index }
    {
        self.functions.get(index).copied()
    }

    // The parameters of a function, and below its results, locals and code; past the last function there are none.
    // Each is a call of its own, since their columns lie apart: a view of one function would have these four methods again.
    pub fn params(&self, index: usize) -> &[Typed]
        ensures { result.now ≡ (function_at self.now index).params }
    {
        self.params.get(index)
    }

    pub fn results(&self, index: usize) -> &[Typed]
        ensures { result.now ≡ (function_at self.now index).results }
    {
        self.results.get(index)
    }

    pub fn locals(&self, index: usize) -> &[Typed]
        ensures { result.now ≡ (function_at self.now index).locals }
    {
        self.locals.get(index)
    }

    pub fn code(&self, index: usize) -> &[Line]
        ensures { result.now ≡ (function_at self.now index).code }
    {
        self.code.get(index)
    }
}
