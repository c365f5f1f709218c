//! What the pass writes: blocks, names and the cells of texts, which only grow.
ghost use Rattle.std.specs.Prelude.{◌≡◌, ◌∷◌, IfOk, None, OnOk};
ghost use Rattle.star_compiler.specs.Emitted.{BlockPut, LiteralPut, NamePut, ShapePut};
ghost use Rattle.star_core.specs.Dicts.{entry_of};

use bz_text::{Mem, OutOfMemory, Txt};
use sqlite_items::Items;
use star_code::Instr;
use star_core::{Dict, Heap, Pair, Stack, Val};
use star_meaning::Way;
use std::alloc::Global;

/// The tables of a file's code while it is written. Code is written from its end to its beginning,
/// so that what comes behind a part stands there already. `least` is the first function of the file
/// that may be made where code is written.
#[derive(Drop)]
pub struct Emitter {
    pub blocks: Items<Items<Instr>>,
    pub names: Items<Txt>,
    pub shapes: Items<Items<Way>>,
    pub literals: Dict,
    pub least: usize,
    pub heap: Heap,
    pub alloc: Global,
}

impl Emitter {
    /// Keeps a finished block; its number.
    pub fn keep_block(&mut self, code: Stack<Instr>) -> Mem<usize>
        ensures { IfOk result (λ block. BlockPut code block self.old self.new) }
    {
        let block = self.blocks.len();
        self.blocks.push(code.into_items())?;
        Ok(block)
    }

    /// Keeps a name; its number.
    pub fn keep_name(&mut self, name: &Txt) -> Mem<usize>
        ensures { IfOk result (λ index. NamePut name.now index self.old self.new) }
    {
        let index = self.names.len();
        self.names.push(name.copy(self.alloc)?)?;
        Ok(index)
    }

    /// Keeps the shape of a call; its number.
    pub fn keep_shape(&mut self, ways: Items<Way>) -> Mem<usize>
        ensures { IfOk result (λ index. ShapePut ways index self.old self.new) }
    {
        let index = self.shapes.len();
        self.shapes.push(ways)?;
        Ok(index)
    }

    /// The cell of a text that the file spells, which is made where it isn't there yet.
    pub fn literal(&mut self, text: &Txt) -> Mem<Val>
        ensures { IfOk result (λ value. LiteralPut text.now value self.old self.new) }
    {
        if let Some(pair) = self.literals.get(text.as_str()) {
            return Ok(pair.value);
        }
        self.new_literal(text)
    }

    fn new_literal(&mut self, text: &Txt) -> Mem<Val>
        requires { entry_of text.now self.old.literals ≡ None }
        ensures { IfOk result (λ value. LiteralPut text.now value self.old self.new) }
    {
        let spelled = text.copy(self.alloc)?;
        let Ok(value) = self.heap.literal(spelled) else {
            return Err(OutOfMemory);
        };
        let pair = Pair { key: value, value };
        self.literals.put(text.copy(self.alloc)?, pair)?;
        Ok(value)
    }
}

/// Puts an instruction in front of others.
pub fn put(out: &mut Stack<Instr>, instr: Instr) -> Mem<()>
    ensures { OnOk result (out.new ≡ instr ∷ out.old) }
{
    out.push(instr)
}
