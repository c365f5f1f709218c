//! Instructions, blocks and files of code.
use bz_text::Txt;
use sqlite_items::Items;
use star_core::{BinOp, UnOp, Val};
use star_meaning::{Formal, Way};

/// One instruction. What it takes from the stack is gone, and what it makes is on top.
#[derive(Clone, Copy, Debug, PartialEq, Eq)]
pub enum Instr {
    /// A statement of this line begins: a step.
    Begin(u64),
    /// A node begins: a step.
    Tick,
    /// A value, which is a step.
    Constant(Val),
    /// A value, which is none.
    Push(Val),
    /// The value of a variable, which is a step.
    Name { hops: u32, slot: u32 },
    /// Sets a variable to the top.
    Set { hops: u32, slot: u32 },
    /// Takes the top away.
    Forget,
    /// A list of so many topmost values.
    List(usize),
    /// A tuple of so many topmost values.
    Tuple(usize),
    /// An empty dictionary.
    Dict,
    /// Puts a key and a value into the dictionary below them.
    Entry,
    Unary(UnOp),
    Binary(BinOp),
    /// Runs a block in the place of the top where that counts so, and leaves the top else.
    Short { wanted: bool, block: usize },
    /// Runs the one block or the other.
    If { chosen: usize, other: usize },
    /// Runs the block of the defaults of a function of the file.
    Defaults(u32),
    /// Makes a function of the file with its defaults, which are on top.
    Def(u32),
    /// An attribute, by the number of its name.
    Attr(usize),
    Index,
    Slice,
    /// Calls the value below so many arguments by position.
    Call(usize),
    /// An operand that is to be iterable, since its items are arguments.
    CheckItems,
    /// An operand that is to be a dictionary with strings as its keys, which name arguments.
    CheckKeywords,
    /// Gathers the arguments of a call, by the number of their shape.
    Gather(usize),
    /// Calls the top with the arguments that were gathered.
    CallGathered,
    /// Puts a value in the place of a container's element.
    SetIndex,
    /// The items of the top, which are to be so many, the first on top.
    Unpack(usize),
    /// Runs a block for each item of the top, which the block finds on top.
    For(usize),
    /// Runs a block in a scope of its own.
    Within(usize),
    /// Puts the top behind the items of the list below it.
    Collect,
    /// Puts a key and a value into the dictionary below them, which may have the key.
    CollectEntry,
    Return,
    Break,
    Continue,
    /// Puts what an operator makes of a variable and the top into the variable.
    AugmentName { op: BinOp, hops: u32, slot: u32 },
    /// A container's element above it and its index.
    Fetch,
    /// Puts what an operator makes of an element and the top in the place of the element.
    AugmentIndex(BinOp),
    /// What no file says: an assignment to an expression that is no place, a comprehension without a
    /// loop, or a default that makes a function before its own.
    NotAssignable,
}

/// A function's code: its name, its parameters, how many of them have a default, the block that
/// evaluates these, and the block of its body.
#[derive(Debug, Drop)]
pub struct FnEntry {
    pub name: Txt,
    pub params: Items<Formal>,
    pub optional: usize,
    pub defaults: usize,
    pub block: usize,
}

/// The code of a file: its blocks, the names of its attributes, the shapes of its calls, its
/// functions in the order of the file's, and which block its statements are.
#[derive(Drop)]
pub struct Code {
    pub blocks: Items<Items<Instr>>,
    pub names: Items<Txt>,
    pub shapes: Items<Items<Way>>,
    pub functions: Items<FnEntry>,
    pub top: usize,
}
