//! Values as the words of a row: numbers, strings without spaces, brackets, which stand alone, and
//! what an earlier call gave, by its number behind `$`.
use bz_text::{May, Mem, Miss, Seq, Txt};
use star_core::{Cell, Dict, Fault, Heap, Pair, Val};
use star_order::key_content;
use std::alloc::Global;

/// The values that were read, and how many of them stood before each bracket that is open.
#[derive(Drop)]
pub(crate) struct Words {
    values: Vec<Val>,
    opened: Vec<usize>,
}

impl Words {
    pub(crate) fn new(alloc: Global) -> Words {
        Words {
            values: Vec::new(alloc),
            opened: Vec::new(alloc),
        }
    }

    /// Reads a word.
    pub(crate) fn read(&mut self, heap: &mut Heap, given: &[Val], word: &str) -> May<(), Fault> {
        if let Some((_, number)) = word.split_once('$') {
            self.values.push(value_given(given, number))?;
            return Ok(());
        }
        match word {
            "[" | "(" | "{" => self.opened.push(self.values.len())?,
            "]" | ")" | "}" => self.close(heap, word)?,
            _ => self.values.push(word_value(heap, word)?)?,
        }
        Ok(())
    }

    /// The value that is whole, where no bracket is open.
    pub(crate) fn whole(&mut self) -> Option<Val> {
        if self.opened.is_empty() {
            self.values.pop()
        } else {
            None
        }
    }

    fn close(&mut self, heap: &mut Heap, bracket: &str) -> May<(), Fault> {
        let items = self.items(heap.alloc())?;
        let cell = cell_of(heap, bracket, items)?;
        self.values.push(heap.make(cell)?)?;
        Ok(())
    }

    /// Takes the values behind the last bracket.
    fn items(&mut self, alloc: Global) -> Mem<Vec<Val>> {
        let start = self.opened.pop().unwrap_or(0);
        let mut items = Vec::new(alloc);
        let count = self.values.len();
        'taking: for _value in start..count {
            if let Some(value) = self.values.pop() {
                items.push(value)?;
            }
        }
        items.reverse();
        Ok(items)
    }
}

fn cell_of(heap: &Heap, bracket: &str, items: Vec<Val>) -> May<Cell, Fault> {
    match bracket {
        "]" => Ok(Cell::List(Seq::of_vec(items))),
        ")" => Ok(Cell::Tuple(Seq::of_vec(items))),
        _ => dict_of(heap, items.as_slice()),
    }
}

fn dict_of(heap: &Heap, items: &[Val]) -> May<Cell, Fault> {
    let alloc = heap.alloc();
    let mut dict = Dict::new(alloc);
    let mut rest = items;
    'putting: for _pair in 0..items.len() {
        let [key, value, more @ ..] = rest else {
            return Ok(Cell::Dict(dict));
        };
        let pair = Pair {
            key: *key,
            value: *value,
        };
        dict.put(key_content(alloc, heap, key)?, pair)?;
        rest = more;
    }
    Ok(Cell::Dict(dict))
}

fn word_value(heap: &mut Heap, word: &str) -> May<Val, Fault> {
    match word {
        "None" => Ok(Val::None),
        "True" => Ok(Val::Bool(true)),
        "False" => Ok(Val::Bool(false)),
        _ => spelled(heap, word),
    }
}

/// A number, or a string between its signs.
fn spelled(heap: &mut Heap, word: &str) -> May<Val, Fault> {
    if let Some((_, behind)) = word.split_once('"') {
        let text = behind.split_once('"').unwrap_or((behind, "")).0;
        return heap.make(Cell::Text(Txt::of(heap.alloc(), text)?));
    }
    match word.parse::<i64>() {
        Ok(number) => Ok(Val::Int(number)),
        Err(_) => Err(Miss::Because(Fault::Unbound)),
    }
}

/// What the call with a number gave.
pub(crate) fn value_given(given: &[Val], number: &str) -> Val {
    match number.parse::<usize>() {
        Ok(number) => given.get(number).copied().unwrap_or(Val::None),
        Err(_) => Val::None,
    }
}
