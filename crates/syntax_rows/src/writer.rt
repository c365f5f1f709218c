//! A text that grows. Want of memory is kept until the end, so that no step has to look at it.
use star_trees::Var;
use std::alloc::{AllocError, Global};

#[derive(Drop)]
pub(crate) struct Writer {
    alloc: Global,
    text: Result<String, AllocError>,
}

impl Writer {
    pub(crate) fn new(alloc: Global) -> Writer {
        Writer {
            alloc,
            text: Ok(String::new(alloc)),
        }
    }

    pub(crate) fn put(&mut self, more: &str) {
        if let Ok(text) = &mut self.text {
            if let Err(fault) = text.push_str(more) {
                self.text = Err(fault);
            }
        }
    }

    pub(crate) fn put_all(&mut self, more: Result<String, AllocError>) {
        match more {
            Ok(more) => self.put(more.as_str()),
            Err(fault) => self.text = Err(fault),
        }
    }

    pub(crate) fn open(&mut self, word: &str) {
        self.put("(");
        self.put(word);
        self.put(" ");
    }

    pub(crate) fn variable(&mut self, variable: &Var) {
        self.put(variable.name.as_str());
        self.place(variable.scope, variable.slot)
    }

    pub(crate) fn number(&mut self, value: i64) {
        self.put_all(format!(in self.alloc; "{value}"))
    }

    pub(crate) fn line(&mut self, line: u64) {
        self.put_all(format!(in self.alloc; "@{line}"))
    }

    fn place(&mut self, scope: u32, slot: u32) {
        self.put_all(format!(in self.alloc; "@{scope}.{slot} "))
    }

    pub(crate) fn function(&mut self, place: u32) {
        self.put_all(format!(in self.alloc; "#{place} "))
    }

    pub(crate) fn finish(self) -> Result<String, AllocError> {
        let Writer { alloc: _, text } = self;
        text
    }
}
