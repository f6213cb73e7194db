//! Where the items of a document begin.
use std::alloc::{AllocError, Global};
use std::mem;

// Where a value begins, and from which index on the places of its items are.
#[derive(Clone, Copy)]
pub(crate) struct Start {
    pub(crate) line: usize,
    pub(crate) column: usize,
    items: usize,
}

// The place of the first byte.
const FIRST: Start = Start {
    line: 1,
    column: 1,
    items: 0,
};

// Where a document and the items of its arrays begin, but for those within objects, which have no
// errors of their own.
#[derive(Drop)]
pub(crate) struct Starts {
    root: Start,
    // The places of the items of each array, one array behind the other.
    items: Vec<Start>,
}

impl Starts {
    // Finds where the items of a document begin, which is JSON. One pass over its bytes.
    pub(crate) fn of(alloc: Global, document: &[u8]) -> Result<Starts, AllocError> {
        let mut pass = Pass::new(alloc);
        for &byte in document {
            pass.take(alloc, byte)?;
        }
        let Pass { level, items, .. } = pass;
        let root = match level.first() {
            Some(root) => *root,
            None => FIRST,
        };
        Ok(Starts { root, items })
    }

    // Returns where the value at a location begins.
    pub(crate) fn place_of(&self, location: &str) -> Start {
        let (mut at, mut index, mut is_begun) = (self.root, 0usize, false);
        for &byte in location.as_bytes() {
            if byte != b'/' {
                let digit = (byte as usize).saturating_sub(48);
                index = index.saturating_mul(10).saturating_add(digit);
            } else {
                if is_begun {
                    at = self.item(at, index);
                }
                index = 0;
                is_begun = true;
            }
        }
        if is_begun { self.item(at, index) } else { at }
    }

    // Returns where an item begins, or the array, if it has no such item.
    fn item(&self, array: Start, index: usize) -> Start {
        match self.items.get(array.items.saturating_add(index)) {
            Some(item) => *item,
            None => array,
        }
    }
}

// A pass over the bytes of a document.
#[derive(Drop)]
struct Pass {
    // The place of the next byte.
    line: usize,
    column: usize,
    // The byte is in a string, or behind a backslash in one.
    in_string: bool,
    is_escaped: bool,
    // How many objects are open, and arrays in them.
    depth: usize,
    // An item may begin, or the document.
    may_begin: bool,
    // The places of the items of the innermost array so far, and of those around it.
    level: Vec<Start>,
    outer: Vec<Vec<Start>>,
    // The places of the items of arrays that are closed.
    items: Vec<Start>,
}

impl Pass {
    fn new(alloc: Global) -> Pass {
        Pass {
            line: 1,
            column: 1,
            in_string: false,
            is_escaped: false,
            depth: 0,
            may_begin: true,
            level: Vec::new(alloc),
            outer: Vec::new(alloc),
            items: Vec::new(alloc),
        }
    }

    // Takes the next byte.
    fn take(&mut self, alloc: Global, byte: u8) -> Result<(), AllocError> {
        if self.in_string {
            self.take_in_string(byte);
        } else {
            self.take_token(alloc, byte)?;
        }
        if byte == b'\n' {
            self.line = self.line.saturating_add(1);
            self.column = 1;
        } else if byte < 128 || 192 <= byte {
            self.column = self.column.saturating_add(1);
        }
        Ok(())
    }

    fn take_in_string(&mut self, byte: u8) {
        if self.is_escaped {
            self.is_escaped = false;
        } else if byte == b'\\' {
            self.is_escaped = true;
        } else if byte == b'"' {
            self.in_string = false;
        }
    }

    fn take_token(&mut self, alloc: Global, byte: u8) -> Result<(), AllocError> {
        match byte {
            b' ' | b'\t' | b'\r' | b'\n' | b':' => Ok(()),
            b',' => {
                self.may_begin = self.depth == 0;
                Ok(())
            }
            b']' | b'}' => self.close(),
            _ => {
                self.begin()?;
                self.in_string = byte == b'"';
                if byte == b'[' || byte == b'{' {
                    self.open(alloc, byte)?;
                }
                Ok(())
            }
        }
    }

    // A value begins here, or goes on.
    fn begin(&mut self) -> Result<(), AllocError> {
        if !self.may_begin {
            return Ok(());
        }
        self.may_begin = false;
        self.level.push(Start {
            line: self.line,
            column: self.column,
            items: 0,
        })?;
        Ok(())
    }

    // An array or an object opens.
    fn open(&mut self, alloc: Global, byte: u8) -> Result<(), AllocError> {
        if self.depth > 0 || byte == b'{' {
            self.depth = self.depth.saturating_add(1);
            return Ok(());
        }
        let level = mem::replace(&mut self.level, Vec::new(alloc));
        self.outer.push(level)?;
        self.may_begin = true;
        Ok(())
    }

    // An array or an object closes.
    fn close(&mut self) -> Result<(), AllocError> {
        if self.depth > 0 {
            self.depth -= 1;
            return Ok(());
        }
        let Some(outer) = self.outer.pop() else {
            return Ok(());
        };
        let level = mem::replace(&mut self.level, outer);
        if let Some(array) = self.level.last_mut() {
            array.items = self.items.len();
        }
        self.may_begin = false;
        self.items.extend_from_slice(&level)
    }
}
