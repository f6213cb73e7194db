//! Room of trees that are no longer needed, for trees that are read later.
ghost use Rattle.std.specs.Prelude.{◌≡◌, [], IfOk, string_bytes};

use jskw_value::{DecimalTree, Member, Members};
use std::alloc::{AllocError, Global};

// For how many items or members a new array or object has room.
const MOST_ROOM: u8 = 8;

// For how many depths that is guessed by itself.
const DEPTHS: usize = 128;

// How many texts are kept, and how many bytes each has room for at most.
const MOST_TEXTS: usize = 4096;

const MOST_BYTES: usize = 64;

// How many lists are kept, and how many items each has room for at most.
const MOST_LISTS: usize = 256;

const MOST_ITEMS: usize = 256;

// How many lists of members are kept, and how many members each has room for at most.
const MOST_OBJECTS: usize = 256;

const MOST_MEMBERS: usize = 64;

// How many arrays and objects of a tree are taken apart at most, and how many wait for it.
const MOST_TREES: usize = 65536;

const MOST_PARTS: usize = 4096;

// Returns a list without its items, or, if there is none, a new one with room for so many.
#[inline(always)]
fn emptied_or_new<T: Drop>(
    list: Option<Vec<T>>,
    alloc: Global,
    room: usize,
) -> Result<Vec<T>, AllocError>
    ensures { IfOk result (λ list. list.items ≡ []) }
{
    match list {
        Some(mut list) => {
            list.clear();
            Ok(list)
        }
        None => Vec::with_capacity(alloc, room),
    }
}

// Room of trees that are no longer needed, up to 4 MB.
#[derive(Drop)]
pub(crate) struct Spare {
    // What trees are allocated by.
    pub(crate) alloc: Global,
    texts: Vec<String>,
    lists: Vec<Vec<DecimalTree>>,
    objects: Vec<Vec<Member<DecimalTree>>>,
    // Parts of a tree that are still to be taken apart.
    parts: Vec<DecimalTree>,
    // How many items or members the last array or object had at each depth, up to `MOST_ROOM`:
    // neighbours are often alike.
    room: [u8; DEPTHS],
}

impl Spare {
    // Creates one that has no room yet.
    pub(crate) fn new(alloc: Global) -> Spare {
        Spare {
            alloc,
            texts: Vec::new(alloc),
            lists: Vec::new(alloc),
            objects: Vec::new(alloc),
            parts: Vec::new(alloc),
            room: [MOST_ROOM; DEPTHS],
        }
    }

    // Returns a copy of a text.
    #[inline(always)]
    pub(crate) fn text(&mut self, text: &str) -> Result<String, AllocError>
        ensures { IfOk result (λ copy. string_bytes copy ≡ text.now) }
    {
        match self.texts.pop() {
            Some(mut copy) => {
                copy.clear();
                copy.push_str(text)?;
                Ok(copy)
            }
            None => String::from_str(self.alloc, text),
        }
    }

    // Returns an empty list for the items of an array at a depth.
    #[inline(always)]
    pub(crate) fn list(&mut self, depth: usize) -> Result<Vec<DecimalTree>, AllocError>
        ensures { IfOk result (λ list. list.items ≡ []) }
    {
        emptied_or_new(self.lists.pop(), self.alloc, self.room_at(depth))
    }

    // Returns an empty list for the members of an object at a depth.
    #[inline(always)]
    pub(crate) fn pairs(&mut self, depth: usize) -> Result<Vec<Member<DecimalTree>>, AllocError>
        ensures { IfOk result (λ pairs. pairs.items ≡ []) }
    {
        emptied_or_new(self.objects.pop(), self.alloc, self.room_at(depth))
    }

    // Returns for how many items or members a new array or object at a depth has room.
    #[inline(always)]
    fn room_at(&self, depth: usize) -> usize {
        self.room[depth % DEPTHS] as usize
    }

    // Says how many items or members an array or object at a depth had.
    #[inline(always)]
    pub(crate) fn had(&mut self, depth: usize, count: usize) {
        self.room[depth % DEPTHS] = count.min(MOST_ROOM as usize) as u8;
    }

    // Takes the room of a tree.
    pub(crate) fn take(&mut self, tree: DecimalTree) {
        self.put_aside(tree);
        'parts: for _ in 0..MOST_TREES {
            let Some(part) = self.parts.pop() else {
                return;
            };
            self.take_whole(part);
        }
        self.parts.clear();
    }

    // Takes the room of a tree, and puts those of its parts aside that have parts themselves.
    #[inline(always)]
    fn take_whole(&mut self, tree: DecimalTree) {
        match tree {
            DecimalTree::Text(text) => self.take_text(text),
            DecimalTree::Array(items) => self.take_items(items),
            DecimalTree::Object(members) => self.take_members(members),
            DecimalTree::Null | DecimalTree::Bool(_) | DecimalTree::Number(_) => {}
        }
    }

    // Takes the room of a text, if it has some.
    #[inline(always)]
    fn take_text(&mut self, text: String) {
        let room = text.capacity();
        if room != 0 && room <= MOST_BYTES && self.texts.len() < MOST_TEXTS {
            let _ = self.texts.push(text);
        }
    }

    // Takes the room of a part, or puts it aside if it has parts itself.
    #[inline(always)]
    fn take_part(&mut self, tree: DecimalTree) {
        match tree {
            DecimalTree::Text(text) => self.take_text(text),
            DecimalTree::Array(_) | DecimalTree::Object(_) => self.put_aside(tree),
            DecimalTree::Null | DecimalTree::Bool(_) | DecimalTree::Number(_) => {}
        }
    }

    // Puts a tree aside, to be taken apart.
    fn put_aside(&mut self, tree: DecimalTree) {
        if self.parts.len() < MOST_PARTS {
            let _ = self.parts.push(tree);
        }
    }

    // Takes the room of a list and of its items.
    fn take_items(&mut self, mut items: Vec<DecimalTree>) {
        'items: while let Some(item) = items.pop() {
            self.take_part(item);
        }
        if self.lists.len() < MOST_LISTS && items.capacity() <= MOST_ITEMS {
            let _ = self.lists.push(items);
        }
    }

    // Takes the room of a list, and of its names and values.
    fn take_members(&mut self, members: Members) {
        let mut pairs = members.into_pairs();
        'pairs: while let Some(Member { name, value }) = pairs.pop() {
            self.take_text(name);
            self.take_part(value);
        }
        if self.objects.len() < MOST_OBJECTS && pairs.capacity() <= MOST_MEMBERS {
            let _ = self.objects.push(pairs);
        }
    }
}

// Frees a tree. The items of long arrays are taken apart here, because a drop of each would be a call.
pub(crate) fn free(tree: DecimalTree) {
    if let DecimalTree::Array(mut items) = tree {
        'items: while let Some(item) = items.pop() {
            match item {
                DecimalTree::Array(items) => free_items(items),
                item => free_item(item),
            }
        }
    }
}

// Frees the items of an array.
fn free_items(mut items: Vec<DecimalTree>) {
    'items: while let Some(item) = items.pop() {
        free_item(item);
    }
}

// Frees an item.
#[inline(always)]
fn free_item(item: DecimalTree) {
    match item {
        DecimalTree::Null | DecimalTree::Bool(_) | DecimalTree::Number(_) => {}
        DecimalTree::Text(text) => drop(text),
        DecimalTree::Array(_) | DecimalTree::Object(_) => drop(item),
    }
}
