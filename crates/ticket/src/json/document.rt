//! The nodes of a JSON text, in the order of its text, and how tokens become nodes.

use crate::faults::{Fault, JobError, Place};
use std::alloc::Global;

// A part of a buffer of texts, where the one of `nodes` is a part of a template.
#[derive(Clone, Copy)]
pub(crate) struct Part {
    pub(crate) place: usize,
    pub(crate) len: usize,
}

// A value. A text is a part of a side buffer. A holder tells its number of items or entries.
#[derive(Clone, Copy)]
pub(crate) enum Kind {
    Nil,
    Flag(bool),
    Whole(i64),
    Text(Part),
    Array(usize),
    Object(usize),
}

// A value, and the number of the first node behind it and all that it holds.
#[derive(Clone, Copy)]
pub(crate) struct Node {
    pub(crate) kind: Kind,
    pub(crate) next: usize,
}

// Node 0 is the whole; the parts of a holder follow it, those of an object as key, value, key, value.
// The list is flat, and no tree of boxes, so that a text nested to any depth is read, laid out and dropped without recursion.
#[derive(Drop)]
pub(crate) struct Json {
    pub(crate) nodes: Vec<Node>,
    pub(crate) texts: Vec<u8>,
}

impl Json {
    pub(crate) fn is_object(&self) -> bool {
        matches!(
            self.nodes.first(),
            Some(Node {
                kind: Kind::Object(_),
                ..
            })
        )
    }
}

#[derive(Clone, Copy, PartialEq)]
pub(crate) enum Holder {
    Array,
    Object,
}

impl Holder {
    // What may come behind its opening bracket.
    fn inside(self) -> Want {
        match self {
            Holder::Array => Want::ItemOrEnd,
            Holder::Object => Want::KeyOrEnd,
        }
    }

    // What may come behind a comma in it.
    fn after_comma(self) -> Want {
        match self {
            Holder::Array => Want::Value,
            Holder::Object => Want::Key,
        }
    }

    // One with so many items or entries.
    fn of(self, count: usize) -> Kind {
        match self {
            Holder::Array => Kind::Array(count),
            Holder::Object => Kind::Object(count),
        }
    }
}

#[derive(Clone, Copy)]
pub(crate) enum Token {
    Open(Holder),
    Close(Holder),
    Comma,
    Colon,
    Leaf(Kind),
}

// What may come next.
#[derive(Clone, Copy, PartialEq)]
pub(crate) enum Want {
    Value,
    ItemOrEnd,
    KeyOrEnd,
    Key,
    Colon,
    CommaOrEnd,
    Over,
}

impl Want {
    // What is amiss where another token comes.
    fn fault(self) -> Fault {
        match self {
            Want::Value | Want::ItemOrEnd => Fault::NoValue,
            Want::KeyOrEnd | Want::Key => Fault::NoKey,
            Want::Colon => Fault::NoColon,
            Want::CommaOrEnd => Fault::NoComma,
            Want::Over => Fault::LeftOver,
        }
    }
}

// An array or object that is not closed yet: its node, and how many items or entries it has so far.
#[derive(Clone, Copy)]
struct Open {
    node: usize,
    holder: Holder,
    count: usize,
}

#[derive(Drop)]
pub(crate) struct Tree {
    nodes: Vec<Node>,
    open: Vec<Open>,
}

impl Tree {
    pub(crate) fn new(heap: Global) -> Tree {
        Tree {
            nodes: Vec::new(heap),
            open: Vec::new(heap),
        }
    }

    pub(crate) fn into_nodes(self) -> Vec<Node> {
        let Tree { nodes, open } = self;
        drop(open);
        nodes
    }

    // Takes the token at the place `at`, and tells what may come next.
    pub(crate) fn place(&mut self, at: Place, want: Want, token: Token) -> Result<Want, JobError> {
        match (want, token) {
            (Want::Value | Want::ItemOrEnd, Token::Open(holder)) => self.begin(holder),
            (Want::Value | Want::ItemOrEnd, Token::Leaf(kind)) => self.leaf(kind),
            (Want::KeyOrEnd | Want::Key, Token::Leaf(Kind::Text(key))) => self.key(key),
            (Want::Colon, Token::Colon) => Ok(Want::Value),
            (Want::CommaOrEnd, Token::Comma) => Ok(self.after_comma()),
            (Want::ItemOrEnd | Want::CommaOrEnd, Token::Close(Holder::Array)) => self.close(
                at,
                want,
                Holder::Array,
            ),
            (Want::KeyOrEnd | Want::CommaOrEnd, Token::Close(Holder::Object)) => self.close(
                at,
                want,
                Holder::Object,
            ),
            _ => Err(at.bad(want.fault())),
        }
    }

    fn push(&mut self, kind: Kind) -> Result<usize, JobError> {
        let node = self.nodes.len();
        self.nodes.push(Node {
            kind,
            next: self.nodes.len() + 1,
        })?;
        Ok(node)
    }

    fn begin(&mut self, holder: Holder) -> Result<Want, JobError> {
        let node = self.push(holder.of(0))?;
        self.open.push(Open {
            node,
            holder,
            count: 0,
        })?;
        Ok(holder.inside())
    }

    fn leaf(&mut self, kind: Kind) -> Result<Want, JobError> {
        self.push(kind)?;
        Ok(self.counted())
    }

    fn key(&mut self, key: Part) -> Result<Want, JobError> {
        self.push(Kind::Text(key))?;
        Ok(Want::Colon)
    }

    // One more item or entry of the innermost holder is whole.
    fn counted(&mut self) -> Want {
        match self.open.last_mut() {
            Some(holder) => {
                holder.count = holder.count.saturating_add(1);
                Want::CommaOrEnd
            }
            None => Want::Over,
        }
    }

    fn after_comma(&self) -> Want {
        match self.open.last() {
            Some(open) => open.holder.after_comma(),
            None => Want::Over,
        }
    }

    fn close(&mut self, at: Place, want: Want, holder: Holder) -> Result<Want, JobError> {
        let open = match self.open.pop() {
            Some(open) if open.holder == holder => open,
            _ => return Err(at.bad(want.fault())),
        };
        let next = self.nodes.len();
        if let Some(node) = self.nodes.get_mut(open.node) {
            *node = Node {
                kind: holder.of(open.count),
                next,
            };
        }
        Ok(self.counted())
    }
}
