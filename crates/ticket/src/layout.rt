//! JSON laid out as the records of a tray, breadth first: the parts of a holder stand in one block behind it.

ghost use Rattle.std.specs.Prelude.{◌≤◌};

use crate::json::document::{Json, Kind, Node};
use std::alloc::{AllocError, Global};
use thiserror::Error;
use tray::records::{Record, Span};

// What a record cannot say: each of its numbers has two bytes.
#[derive(Clone, Copy, Debug, Error)]
pub(crate) enum Unsaid {
    #[error("a text begins past byte 65,535 of the tray text")]
    Place,
    #[error("a text has more than 65,535 bytes")]
    Length,
    #[error("the parts of an array or object begin past record 65,535")]
    First,
    #[error("an array or object has more than 65,535 parts")]
    Count,
}

#[derive(Clone, Copy, Debug, Error)]
pub(crate) enum LayoutError {
    #[error("no memory")]
    Memory(#[from(alloc)] AllocError),
    #[error(transparent)]
    Unsaid(Unsaid),
}

// The records of `json`, whose tray text is its texts.
pub(crate) fn lay_out(heap: Global, json: &Json) -> Result<Vec<Record>, LayoutError> {
    // The node of each record, in the order of the records.
    let mut order = Vec::new(heap);
    let mut records = Vec::new(heap);
    order.push(0usize)?;
    // No iterator goes over `order`, which grows meanwhile. There are no more records than nodes.
    for r in 0..json.nodes.len() {
        let Some(at) = order.get(r).copied() else {
            break;
        };
        let record = lay_one(json.nodes.as_slice(), at, &mut order)?;
        records.push(record)?;
    }
    Ok(records)
}

// The record of the node `at`, whose parts join the end of `order`.
fn lay_one(nodes: &[Node], at: usize, order: &mut Vec<usize>) -> Result<Record, LayoutError> {
    let Some(node) = nodes.get(at) else {
        return Ok(Record::Nil);
    };
    match node.kind {
        Kind::Nil => Ok(Record::Nil),
        Kind::Flag(b) => Ok(Record::Boolean(b)),
        Kind::Whole(n) => Ok(Record::Whole(n)),
        Kind::Text(part) => Ok(Record::Text(Span {
            first: short(part.place, Unsaid::Place)?,
            count: short(part.len, Unsaid::Length)?,
        })),
        Kind::Array(n) => Ok(Record::Array(lay_parts(nodes, at, n, 1, order)?)),
        Kind::Object(n) => Ok(Record::Object(lay_parts(nodes, at, n, 2, order)?)),
    }
}

// The span of a holder's parts, of which each item or entry has `each`.
fn lay_parts(
    nodes: &[Node],
    at: usize,
    n: usize,
    each: usize,
    order: &mut Vec<usize>,
) -> Result<Span, LayoutError>
    requires { each ≤ 2 }
{
    let first = order.len();
    let count = short(n, Unsaid::Count)?;
    join_parts(nodes, at, each * count as usize, order)?;
    Ok(Span {
        first: short(first, Unsaid::First)?,
        count,
    })
}

fn short(n: usize, what: Unsaid) -> Result<u16, LayoutError> {
    u16::try_from(n).or(Err(LayoutError::Unsaid(what)))
}

// The first `width` parts of the holder `at` join the end of `order`.
fn join_parts(
    nodes: &[Node],
    at: usize,
    width: usize,
    order: &mut Vec<usize>,
) -> Result<(), AllocError> {
    let mut part = at.saturating_add(1);
    for _ in 0..width {
        order.push(part)?;
        if let Some(node) = nodes.get(part) {
            part = node.next;
        }
    }
    Ok(())
}
