//! A JSON text of nil, booleans, whole numbers, texts, arrays and objects, read into a flat list of nodes.
// A reader of its own, and not the crate `serde_json`: each fault is printed with its own words and its place.

use crate::cursor::Cursor;
use crate::faults::{Fault, JobError};
use crate::json::document::{Json, Tree, Want};
use std::alloc::Global;

pub(crate) mod document;
pub(crate) mod plain;
pub(crate) mod tokens;

// The object ahead, with nothing but blanks around it.
pub(crate) fn read(heap: Global, mut cursor: Cursor<'_>) -> Result<Json, JobError> {
    cursor.skip_blanks();
    let at = cursor.at();
    let json = read_value(heap, &mut cursor)?;
    if !json.is_object() {
        return Err(at.bad(Fault::NotObject));
    }
    cursor.end()?;
    Ok(json)
}

// The value ahead.
pub(crate) fn read_value(heap: Global, cursor: &mut Cursor<'_>) -> Result<Json, JobError> {
    let mut texts = Vec::new(heap);
    let mut tree = Tree::new(heap);
    let mut want = Want::Value;
    while want != Want::Over {
        cursor.skip_blanks();
        let at = cursor.at();
        let token = cursor.token(&mut texts)?;
        want = tree.place(at, want, token)?;
    }
    Ok(Json {
        nodes: tree.into_nodes(),
        texts,
    })
}
