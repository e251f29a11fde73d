//! What drawers hold, line by line.

ghost use Rattle.std.specs.Prelude.{◌≡◌, ◌++◌, IfOk, OnOk, length};
ghost use Rattle.std.specs.List.{flat_map, range_with_len};
ghost use Rattle.drawers.specs.Shown.{held_of, shows};
ghost use Rattle.sheet.specs.Sheets.{lists};
ghost use Rattle.ticket.specs.Contents.{held_words, record_words, variable_at, counter_at, cycle_at, contents};

use crate::quote::push_quoted;
use drawers::kept::Kept;
use drawers::things::Drawers;
use held::value::Value;
use sheet::sheet::Sheet;
use std::alloc::{AllocError, Global};

// A line for each variable, each counter, each cycle name and the changed text.
pub(crate) fn contents(
    heap: Global,
    sheet: &Sheet<'_>,
    drawers: &Drawers,
) -> Result<Vec<u8>, AllocError>
    ensures { IfOk result (λ v. v.items ≡ contents (lists sheet.now) (shows drawers.now)) }
{
    let mut lines = Vec::new(heap);
    push_variables(heap, &mut lines, sheet, drawers)?;
    push_counters(heap, &mut lines, sheet, drawers)?;
    push_cycles(heap, &mut lines, sheet, drawers)?;
    lines.extend_from_slice(b"changed ")?;
    push_quoted(&mut lines, drawers.changed())?;
    lines.extend_from_slice(b"\n")?;
    Ok(lines)
}

#[tactic(auto, using(crate::proofs::Numbered::one_more))]
fn push_variables(
    heap: Global,
    lines: &mut Vec<u8>,
    sheet: &Sheet<'_>,
    drawers: &Drawers,
) -> Result<(), AllocError>
    ensures { OnOk result (lines.new.items ≡ lines.old.items ++ flat_map (variable_at (lists sheet.now) (shows drawers.now)) (range_with_len 0 (length (lists sheet.now).names))) }
{
    for n in 0..sheet.name_count() {
        push_variable(heap, lines, sheet, drawers, n)?;
    }
    Ok(())
}

// The line of a name's variable, where it has one.
fn push_variable(
    heap: Global,
    lines: &mut Vec<u8>,
    sheet: &Sheet<'_>,
    drawers: &Drawers,
    n: usize,
) -> Result<(), AllocError>
    ensures { OnOk result (lines.new.items ≡ lines.old.items ++ variable_at (lists sheet.now) (shows drawers.now) n) }
{
    let (Some(name), Some(value)) = (sheet.name(n), drawers.variable(n)) else {
        return Ok(());
    };
    lines.extend_from_slice(b"var ")?;
    lines.extend_from_slice(name)?;
    lines.extend_from_slice(b" ")?;
    push_value(heap, lines, value)?;
    lines.extend_from_slice(b"\n")
}

// A value as JSON; an array, object or pair as `#` and the number of its record.
fn push_value(heap: Global, lines: &mut Vec<u8>, value: &Kept) -> Result<(), AllocError>
    ensures { OnOk result (lines.new.items ≡ lines.old.items ++ held_words (held_of value.now)) }
{
    match value {
        Value::Nil => lines.extend_from_slice(b"null"),
        Value::Boolean(true) => lines.extend_from_slice(b"true"),
        Value::Boolean(false) => lines.extend_from_slice(b"false"),
        Value::Whole(n) => {
            let number = format!(in heap; "{n}")?;
            lines.extend_from_slice(number.as_bytes())
        }
        Value::Text(text) => push_quoted(lines, text.as_slice()),
        Value::Array(i) | Value::Object(i) | Value::Pair(i) => push_record(heap, lines, *i),
    }
}

fn push_record(heap: Global, lines: &mut Vec<u8>, i: usize) -> Result<(), AllocError>
    ensures { OnOk result (lines.new.items ≡ lines.old.items ++ record_words i) }
{
    let number = format!(in heap; "#{i}")?;
    lines.extend_from_slice(number.as_bytes())
}

#[tactic(auto, using(crate::proofs::Numbered::one_more))]
fn push_counters(
    heap: Global,
    lines: &mut Vec<u8>,
    sheet: &Sheet<'_>,
    drawers: &Drawers,
) -> Result<(), AllocError>
    ensures { OnOk result (lines.new.items ≡ lines.old.items ++ flat_map (counter_at (lists sheet.now) (shows drawers.now)) (range_with_len 0 (length (lists sheet.now).names))) }
{
    for n in 0..sheet.name_count() {
        push_counter(heap, lines, sheet, drawers, n)?;
    }
    Ok(())
}

// The line of a name's counter, where it has one.
fn push_counter(
    heap: Global,
    lines: &mut Vec<u8>,
    sheet: &Sheet<'_>,
    drawers: &Drawers,
    n: usize,
) -> Result<(), AllocError>
    ensures { OnOk result (lines.new.items ≡ lines.old.items ++ counter_at (lists sheet.now) (shows drawers.now) n) }
{
    let (Some(name), Some(count)) = (sheet.name(n), drawers.counter(n)) else {
        return Ok(());
    };
    lines.extend_from_slice(b"counter ")?;
    lines.extend_from_slice(name)?;
    let number = format!(in heap; " {count}\n")?;
    lines.extend_from_slice(number.as_bytes())
}

#[tactic(auto, using(crate::proofs::Numbered::one_more))]
fn push_cycles(
    heap: Global,
    lines: &mut Vec<u8>,
    sheet: &Sheet<'_>,
    drawers: &Drawers,
) -> Result<(), AllocError>
    ensures { OnOk result (lines.new.items ≡ lines.old.items ++ flat_map (cycle_at (lists sheet.now) (shows drawers.now)) (range_with_len 0 (length (lists sheet.now).cycles))) }
{
    for n in 0..sheet.cycle_count() {
        push_cycle(heap, lines, sheet, drawers, n)?;
    }
    Ok(())
}

// The line of a cycle name.
fn push_cycle(
    heap: Global,
    lines: &mut Vec<u8>,
    sheet: &Sheet<'_>,
    drawers: &Drawers,
    n: usize,
) -> Result<(), AllocError>
    ensures { OnOk result (lines.new.items ≡ lines.old.items ++ cycle_at (lists sheet.now) (shows drawers.now) n) }
{
    let Some(name) = sheet.cycle_name(n) else {
        return Ok(());
    };
    lines.extend_from_slice(b"cycle ")?;
    push_quoted(lines, name)?;
    let position = drawers.position(n);
    let number = format!(in heap; " {position}\n")?;
    lines.extend_from_slice(number.as_bytes())
}
