// The fields of loop objects.
ghost use Rattle.std.specs.Prelude.{◌≡◌};
ghost use Rattle.frames.specs.Fields.{number, truth, common_met, table_met};

use crate::columns::{column, is_col_first, is_col_last, is_last, row_number};
use crate::met::Met;
use held::value::Value;
use tray::parts::same_text;

fn number<'a>(n: u32) -> Met<'a>
    ensures { result ≡ number n }
{
    Met::Value(Value::Whole(i64::from(n)))
}

fn truth<'a>(holds: bool) -> Met<'a>
    ensures { result ≡ truth holds }
{
    Met::Value(Value::Boolean(holds))
}

// A field that both kinds of loop object have, for the visit `index` of `count`.
pub(crate) fn common_field<'a>(count: u16, index: u16, key: &[u8]) -> Option<Met<'a>>
    ensures { result ≡ common_met count index key.now }
{
    let behind = count.saturating_sub(index);
    if same_text(key, b"length") {
        Some(number(u32::from(count)))
    } else if same_text(key, b"index0") {
        Some(number(u32::from(index)))
    } else if same_text(key, b"index") {
        Some(number(u32::from(index) + 1))
    } else if same_text(key, b"rindex0") {
        Some(number(u32::from(behind.saturating_sub(1))))
    } else if same_text(key, b"rindex") {
        Some(number(u32::from(behind)))
    } else if same_text(key, b"first") {
        Some(truth(index == 0))
    } else if same_text(key, b"last") {
        Some(truth(is_last(count, index)))
    } else {
        None
    }
}

// A field that only the object of a table has.
pub(crate) fn table_field<'a>(cols: i64, count: u16, index: u16, key: &[u8]) -> Option<Met<'a>>
    ensures { result ≡ table_met cols count index key.now }
{
    if same_text(key, b"col0") {
        Some(number(u32::from(column(cols, index))))
    } else if same_text(key, b"col") {
        Some(number(u32::from(column(cols, index)) + 1))
    } else if same_text(key, b"row") {
        Some(number(u32::from(row_number(cols, index)) + 1))
    } else if same_text(key, b"col_first") {
        Some(truth(is_col_first(cols, index)))
    } else if same_text(key, b"col_last") {
        Some(truth(is_col_last(cols, count, index)))
    } else {
        None
    }
}
