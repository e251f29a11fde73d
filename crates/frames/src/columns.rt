//! Where a visit stands in a table.
ghost use Rattle.std.specs.Prelude.{◌≡◌};
ghost use Rattle.meaning.specs.Frames.{column, row_number, is_last, ends_columns, is_col_first, is_col_last};

/// The column of the visit `index`, from 0; with no more than 0 columns, every visit has one of its own.
pub fn column(cols: i64, index: u16) -> u16
    ensures { result ≡ column cols index }
{
    match u64::try_from(cols) {
        Ok(0) | Err(_) => index,
        Ok(width) => (u64::from(index) % width) as u16,
    }
}

/// The row of the visit `index`, from 0; with no more than 0 columns there is but one.
pub fn row_number(cols: i64, index: u16) -> u16
    ensures { result ≡ row_number cols index }
{
    match u64::try_from(cols) {
        Ok(0) | Err(_) => 0,
        Ok(width) => (u64::from(index) / width) as u16,
    }
}

/// Whether the visit `index` is the last of `count`.
pub fn is_last(count: u16, index: u16) -> bool
    ensures { result ≡ is_last count index }
{
    u32::from(index) + 1 == u32::from(count)
}

/// Whether the visit `index` is the first of its row.
pub fn is_col_first(cols: i64, index: u16) -> bool
    ensures { result ≡ is_col_first cols index }
{
    column(cols, index) == 0
}

/// Whether the visit `index` of `count` is the last of its row; the last visit is, however short its row.
pub fn is_col_last(cols: i64, count: u16, index: u16) -> bool
    ensures { result ≡ is_col_last cols count index }
{
    i64::from(column(cols, index)) + 1 == cols || is_last(count, index)
}
