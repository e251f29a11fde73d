// Values, filters and rows as a template writes them.

/// A part of the source text.
#[derive(Clone, Copy, Debug, PartialEq, Eq)]
pub struct Part {
    pub place: usize,
    pub len: usize,
}

/// Entries of a table, one after another.
#[derive(Clone, Copy, Debug, PartialEq, Eq)]
pub struct Span {
    pub from: usize,
    pub count: usize,
}

/// Where a path begins: at a loop object, or at a name of the sheet.
#[derive(Clone, Copy, Debug, PartialEq, Eq)]
pub enum Head {
    Forloop,
    Tablerowloop,
    Name(usize),
}

/// `[number]`, or `.key` and `["key"]`.
#[derive(Clone, Copy, Debug, PartialEq, Eq)]
pub enum Step {
    Index(i64),
    Key(Part),
}

/// A literal, or a path with its steps, entries of the table of steps.
#[derive(Clone, Copy, Debug, PartialEq, Eq)]
pub enum Expr {
    Nil,
    Boolean(bool),
    Number(i64),
    Text(Part),
    Path(Head, Span),
}

/// A filter: its name, and its argument if it has one.
#[derive(Clone, Copy, Debug, PartialEq, Eq)]
pub struct Filter {
    pub name: Part,
    pub argument: Option<Expr>,
}

/// A value, and the filters that it goes through, entries of the table of filters.
#[derive(Clone, Copy, Debug, PartialEq, Eq)]
pub struct Chain {
    pub value: Expr,
    pub filters: Span,
}

/// What a loop goes over: a value, or the numbers from one to another.
#[derive(Clone, Copy, Debug, PartialEq, Eq)]
pub enum Row {
    Of(Expr),
    Range(Expr, Expr),
}

#[derive(Clone, Copy, Debug, PartialEq, Eq)]
pub enum Comparison {
    Equals,
    Differs,
    Less,
    More,
    AtMost,
    AtLeast,
    Contains,
}
