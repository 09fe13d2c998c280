//! Values of columns.

ghost use Rattle.std.specs.Prelude.{◌≡◌, Decides};
ghost use Rattle.hg_base.specs.Values.{is_text, kind_of, number_of};

use crate::text::Text;

/// What a column holds in each row.
#[derive(Clone, Copy, PartialEq, Eq)]
pub enum Column {
    Number,
    Text,
}

/// What a row holds in one column.
#[derive(Drop)]
pub enum Value {
    Number(i64),
    Text(Text),
}

impl Value {
    pub fn kind(&self) -> Column
        ensures { result ≡ kind_of self.now }
    {
        match self {
            Value::Number(_) => Column::Number,
            Value::Text(_) => Column::Text,
        }
    }

    pub fn is_text(&self) -> bool
        ensures { result ≡ is_text self.now }
    {
        match self {
            Value::Number(_) => false,
            Value::Text(_) => true,
        }
    }

    // The number, and 0 of a text.
    pub(crate) fn number(&self) -> i64
        ensures { result ≡ number_of self.now }
    {
        match self {
            Value::Number(n) => *n,
            Value::Text(_) => 0,
        }
    }

    pub fn same(&self, other: &Value) -> bool
        ensures { Decides result (self.now ≡ other.now) }
    {
        match (self, other) {
            (Value::Number(n), Value::Number(m)) => n == m,
            (Value::Text(a), Value::Text(b)) => a.as_bytes() == b.as_bytes(),
            _ => false,
        }
    }

    /// The same value. No memory is taken.
    pub fn copy(&self) -> Value
        ensures { result ≡ self.now }
    {
        match self {
            Value::Number(n) => Value::Number(*n),
            Value::Text(text) => Value::Text(text.copy()),
        }
    }
}
