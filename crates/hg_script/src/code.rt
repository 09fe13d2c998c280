//! Why a record is refused.

use std::error::Error;
use std::fmt;

/// The rule that a record breaks. Where it breaks several, the first of these.
#[derive(Clone, Copy, Debug, PartialEq, Eq)]
pub enum Code {
    Count,
    Word,
    Fields,
    Number,
    Range,
    Name,
    Columns,
    Value,
    Order,
}

impl fmt::Display for Code {
    ghost use Rattle.std.specs.Prelude.{Some};
    ghost use Rattle.hg_script.specs.Codes.{code_text};

    ghost output = { λ code. Some (code_text code) };

    fn fmt<W: fmt::Write>(&self, f: &mut fmt::Formatter<W>) -> fmt::Result {
        let name = match self {
            Code::Count => "Count",
            Code::Word => "Word",
            Code::Fields => "Fields",
            Code::Number => "Number",
            Code::Range => "Range",
            Code::Name => "Name",
            Code::Columns => "Columns",
            Code::Value => "Value",
            Code::Order => "Order",
        };
        f.write_str(name)
    }
}

impl Error for Code {}
