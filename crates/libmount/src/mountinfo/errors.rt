// Why a row is refused.
ghost use Rattle.std.specs.Prelude.{◌++◌, Some, codes};
ghost use Rattle.libmount.specs.ErrorTexts.{parse_error_text};
ghost use Rattle.libmount.specs.Texts.{shown};

use crate::texts::Shown;
use std::fmt;

/// What is wrong with a row, in words.
#[derive(Debug, Drop)]
pub struct ParseRowError(pub Vec<u8>);

/// Why a row was not read.
#[derive(Debug, Drop)]
pub enum RowFault {
    Row(ParseRowError),
    NoMemory,
}

/// A refused row of a table.
#[derive(Debug, Drop)]
pub struct RowError {
    /// What is wrong with it.
    pub message: Vec<u8>,
    /// The row's number: rows that a line feed ends are numbered from 1, and a last one without
    /// has the number of line feeds before it.
    pub row_num: usize,
    /// The whole row without its line feed.
    pub row: Vec<u8>,
}

/// Why a parser gives no mount. After `NoMemory` it has ended.
#[derive(Debug, Drop)]
pub enum ParseError {
    Row(RowError),
    NoMemory,
}

impl fmt::Display for ParseRowError {
    ghost output = { λ e. Some (codes "Parse error: " ++ shown e.0.items) };

    #[tactic(auto, unfolding(crate::specs::Texts::shown))]
    fn fmt<W: fmt::Write>(&self, f: &mut fmt::Formatter<W>) -> fmt::Result {
        write!(f, "Parse error: {}", Shown(&self.0))
    }
}

impl fmt::Display for ParseError {
    ghost output = { λ e. Some (parse_error_text e) };

    #[tactic(auto, unfolding(crate::specs::Texts::shown))]
    fn fmt<W: fmt::Write>(&self, f: &mut fmt::Formatter<W>) -> fmt::Result {
        match self {
            ParseError::Row(error) => write!(
                f,
                "Parse error at line {}: {}\n{}",
                error.row_num,
                Shown(&error.message),
                Shown(&error.row)
            ),
            ParseError::NoMemory => f.write_str("out of memory"),
        }
    }
}
