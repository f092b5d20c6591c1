// Why a row is refused, before its message is written.
ghost use Rattle.std.specs.Prelude.{◌≡◌, IfOk};
ghost use Rattle.libmount.specs.Reading.{bad_number, more_fields};
ghost use Rattle.libmount.specs.Views.{Tells};

use crate::mountinfo::errors::{ParseRowError, RowFault};
use crate::mountinfo::numbers::NumberFault;
use port_base::buffer::push;
use port_base::quoting::quoted;
use port_base::sink::NoMemory;
use std::alloc::Global;

/// Why a row is refused.
#[derive(Clone, Copy, Debug)]
pub(crate) enum Refusal<'a> {
    MoreFields,
    Number(&'a [u8], NumberFault),
    NoMemory,
}

#[tactic(auto, unfolding(crate::specs::Reading::bad_number))]
fn bad_number(alloc: Global, field: &[u8], fault: NumberFault) -> Result<Vec<u8>, NoMemory>
    ensures { IfOk result (λ message. message.items ≡ bad_number field.now fault) }
{
    let field = quoted(alloc, field)?;
    let mut message = Vec::new(alloc);
    push(&mut message, b"Cannot parse integer ")?;
    push(&mut message, &field)?;
    push(&mut message, b": ")?;
    push(&mut message, fault.text().as_bytes())?;
    Ok(message)
}

fn more_fields(alloc: Global) -> Result<Vec<u8>, NoMemory>
    ensures { IfOk result (λ message. message.items ≡ more_fields) }
{
    Vec::from_slice(alloc, b"Expected more fields").map_err(|_| NoMemory)
}

impl Refusal<'_> {
    /// The refusal in words.
    pub(crate) fn tell(self, alloc: Global) -> RowFault
        ensures { Tells self.entry result }
    {
        let message = match self {
            Refusal::MoreFields => more_fields(alloc),
            Refusal::Number(field, fault) => bad_number(alloc, field, fault),
            Refusal::NoMemory => Err(NoMemory),
        };
        match message {
            Ok(message) => RowFault::Row(ParseRowError(message)),
            Err(_) => RowFault::NoMemory,
        }
    }
}
