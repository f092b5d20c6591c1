//! Texts of messages.
ghost use Rattle.std.specs.Prelude.{◌≡◌, [], IfOk, None};
ghost use Rattle.port_base.specs.Names.{name_fault};

use p9_wire::text::P9String;
use port_base::sink::NoMemory;
use std::alloc::Global;

// The empty text.
pub(crate) fn no_text(alloc: Global) -> Result<P9String, NoMemory>
    ensures { IfOk result (λ s. s ≡ []) }
{
    P9String::new(alloc, b"").map_err(|_| NoMemory)
}

// A name without a fault as a text.
pub(crate) fn text_of(alloc: Global, name: &[u8]) -> Result<P9String, NoMemory>
    requires { name_fault name.now ≡ None }
    ensures { IfOk result (λ s. s ≡ name.now) }
{
    P9String::new(alloc, name).map_err(|_| NoMemory)
}
