//! Asking a code for its sides.
ghost use Rattle.std.specs.Prelude.{◌≡◌, map, IfOk};
ghost use Rattle.terms.specs.Rows.{side_of};

use code::Code;
use std::alloc::{AllocError, Global};
use terms::row::Side;

/// The side of each qubit.
pub(crate) fn sides<C: Code>(heap: Global, code: &C) -> Result<Vec<Side>, AllocError>
    ensures { IfOk result (λ v. v.items ≡ map side_of (C.meaning code.now).sides) }
{
    (0..code.qubits())
        .filter_map(|q| code.side(q))
        .collect(heap)
}
