//! Reading walks.

ghost use Rattle.std.specs.Prelude.{◌≡◌, ℕ, ◌^◌, ◌<◌, IfOk, IsErrOf, length};
ghost use Rattle.line_forms.specs.Faults.{IsFaultLine};
ghost use Rattle.route_certificate.specs.Forms.{IsWalkText, IsWalkTextOver};

use crate::form_end::{Ending, read_end};
use crate::table::{FormFault, Table, WalkIn};
use crate::walk_lines::{next_from, read_steps};
use line_forms::after;
use std::alloc::Global;
use venue_types::List;

/// The walk over the table whose text this is, in one pass over the text.
///
/// A fault names the first line, from 1, such that no walk's text begins with the lines up to it. Over a table
/// without nodes there is no walk, so the fault is at line 1.
pub fn read_walk(alloc: Global, text: &[u8], table: &Table) -> Result<WalkIn, FormFault>
    requires { length text.now < 2 ^ 32 }
    ensures found { IfOk result (IsWalkText text.now table.now) }
    ensures few { IfOk result (λ walk. length walk.steps < 2 ^ 32) }
    ensures fault { (n : ℕ) → IsErrOf result (FormFault.Line n) → IsFaultLine (IsWalkTextOver table.now) text.now n }
{
    if table.nodes.is_empty() {
        return Err(FormFault::Line(1));
    }
    let Some(rest) = after(text, b"imdf-walk 1\n") else {
        return Err(FormFault::Line(1));
    };
    let Some((from, rest)) = next_from(table.nodes.len(), rest) else {
        return Err(FormFault::Line(2));
    };
    let (steps, rest) = read_steps(alloc, rest)?;
    let lines = 2 + steps.len() as u64;
    match read_end(rest) {
        Ending::Whole => Ok(WalkIn {
            from,
            steps: List::from_vec(steps),
        }),
        Ending::Missing => Err(FormFault::Line(lines + 1)),
        Ending::TextBehind => Err(FormFault::Line(lines + 2)),
    }
}
