//! Reading and writing tables.

ghost use Rattle.std.specs.Prelude.{◌≡◌, ℕ, ◌^◌, ◌<◌, IfOk, IsErrOf, length};
ghost use Rattle.line_forms.specs.Faults.{IsFaultLine};
ghost use Rattle.route_certificate.specs.Forms.{IsTable, IsTableText, FitsTable, table_text};

use crate::form_end::{Ending, read_end};
use crate::table::{FormFault, Table};
use crate::table_lines::{read_links, read_nodes};
use crate::table_writer::{push_links, push_nodes};
use line_forms::after;
use std::alloc::Global;
use venue_types::{Bytes, List, OutOfMemory};

/// The table whose text this is, in one pass over the text. It takes 16 bytes a node and 32 a link, and while it
/// reads up to twice as much.
///
/// A fault names the first line, from 1, such that no table's text begins with the lines up to it.
pub fn read_table(alloc: Global, text: &[u8]) -> Result<Table, FormFault>
    requires { length text.now < 2 ^ 32 }
    ensures found { IfOk result (IsTable text.now) }
    ensures few { IfOk result (λ table. length table.links < 2 ^ 32) }
    ensures fault { (n : ℕ) → IsErrOf result (FormFault.Line n) → IsFaultLine IsTableText text.now n }
{
    let Some(rest) = after(text, b"imdf-links 1\n") else {
        return Err(FormFault::Line(1));
    };
    let (nodes, rest) = read_nodes(alloc, rest)?;
    let (links, rest) = read_links(alloc, nodes.len() as u32, rest)?;
    let lines = 1 + nodes.len() as u64 + links.len() as u64;
    match read_end(rest) {
        Ending::Whole => Ok(Table {
            nodes: List::from_vec(nodes),
            links: List::from_vec(links),
        }),
        Ending::Missing => Err(FormFault::Line(lines + 1)),
        Ending::TextBehind => Err(FormFault::Line(lines + 2)),
    }
}

/// The one text of a table, which reads back to it.
pub fn write_table(alloc: Global, table: &Table) -> Result<Bytes, OutOfMemory>
    requires { FitsTable table.now }
    ensures spelled { IfOk result (λ bytes. bytes ≡ table_text table.now) }
    ensures reads_back { IfOk result (λ bytes. IsTable bytes table.now) }
{
    let nodes = table.nodes.as_slice();
    let links = table.links.as_slice();
    let mut out = Vec::new(alloc);
    out.extend_from_slice(b"imdf-links 1\n")?;
    push_nodes(&mut out, nodes)?;
    push_links(&mut out, links)?;
    out.extend_from_slice(b"end\n")?;
    Ok(Bytes::from_vec(out))
}
