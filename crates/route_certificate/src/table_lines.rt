//! The lines of a table.

ghost use Rattle.std.specs.Prelude.{◌≡◌, ◌<◌, ◌≤◌, ◌++◌, IfSome, IfNone, IfOk, length};
ghost use Rattle.venue_types.specs.declared.feature_id.FeatureId.{FeatureId};
ghost use Rattle.venue_types.specs.Identifier.{identifier_text};
ghost use Rattle.line_forms.specs.Lines.{line};
ghost use Rattle.line_forms.specs.Fronts.{HasNone, IsFront};
ghost use Rattle.route_certificate.specs.declared.table.TableLink.{TableLink};
ghost use Rattle.route_certificate.specs.Forms.{FitsId, FitsLink, node_line, link_line};
ghost use Rattle.route_certificate.specs.Fronts.{IsNodeFront};

use crate::table::TableLink;
use line_forms::{after, number_word};
use std::alloc::{AllocError, Global};
use venue_types::FeatureId;

// The most nodes that a table has.
const MAX_NODES: usize = 400_000;

// The most that a link costs, in centimetres.
const MAX_COST: u64 = 6_700_000;

// An identifier that ends its line, and what follows the line.
fn id_line(text: &[u8]) -> Option<(FeatureId, &[u8])>
    ensures found { IfSome result (λ x. (text.now ≡ line (identifier_text x.0) ++ x.1.now) × FitsId x.0) }
    ensures none { IfNone result (HasNone (λ id. line (identifier_text id)) FitsId text.now) }
    ensures shorter { IfSome result (λ x. length x.1.now < length text.now) }
{
    if text.len() < 36 {
        return None;
    }
    let (front, rest) = text.split_at(36);
    let id = FeatureId::read_canonical(front)?;
    let rest = after(rest, b"\n")?;
    Some((id, rest))
}

fn next_node(text: &[u8]) -> Option<(FeatureId, &[u8])>
    ensures found { IfSome result (λ x. (text.now ≡ node_line x.0 ++ x.1.now) × FitsId x.0) }
    ensures none { IfNone result (HasNone node_line FitsId text.now) }
    ensures shorter { IfSome result (λ x. length x.1.now < length text.now) }
{
    let rest = after(text, b"node ")?;
    let (id, rest) = id_line(rest)?;
    Some((id, rest))
}

fn next_link(nodes: u32, text: &[u8]) -> Option<(TableLink, &[u8])>
    requires { nodes ≤ 400000 }
    ensures found { IfSome result (λ x. (text.now ≡ link_line x.0 ++ x.1.now) × FitsLink nodes x.0) }
    ensures none { IfNone result (HasNone link_line (FitsLink nodes) text.now) }
    ensures shorter { IfSome result (λ x. length x.1.now < length text.now) }
{
    let rest = after(text, b"link ")?;
    let (from, rest) = number_word(rest)?;
    let (to, rest) = number_word(rest)?;
    let (cost, rest) = number_word(rest)?;
    let (via, rest) = id_line(rest)?;
    if from < nodes as u64 && to < nodes as u64 && cost <= MAX_COST {
        let link = TableLink {
            from: from as u32,
            to: to as u32,
            cost: cost as u32,
            via,
        };
        Some((link, rest))
    } else {
        None
    }
}

/// The nodes at the front, as many as there are and a table may have, and what follows them.
pub(crate) fn read_nodes(alloc: Global, text: &[u8]) -> Result<(Vec<FeatureId>, &[u8]), AllocError>
    ensures { IfOk result (λ x. IsNodeFront x.0.items text.now x.1.now) }
{
    let mut nodes = Vec::new(alloc);
    let mut rest = text;
    while nodes.len() < MAX_NODES {
        match next_node(rest) {
            Some((id, more)) => {
                nodes.push(id)?;
                rest = more;
            }
            None => return Ok((nodes, rest)),
        }
    }
    Ok((nodes, rest))
}

/// The links at the front, as many as there are, and what follows them.
pub(crate) fn read_links(
    alloc: Global,
    nodes: u32,
    text: &[u8],
) -> Result<(Vec<TableLink>, &[u8]), AllocError>
    requires { nodes ≤ 400000 }
    ensures { IfOk result (λ x. IsFront link_line (FitsLink nodes) x.0.items text.now x.1.now) }
{
    let mut links = Vec::new(alloc);
    let mut rest = text;
    while let Some((link, more)) = next_link(nodes, rest) {
        links.push(link)?;
        rest = more;
    }
    Ok((links, rest))
}
