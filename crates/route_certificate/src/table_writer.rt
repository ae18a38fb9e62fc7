//! Writing the lines of a table.

ghost use Rattle.std.specs.Prelude.{◌≡◌, ◌^◌, ◌<◌, ◌++◌, OnOk};
ghost use Rattle.std.specs.List.{flat_map};
ghost use Rattle.venue_types.specs.declared.feature_id.FeatureId.{FeatureId};
ghost use Rattle.route_certificate.specs.declared.table.TableLink.{TableLink};
ghost use Rattle.route_certificate.specs.Forms.{node_line, link_line};

use crate::table::TableLink;
use line_forms::push_number;
use std::alloc::AllocError;
use venue_types::FeatureId;

fn push_node(out: &mut Vec<u8>, id: FeatureId) -> Result<(), AllocError>
    ensures { OnOk result (out.new.items ≡ out.old.items ++ node_line id) }
{
    out.extend_from_slice(b"node ")?;
    out.extend_from_slice(&id.write())?;
    out.push(b'\n')?;
    Ok(())
}

fn push_link(out: &mut Vec<u8>, link: &TableLink) -> Result<(), AllocError>
    ensures { OnOk result (out.new.items ≡ out.old.items ++ link_line link.now) }
{
    out.extend_from_slice(b"link ")?;
    push_number(out, link.from as u64)?;
    out.push(b' ')?;
    push_number(out, link.to as u64)?;
    out.push(b' ')?;
    push_number(out, link.cost as u64)?;
    out.push(b' ')?;
    out.extend_from_slice(&link.via.write())?;
    out.push(b'\n')?;
    Ok(())
}

/// Adds a line for each node.
pub(crate) fn push_nodes(out: &mut Vec<u8>, nodes: &[FeatureId]) -> Result<(), AllocError>
    ensures { OnOk result (out.new.items ≡ out.old.items ++ flat_map node_line nodes.now) }
{
    for id in nodes {
        push_node(out, *id)?;
    }
    Ok(())
}

/// Adds a line for each link.
pub(crate) fn push_links(out: &mut Vec<u8>, links: &[TableLink]) -> Result<(), AllocError>
    ensures { OnOk result (out.new.items ≡ out.old.items ++ flat_map link_line links.now) }
{
    for link in links {
        push_link(out, link)?;
    }
    Ok(())
}
