//! How large a venue is.

ghost use Rattle.std.specs.Prelude.{◌≡◌, ◌++◌, IfOk, codes, length, string_bytes};
ghost use Rattle.std.specs.Fmt.{decimal};
ghost use Rattle.feature_rows.specs.Rows.{feature_count};
ghost use Rattle.line_forms.specs.Lines.{line};
ghost use Rattle.version_board.specs.Links.{links};
ghost use Rattle.version_board.specs.Nodes.{nodes};
ghost use Rattle.venue_commands.specs.Costs.{size_lines};

use feature_rows::feature_count;
use std::alloc::{AllocError, Global};
use venue_types::OutOfMemory;
use version_board::{Venue, every_venue};

fn features_of(venue: &Venue) -> usize
    ensures { result ≡ feature_count venue.now.features }
{
    every_venue(venue);
    feature_count(venue.features())
}

fn nodes_of(venue: &Venue) -> u32
    ensures { result ≡ length (nodes venue.now.features venue.now.settings) }
{
    venue.graph().nodes()
}

fn links_of(venue: &Venue) -> usize
    ensures { result ≡ length (links venue.now.features venue.now.settings) }
{
    venue.graph().link_count()
}

// The lines of three numbers.
fn size_lines(
    alloc: Global,
    features: usize,
    nodes: u32,
    links: usize,
) -> Result<String, AllocError>
    ensures { IfOk result (λ text. string_bytes text ≡ line (codes "features " ++ decimal features) ++ line (codes "nodes " ++ decimal nodes) ++ line (codes "links " ++ decimal links)) }
{
    format!(in alloc; "features {features}\nnodes {nodes}\nlinks {links}\n")
}

/// The lines that tell how many features, nodes and links a venue has.
pub(crate) fn size_of_venue(alloc: Global, venue: &Venue) -> Result<String, OutOfMemory>
    ensures { IfOk result (λ text. string_bytes text ≡ size_lines venue.now) }
{
    let text = size_lines(alloc, features_of(venue), nodes_of(venue), links_of(venue))?;
    Ok(text)
}
