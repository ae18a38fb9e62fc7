//! The graph of the station and ways through it, whose numbers were worked out by hand: a metre is 100 centimetres. A feature is named
//! by the last digits of its identifier.

mod graph_rows;
mod graphs;
mod made_reaches;
mod made_venues;
mod nearest;
mod new_links;
mod reach_rows;
mod reaches;
mod search_rows;
mod searches;
mod stepwise;
