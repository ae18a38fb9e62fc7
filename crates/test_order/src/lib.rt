//! Tests of the best order of stops, and the tables of costs that they and a benchmark make.
#![tactic(auto)]

mod tables;

// Tables by hand, and made ones against all orders.
#[cfg(test)]
mod by_hand;
#[cfg(test)]
mod every_order;

pub use tables::table;
