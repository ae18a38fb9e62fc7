//! Each law once.

use venue_session::{
    End, acts_close_law, acts_hall_law, acts_more_law, acts_push_law, acts_then_law, complete_law,
    exchange_law, headline_law,
};

#[test]
fn the_laws_are_called(rt: HostRuntime) {
    acts_push_law();
    acts_more_law();
    acts_then_law();
    acts_close_law();
    acts_hall_law();
    headline_law();
    complete_law();
    exchange_law();
    assert!(rt; End::Cut(1) != End::Done);
}
