//! Each law once.

use venue_history::{
    Act, Closing, Entry, act_law, answer_law, beginning_law, change_law, closed_law, entry_law,
    legal_law, number_law, refusal_law, version_law,
};
use venue_types::{FeatureId, ProfileSet};

#[test]
fn the_laws_are_called(rt: HostRuntime) {
    number_law();
    legal_law();
    beginning_law();
    entry_law();
    version_law();
    act_law();
    closed_law();
    answer_law();
    change_law();
    refusal_law();
    let entry = Entry {
        worker: 1,
        act: Act::Closed(Closing {
            feature: FeatureId(7),
            profiles: ProfileSet(2),
        }),
    };
    assert!(rt;
        matches!(
            entry.act,
            Act::Closed(Closing {
                feature: FeatureId(7),
                profiles: ProfileSet(2)
            })
        )
    );
}
