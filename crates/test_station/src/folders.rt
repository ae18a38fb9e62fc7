//! Two folders that tests publish beside the station.

use crate::changes::Edit;
use crate::numbers::{OPENING, RELATIONSHIP, UNIT};

/// The station with a column that reaches out of its level.
pub static TALL: [Edit; 1] = [(UNIT, "@0307", "(62,22),(60,22)", "(62,61),(60,61)")];

/// The station without its lift and the lift's doors.
pub static NO_LIFT: [Edit; 5] = [
    (
        OPENING,
        "",
        "{'type':'Feature','id':'@0101','feature_type':'opening','geometry':{'type':'LineString','coordinates':[(21,40),(23,40)]},'properties':{'level_id':'@0010'}},\n",
        "",
    ),
    (
        OPENING,
        "",
        "{'type':'Feature','id':'@0201','feature_type':'opening','geometry':{'type':'LineString','coordinates':[(21,40),(23,40)]},'properties':{'level_id':'@0011'}},\n",
        "",
    ),
    (
        RELATIONSHIP,
        "",
        "{'type':'Feature','id':'@0021','feature_type':'relationship','geometry':null,'properties':{'category':'elevator','direction':'undirected','origin':{'id':'@0301','feature_type':'unit'},'destination':{'id':'@0401','feature_type':'unit'}}},\n",
        "",
    ),
    (
        UNIT,
        "",
        "{'type':'Feature','id':'@0301','feature_type':'unit','geometry':{'type':'Polygon','coordinates':[[(20,40),(24,40),(24,44),(20,44),(20,40)]]},'properties':{'level_id':'@0010','category':'elevator'}},\n",
        "",
    ),
    (
        UNIT,
        "",
        "{'type':'Feature','id':'@0401','feature_type':'unit','geometry':{'type':'Polygon','coordinates':[[(20,40),(24,40),(24,44),(20,44),(20,40)]]},'properties':{'level_id':'@0011','category':'elevator'}},\n",
        "",
    ),
];
