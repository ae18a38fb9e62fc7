// Each geometry with what is seen of it: worked out with Python (json, decimal with ROUND_HALF_UP) from the rules.
use super::{Kind, Seen};

pub(super) static TABLE: [(Kind, &[u8], Seen); 57] = [
    (
        Kind::Point,
        b"{\"type\":\"Point\",\"coordinates\":[10.5,50.25]}",
        (Some((10500000000, 50250000000)), false, false, 1, 0),
    ),
    (
        Kind::Point,
        b"{\"type\":\"Point\",\"coordinates\":[10,50,3]}",
        (Some((10000000000, 50000000000)), false, false, 1, 0),
    ),
    (
        Kind::Point,
        b"{\"type\":\"Point\",\"coordinates\":[-180,-90]}",
        (Some((-180000000000, -90000000000)), false, false, 1, 0),
    ),
    (
        Kind::Point,
        b"{\"type\":\"Point\",\"coordinates\":[50,90.0000000005]}",
        (None, true, false, 1, 0),
    ),
    (
        Kind::Point,
        b"{\"type\":\"Point\",\"coordinates\":[100,20]}",
        (Some((100000000000, 20000000000)), false, false, 1, 0),
    ),
    (
        Kind::Point,
        b"{\"type\":\"Point\",\"coordinates\":[20,100]}",
        (None, true, false, 1, 0),
    ),
    (
        Kind::Point,
        b"{\"type\":\"Point\",\"coordinates\":[1]}",
        (None, true, false, 1, 0),
    ),
    (
        Kind::Point,
        b"{\"type\":\"Point\",\"coordinates\":[]}",
        (None, true, false, 1, 0),
    ),
    (
        Kind::Point,
        b"{\"type\":\"Point\",\"coordinates\":null}",
        (None, true, false, 1, 0),
    ),
    (
        Kind::Point,
        b"{\"type\":\"Point\",\"coordinates\":7}",
        (None, true, false, 1, 0),
    ),
    (
        Kind::Point,
        b"{\"type\":\"Point\",\"coordinates\":[\"1\",2]}",
        (None, true, false, 1, 0),
    ),
    (
        Kind::Point,
        b"{\"type\":\"Point\",\"coordinates\":[1,null]}",
        (None, true, false, 1, 0),
    ),
    (
        Kind::Point,
        b"{\"type\":\"Point\",\"coordinates\":[180.0000000004,0]}",
        (Some((180000000000, 0)), false, false, 1, 0),
    ),
    (
        Kind::Point,
        b"{\"type\":\"Point\",\"coordinates\":[180.0000000005,0]}",
        (None, true, false, 1, 0),
    ),
    (
        Kind::Point,
        b"{\"type\":\"Point\"}",
        (None, true, false, 1, 0),
    ),
    (
        Kind::Point,
        b"{\"type\":\"Point\",\"coordinates\":[3,4],\"coordinates\":[5,6]}",
        (Some((5000000000, 6000000000)), false, false, 1, 0),
    ),
    (
        Kind::Line,
        b"{\"type\":\"LineString\",\"coordinates\":[[0,0],[1,2]]}",
        (Some((1000000000, 2000000000)), false, false, 2, 0),
    ),
    (
        Kind::Line,
        b"{\"type\":\"LineString\",\"coordinates\":[[0,0]]}",
        (None, false, true, 1, 0),
    ),
    (
        Kind::Line,
        b"{\"type\":\"LineString\",\"coordinates\":[]}",
        (None, false, true, 0, 0),
    ),
    (
        Kind::Line,
        b"{\"type\":\"LineString\",\"coordinates\":5}",
        (None, false, true, 0, 0),
    ),
    (
        Kind::Line,
        b"{\"type\":\"LineString\",\"coordinates\":[[0,0],[0,91],[1,1]]}",
        (None, true, false, 3, 0),
    ),
    (
        Kind::Line,
        b"{\"type\":\"LineString\",\"coordinates\":[[0,0],3]}",
        (None, true, false, 2, 0),
    ),
    (
        Kind::Line,
        b"{\"type\":\"LineString\",\"coordinates\":[[0,0],[1,1,9]]}",
        (Some((1000000000, 1000000000)), false, false, 2, 0),
    ),
    (
        Kind::Line,
        b"{\"type\":\"LineString\",\"coordinates\":[[200,0]]}",
        (None, true, true, 1, 0),
    ),
    (
        Kind::Line,
        b"{\"type\":\"LineString\",\"coordinates\":[0,0]}",
        (None, true, false, 2, 0),
    ),
    (
        Kind::Line,
        b"{\"type\":\"LineString\"}",
        (None, false, true, 0, 0),
    ),
    (
        Kind::Shape,
        b"{\"type\":\"Polygon\",\"coordinates\":[[[0,0],[4,0],[4,4],[0,0]]]}",
        (Some((0, 0)), false, false, 4, 4),
    ),
    (
        Kind::Shape,
        b"{\"type\":\"Polygon\",\"coordinates\":[[[0,0],[4,0],[4,4],[0,0]],[[1,1],[2,1],[2,2],[1,1]]]}",
        (Some((1000000000, 1000000000)), false, false, 8, 4),
    ),
    (
        Kind::Shape,
        b"{\"type\":\"Polygon\",\"coordinates\":[]}",
        (None, false, true, 0, 0),
    ),
    (
        Kind::Shape,
        b"{\"type\":\"Polygon\",\"coordinates\":[[]]}",
        (None, false, true, 0, 0),
    ),
    (
        Kind::Shape,
        b"{\"type\":\"Polygon\",\"coordinates\":5}",
        (None, false, true, 0, 0),
    ),
    (
        Kind::Shape,
        b"{\"type\":\"Polygon\",\"coordinates\":[5]}",
        (None, false, true, 0, 0),
    ),
    (
        Kind::Shape,
        b"{\"type\":\"Polygon\",\"coordinates\":[[5,6,7,8]]}",
        (None, true, false, 4, 4),
    ),
    (
        Kind::Shape,
        b"{\"type\":\"Polygon\",\"coordinates\":[[[0,0],[4,0],[0,0]]]}",
        (None, false, true, 3, 3),
    ),
    (
        Kind::Shape,
        b"{\"type\":\"Polygon\",\"coordinates\":[[[0,0],[4,0],[4,4],[0,1]]]}",
        (None, false, true, 4, 4),
    ),
    (
        Kind::Shape,
        b"{\"type\":\"Polygon\",\"coordinates\":[[[0,0],[4,0],[4,4],[0.0000000004,0]]]}",
        (Some((0, 0)), false, false, 4, 4),
    ),
    (
        Kind::Shape,
        b"{\"type\":\"Polygon\",\"coordinates\":[[[0,0],[4,0],[4,4],[0.0000000006,0]]]}",
        (None, false, true, 4, 4),
    ),
    (
        Kind::Shape,
        b"{\"type\":\"Polygon\",\"coordinates\":[[[0,0],[4,0],[4,91],[0,0]]]}",
        (None, true, false, 4, 4),
    ),
    (
        Kind::Shape,
        b"{\"type\":\"Polygon\",\"coordinates\":[[[0,0],[4,91],[4,4],[1,1]]]}",
        (None, true, true, 4, 4),
    ),
    (
        Kind::Shape,
        b"{\"type\":\"Polygon\",\"coordinates\":[[[0,91],[4,0],[4,4],[1,1]]]}",
        (None, true, false, 4, 4),
    ),
    (
        Kind::Shape,
        b"{\"type\":\"Polygon\",\"coordinates\":[[[0,0],[4,0],[4,4],[0,0]],[[1,1],[2,1],[1,1]]]}",
        (None, false, true, 7, 4),
    ),
    (
        Kind::Shape,
        b"{\"type\":\"Polygon\",\"coordinates\":[[[0,0],[4,0],[4,4],[0,0]],7]}",
        (None, false, true, 4, 4),
    ),
    (
        Kind::Shape,
        b"{\"type\":\"Polygon\",\"coordinates\":[[[0,0],[4,0],[4,4],[0,0]],[[0,0],[4,0],[4,4],[2,2],[0,0]]]}",
        (Some((0, 0)), false, false, 9, 5),
    ),
    (
        Kind::Shape,
        b"{\"type\":\"Polygon\",\"coordinates\":[[[0,0,1],[4,0,2],[4,4,3],[0,0,4]]]}",
        (Some((0, 0)), false, false, 4, 4),
    ),
    (
        Kind::Shape,
        b"{\"type\":\"Polygon\"}",
        (None, false, true, 0, 0),
    ),
    (
        Kind::Shape,
        b"{\"type\":\"MultiPolygon\",\"coordinates\":[[[[0,0],[4,0],[4,4],[0,0]]]]}",
        (Some((0, 0)), false, false, 4, 4),
    ),
    (
        Kind::Shape,
        b"{\"type\":\"MultiPolygon\",\"coordinates\":[[[[0,0],[4,0],[4,4],[0,0]],[[1,1],[2,1],[2,2],[1,1]]],[[[8,8],[9,8],[9,9],[8,8]]]]}",
        (Some((8000000000, 8000000000)), false, false, 12, 4),
    ),
    (
        Kind::Shape,
        b"{\"type\":\"MultiPolygon\",\"coordinates\":[]}",
        (None, false, true, 0, 0),
    ),
    (
        Kind::Shape,
        b"{\"type\":\"MultiPolygon\",\"coordinates\":[[]]}",
        (None, false, true, 0, 0),
    ),
    (
        Kind::Shape,
        b"{\"type\":\"MultiPolygon\",\"coordinates\":[[[[0,0],[4,0],[4,4],[0,0]]],[]]}",
        (None, false, true, 4, 4),
    ),
    (
        Kind::Shape,
        b"{\"type\":\"MultiPolygon\",\"coordinates\":5}",
        (None, false, true, 0, 0),
    ),
    (
        Kind::Shape,
        b"{\"type\":\"MultiPolygon\",\"coordinates\":[5]}",
        (None, false, true, 0, 0),
    ),
    (
        Kind::Shape,
        b"{\"type\":\"MultiPolygon\",\"coordinates\":[[[[0,0],[4,0],[4,4],[0,0]]],9]}",
        (None, false, true, 4, 4),
    ),
    (
        Kind::Shape,
        b"{\"type\":\"MultiPolygon\",\"coordinates\":[[[[0,0],[4,0],[4,4],[3,3]]]]}",
        (None, false, true, 4, 4),
    ),
    (
        Kind::Shape,
        b"{\"type\":\"MultiPolygon\",\"coordinates\":[[[[0,0],[1,1]]],[[[0,0],[4,0],[4,4],[0,0]]]]}",
        (None, false, true, 6, 4),
    ),
    (
        Kind::Shape,
        b"{\"type\":\"MultiPolygon\",\"coordinates\":[[[0,0],[4,0],[4,4],[0,0]]]}",
        (None, true, true, 8, 2),
    ),
    (
        Kind::Shape,
        b"{\"type\":\"MultiPolygon\"}",
        (None, false, true, 0, 0),
    ),
];
