//! What the nearest of several nodes are, for the links of whatever layer.

ghost use Rattle.std.specs.Prelude.{◌≡◌, ℕ, List, Contains, Option};
ghost use Rattle.walk_laws.specs.Walks.{CostsAtLeast};
ghost use Rattle.nearest_laws.specs.Nearest.{Row, row_nodes, row_costs, last_cost, HasRow, AreShown, IsNearest};

use walk_laws::{LinkFamily, PotentialKind};

/// Two answers to one question have the same nodes and costs, in the same order, and tell the same nodes as reached.
pub fn one_nearest_law<F: LinkFamily, P: PotentialKind>()
    ensures nodes { (whole : F.Ground) (nodes from limit : ℕ) (candidates : List ℕ) (rows rows' : List (Row F.Link)) (listed listed' : List P.Potential) (reached reached' : Option (List ℕ))
        → IsNearest F.view P.view (F.has whole) nodes from candidates limit rows listed reached
        → IsNearest F.view P.view (F.has whole) nodes from candidates limit rows' listed' reached' → row_nodes rows ≡ row_nodes rows' }
    ensures costs { (whole : F.Ground) (nodes from limit : ℕ) (candidates : List ℕ) (rows rows' : List (Row F.Link)) (listed listed' : List P.Potential) (reached reached' : Option (List ℕ))
        → IsNearest F.view P.view (F.has whole) nodes from candidates limit rows listed reached
        → IsNearest F.view P.view (F.has whole) nodes from candidates limit rows' listed' reached' → row_costs rows ≡ row_costs rows' }
    ensures reached { (whole : F.Ground) (nodes from limit : ℕ) (candidates : List ℕ) (rows rows' : List (Row F.Link)) (listed listed' : List P.Potential) (reached reached' : Option (List ℕ))
        → IsNearest F.view P.view (F.has whole) nodes from candidates limit rows listed reached
        → IsNearest F.view P.view (F.has whole) nodes from candidates limit rows' listed' reached' → reached ≡ reached' }
{}

/// Where the potentials hold over all links, no candidate without a row costs less than the last row, and none with a row less than
/// its row tells.
pub fn nearest_law<F: LinkFamily, P: PotentialKind>()
    ensures others { (whole : F.Ground) (nodes from n : ℕ) (candidates : List ℕ) (rows : List (Row F.Link)) (listed : List P.Potential)
        → AreShown F.view P.view (F.has whole) nodes from candidates rows listed → Contains candidates n → ¬ HasRow rows n
        → CostsAtLeast F.view (F.has whole) from n (last_cost rows) }
    ensures rows { (whole : F.Ground) (nodes from : ℕ) (candidates : List ℕ) (rows : List (Row F.Link)) (listed : List P.Potential) (row : Row F.Link)
        → AreShown F.view P.view (F.has whole) nodes from candidates rows listed → Contains rows row
        → CostsAtLeast F.view (F.has whole) from row.node row.cost }
{}
