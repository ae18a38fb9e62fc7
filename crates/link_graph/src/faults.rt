//! Why there is no graph.

ghost use Rattle.std.specs.Prelude.{◌≡◌, ◌≢◌, [], IfOk};
ghost use Rattle.venue_nodes.specs.Figures.{judged_positions};
ghost use Rattle.venue_nodes.specs.FeatureRows.{HaveOwnIds};
ghost use Rattle.venue_nodes.specs.Sound.{AreSound};
ghost use Rattle.plane_exact.specs.Figure.{AllClose};
ghost use Rattle.link_graph.specs.declared.faults.GraphFault.TheVariants.{OutOfMemory as NoMemory};

use std::alloc::Global;
use venue_nodes::{Crowding, crowding_by, limit_findings};
use venue_types::{Features, Finding, List, OutOfMemory, Settings};

/// Why there is no graph of a venue.
#[derive(Clone, Copy, Debug, PartialEq, Eq)]
pub enum GraphFault {
    /// The unit of this index in its file is the first that can be walked through and has more than 4,096 members.
    Members(u32),
    /// No unit has so many, and yet the squares of their numbers of members sum to more than 20,000,000.
    Links,
    /// These keep their limits, one walks round walls, and there are more than 400,000 nodes.
    Nodes,
    /// There are not, and yet the squares, each times the number of its unit's edges, sum to more than 2,000,000,000 over all walkable
    /// units but moving walkways.
    Sight,
    /// Memory ran out.
    OutOfMemory,
}

impl GraphFault {
    ghost use Rattle.std.specs.Prelude.{ℕ, IfSome, Some};
    ghost use Rattle.venue_types.specs.declared.features.Features.{Features as AFeatures};
    ghost use Rattle.venue_types.specs.declared.settings.Settings.{Settings as ASettings};
    ghost use Rattle.rule_reports.specs.Reports.{IsReport};
    ghost use Rattle.venue_nodes.specs.Crowds.{Crowds};
    ghost use Rattle.venue_nodes.specs.Limits.{BreaksLimit};
    ghost use Rattle.venue_nodes.specs.TouchCounts.{TouchMany};
    ghost use Rattle.link_graph.specs.Faults.{IsFault};

    /// That a limit is passed.
    pub(crate) fn of(crowding: Crowding) -> GraphFault
        ensures { (features : AFeatures) (settings : ASettings) → Crowds features settings (Some crowding) → IsFault features settings result }
    {
        match crowding {
            Crowding::Members(k) => GraphFault::Members(k),
            Crowding::Squares => GraphFault::Links,
            Crowding::Nodes => GraphFault::Nodes,
            Crowding::Sight => GraphFault::Sight,
        }
    }

    /// That a limit is passed in a folder in which the phases before find nothing, where more openings touch its first units than any
    /// venue may have: so many as are counted.
    pub fn of_counts(
        alloc: Global,
        features: &Features,
        settings: &Settings,
        counts: &[usize],
    ) -> GraphFault
        requires sound { AreSound features.now }
        requires own_ids { HaveOwnIds features.now }
        requires close { AllClose (judged_positions features.now) }
        ensures { TouchMany settings.now.border_tol features.now.openings features.now.units counts.now → IsFault features.now settings.now result }
    {
        match crowding_by(alloc, features, settings, counts) {
            Ok(crowding) => GraphFault::of(crowding),
            Err(OutOfMemory) => GraphFault::OutOfMemory,
        }
    }

    /// What is found in the folder: the limit that is passed.
    pub fn findings(self, alloc: Global) -> Result<List<Finding>, OutOfMemory>
        ensures some { IfOk result (λ findings. findings ≢ []) }
        ensures all { IfOk result (λ findings. (features : AFeatures) (settings : ASettings) → IsFault features settings self → IsReport (BreaksLimit features settings) findings) }
    {
        match self.crowding() {
            Some(crowding) => {
                let findings = limit_findings(alloc, crowding)?;
                Ok(findings)
            }
            None => Err(OutOfMemory),
        }
    }

    // The limit that is passed, if one is.
    fn crowding(self) -> Option<Crowding>
        ensures { IfSome result (λ crowding. (features : AFeatures) (settings : ASettings) → IsFault features settings self → Crowds features settings (Some crowding)) }
    {
        match self {
            GraphFault::Members(k) => Some(Crowding::Members(k)),
            GraphFault::Links => Some(Crowding::Squares),
            GraphFault::Nodes => Some(Crowding::Nodes),
            GraphFault::Sight => Some(Crowding::Sight),
            GraphFault::OutOfMemory => None,
        }
    }
}

impl From<OutOfMemory> for GraphFault {
    ghost from_gives = { λ _ fault. fault ≡ NoMemory };

    fn from(_error: OutOfMemory) -> GraphFault {
        GraphFault::OutOfMemory
    }
}
