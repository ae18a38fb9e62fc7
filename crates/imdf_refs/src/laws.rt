//! What is so in a folder in which the second phase finds nothing.

ghost use Rattle.venue_types.specs.declared.features.Features.{Features};
ghost use Rattle.feature_rows.specs.Rows.{HaveOwnIds};
ghost use Rattle.imdf_refs.specs.Laws.{FindsNothing, NameTheirTypes, OpeningsHaveLevels, UnitsHaveLevels, AnchorsHaveUnits, AmenitiesHaveUnits, OccupantsHaveAnchors};

/// No two features have the same identifier.
pub fn own_ids_law()
    ensures { (features : Features) → FindsNothing features → HaveOwnIds features }
{}

/// Each reference that has to name a feature of a type names one.
pub fn types_law()
    ensures { (features : Features) → FindsNothing features → NameTheirTypes features }
{}

/// Each opening's level is there, and is the only one of its identifier.
pub fn opening_level_law()
    ensures { (features : Features) → FindsNothing features → OpeningsHaveLevels features }
{}

/// Each unit's level is there, and is the only one of its identifier.
pub fn unit_level_law()
    ensures { (features : Features) → FindsNothing features → UnitsHaveLevels features }
{}

/// Each anchor's unit is there, and is the only one of its identifier.
pub fn anchor_unit_law()
    ensures { (features : Features) → FindsNothing features → AnchorsHaveUnits features }
{}

/// Each of an amenity's units is there, and is the only one of its identifier.
pub fn amenity_unit_law()
    ensures { (features : Features) → FindsNothing features → AmenitiesHaveUnits features }
{}

/// Each occupant's anchor is there, and is the only one of its identifier.
pub fn occupant_anchor_law()
    ensures { (features : Features) → FindsNothing features → OccupantsHaveAnchors features }
{}
