//! The table of properties.

ghost use Rattle.std.specs.Prelude.{◌≡◌};
ghost use Rattle.imdf_schema.specs.Properties.{property_number, property_name, properties};

use crate::forms::Form;
use venue_types::File;

/// A property that is read, by its name in the file.
#[derive(Clone, Copy, Debug, PartialEq, Eq)]
pub enum Property {
    AddressId,
    BuildingIds,
    LevelId,
    UnitId,
    UnitIds,
    AnchorId,
    Origin,
    Intermediary,
    Destination,
    Category,
    Restriction,
    Accessibility,
    AccessControl,
    Door,
    DisplayPoint,
    Name,
}

/// The features that a property names.
#[derive(Clone, Copy, Debug, PartialEq, Eq)]
pub enum ReferenceTarget {
    Nothing,
    Address,
    Anchor,
    Building,
    Level,
    Unit,
    /// Features of the type that the reference gives.
    ByReference,
}

/// A property of the features of a file.
#[derive(Clone, Copy, Debug, PartialEq, Eq)]
pub struct PropertyRow {
    pub property: Property,
    pub file: File,
    pub form: Form,
    pub names: ReferenceTarget,
}

// The rows of the table, each as a property, a file, a form and what it names.
macro_rules! rows {
    ($($property:ident $file:ident $form:ident $names:ident;)*) => {
        [$(PropertyRow {
            property: Property::$property,
            file: File::$file,
            form: Form::$form,
            names: ReferenceTarget::$names,
        }),*]
    };
}

static PROPERTIES: [PropertyRow; 31] = rows! {
    AddressId Venue IdOrNull Address;
    AddressId Building IdOrNull Address;
    AddressId Level IdOrNull Address;
    AddressId Anchor IdOrNull Address;
    AddressId Amenity IdOrNull Address;
    BuildingIds Level IdsOrNull Building;
    BuildingIds Footprint IdsOrNull Building;
    LevelId Unit Id Level;
    LevelId Opening Id Level;
    LevelId Fixture IdOrNull Level;
    LevelId Kiosk IdOrNull Level;
    LevelId Detail IdOrNull Level;
    UnitId Anchor Id Unit;
    UnitIds Amenity Ids Unit;
    AnchorId Occupant Id Anchor;
    AnchorId Fixture IdOrNull Anchor;
    AnchorId Kiosk IdOrNull Anchor;
    Origin Relationship Reference ByReference;
    Intermediary Relationship References ByReference;
    Destination Relationship Reference ByReference;
    Category Unit Text Nothing;
    Category Amenity Text Nothing;
    Category Relationship Text Nothing;
    Restriction Unit TextOrNull Nothing;
    Accessibility Opening TextsOrNull Nothing;
    AccessControl Opening TextsOrNull Nothing;
    Door Opening Door Nothing;
    DisplayPoint Unit DisplayPoint Nothing;
    Name Unit Name Nothing;
    Name Amenity Name Nothing;
    Name Occupant Name Nothing;
};

/// All properties of all files.
pub fn properties() -> &'static [PropertyRow]
    ensures { result.now ≡ properties }
{
    &PROPERTIES
}

impl Property {
    /// The number that stands in findings, from 1.
    pub fn number(self) -> u8
        ensures { result ≡ property_number self }
    {
        match self {
            Property::AddressId => 1,
            Property::BuildingIds => 2,
            Property::LevelId => 3,
            Property::UnitId => 4,
            Property::UnitIds => 5,
            Property::AnchorId => 6,
            Property::Origin => 7,
            Property::Intermediary => 8,
            Property::Destination => 9,
            Property::Category => 10,
            Property::Restriction => 11,
            Property::Accessibility => 12,
            Property::AccessControl => 13,
            Property::Door => 14,
            Property::DisplayPoint => 15,
            Property::Name => 16,
        }
    }

    /// The name of the member.
    pub fn name(self) -> &'static [u8]
        ensures { result.now ≡ property_name self }
    {
        match self {
            Property::AddressId => b"address_id",
            Property::BuildingIds => b"building_ids",
            Property::LevelId => b"level_id",
            Property::UnitId => b"unit_id",
            Property::UnitIds => b"unit_ids",
            Property::AnchorId => b"anchor_id",
            Property::Origin => b"origin",
            Property::Intermediary => b"intermediary",
            Property::Destination => b"destination",
            Property::Category => b"category",
            Property::Restriction => b"restriction",
            Property::Accessibility => b"accessibility",
            Property::AccessControl => b"access_control",
            Property::Door => b"door",
            Property::DisplayPoint => b"display_point",
            Property::Name => b"name",
        }
    }
}
