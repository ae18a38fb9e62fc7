//! The files of a folder.

ghost use Rattle.std.specs.Prelude.{◌≡◌, ◌≢◌, ◌<◌, IfSome, IfNone, slice_get};
ghost use Rattle.venue_types.specs.declared.folder_file.File.{File as AFile};
ghost use Rattle.venue_types.specs.FolderFiles.{file_number, file_name, type_name, geometry_of, file_among, file_of_type, all_files, feature_files};

/// A file of a folder. All but the first are named for the type of their features, `address.geojson` and so on.
#[derive(Clone, Copy, Debug, PartialEq, Eq)]
pub enum File {
    /// `manifest.json`
    Manifest,
    Address,
    Amenity,
    Anchor,
    Building,
    Detail,
    Fixture,
    Footprint,
    Geofence,
    Kiosk,
    Level,
    Occupant,
    Opening,
    Relationship,
    Section,
    Unit,
    Venue,
}

/// What the geometry of a file's features is (RFC 7946, section 3.1).
#[derive(Clone, Copy, Debug, PartialEq, Eq)]
pub enum Geometry {
    Null,
    Point,
    /// A LineString.
    Line,
    /// A Polygon or a MultiPolygon.
    Shape,
    /// Anything, which is passed over.
    Unjudged,
}

/// All files, in the order of their numbers.
pub static ALL_FILES: [File; 17] = [
    File::Manifest,
    File::Address,
    File::Amenity,
    File::Anchor,
    File::Building,
    File::Detail,
    File::Fixture,
    File::Footprint,
    File::Geofence,
    File::Kiosk,
    File::Level,
    File::Occupant,
    File::Opening,
    File::Relationship,
    File::Section,
    File::Unit,
    File::Venue,
];

impl File {
    /// The number that stands in findings, from 0.
    pub fn number(self) -> u8
        ensures { result ≡ file_number self }
    {
        match self {
            File::Manifest => 0,
            File::Address => 1,
            File::Amenity => 2,
            File::Anchor => 3,
            File::Building => 4,
            File::Detail => 5,
            File::Fixture => 6,
            File::Footprint => 7,
            File::Geofence => 8,
            File::Kiosk => 9,
            File::Level => 10,
            File::Occupant => 11,
            File::Opening => 12,
            File::Relationship => 13,
            File::Section => 14,
            File::Unit => 15,
            File::Venue => 16,
        }
    }

    /// The file of this number, if there is one.
    pub fn from_number(number: u8) -> Option<File>
        ensures at { result ≡ slice_get all_files number }
        ensures some { IfSome result (λ file. file_number file ≡ number) }
        ensures none { IfNone result ((file : AFile) → file_number file ≢ number) }
    {
        ALL_FILES.get(number as usize).copied()
    }

    /// The file's name in its folder.
    pub fn name(self) -> &'static str
        ensures { result.now ≡ file_name self }
    {
        match self {
            File::Manifest => "manifest.json",
            File::Address => "address.geojson",
            File::Amenity => "amenity.geojson",
            File::Anchor => "anchor.geojson",
            File::Building => "building.geojson",
            File::Detail => "detail.geojson",
            File::Fixture => "fixture.geojson",
            File::Footprint => "footprint.geojson",
            File::Geofence => "geofence.geojson",
            File::Kiosk => "kiosk.geojson",
            File::Level => "level.geojson",
            File::Occupant => "occupant.geojson",
            File::Opening => "opening.geojson",
            File::Relationship => "relationship.geojson",
            File::Section => "section.geojson",
            File::Unit => "unit.geojson",
            File::Venue => "venue.geojson",
        }
    }

    /// The file's name without its extension, which is the `feature_type` of its features.
    pub fn type_name(self) -> &'static [u8]
        ensures { result.now ≡ type_name self }
    {
        match self {
            File::Manifest => b"manifest",
            File::Address => b"address",
            File::Amenity => b"amenity",
            File::Anchor => b"anchor",
            File::Building => b"building",
            File::Detail => b"detail",
            File::Fixture => b"fixture",
            File::Footprint => b"footprint",
            File::Geofence => b"geofence",
            File::Kiosk => b"kiosk",
            File::Level => b"level",
            File::Occupant => b"occupant",
            File::Opening => b"opening",
            File::Relationship => b"relationship",
            File::Section => b"section",
            File::Unit => b"unit",
            File::Venue => b"venue",
        }
    }

    /// What the geometry of its features is.
    pub fn geometry(self) -> Geometry
        ensures { result ≡ geometry_of self }
    {
        match self {
            File::Address | File::Building | File::Occupant => Geometry::Null,
            File::Amenity | File::Anchor => Geometry::Point,
            File::Opening => Geometry::Line,
            File::Fixture | File::Footprint | File::Level | File::Unit | File::Venue => {
                Geometry::Shape
            }
            File::Manifest
            | File::Detail
            | File::Geofence
            | File::Kiosk
            | File::Relationship
            | File::Section => Geometry::Unjudged,
        }
    }
}

/// A file is known by its number, and there are seventeen.
pub fn file_numbers_law()
    ensures one { (one other : AFile) → file_number one ≡ file_number other → one ≡ other }
    ensures few { (file : AFile) → file_number file < 17 }
{}

/// The files of features, in the order of their numbers: all but the first.
pub fn feature_files() -> &'static [File]
    ensures { result.now ≡ feature_files }
{
    &ALL_FILES[1..]
}

// The first of the files whose type has this name.
fn find(files: &[File], name: &[u8]) -> Option<File>
    ensures { result ≡ file_among files.now name.now }
{
    for file in files {
        if file.type_name() == name {
            return Some(*file);
        }
    }
    None
}

/// The file of the feature type of this name.
#[tactic(auto, unfolding(crate::specs::FolderFiles::file_of_type))]
pub fn file_of_type(name: &[u8]) -> Option<File>
    ensures { result ≡ file_of_type name.now }
{
    find(feature_files(), name)
}
