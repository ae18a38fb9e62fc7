//! When two lists of files are the same files, and how reads that were asked for follow each other.

ghost use Rattle.std.specs.Prelude.{List, [], ◌++◌, Option};
ghost use Rattle.venue_ports.specs.Asked.{AskedFile, HaveAsked};
ghost use Rattle.venue_ports.specs.Alike.{HoldSame, ReadAlike};
ghost use Rattle.venue_ports.specs.Files.{StoredFile};

/// To hold the same is an equivalence, and then every answer to a read fits both lists or neither.
pub fn same_files_law()
    ensures itself { (files : List StoredFile) → HoldSame files files }
    ensures turned { (one other : List StoredFile) → HoldSame one other → HoldSame other one }
    ensures joined { (one middle other : List StoredFile) → HoldSame one middle → HoldSame middle other → HoldSame one other }
    ensures read_alike { (one other : List StoredFile) → HoldSame one other → ReadAlike one other }
{}

/// Between a moment and itself nothing was asked for, and what was asked for in two spans is that of the first and then that of the second.
pub fn asked_law()
    ensures nothing { (told : Option (List AskedFile)) → HaveAsked [] told told }
    ensures joined { (first second : List AskedFile) (before between now : Option (List AskedFile)) → HaveAsked first before between → HaveAsked second between now
        → HaveAsked (first ++ second) before now }
{}
