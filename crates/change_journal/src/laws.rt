//! Laws of journals.

ghost use Rattle.std.specs.Prelude.{◌≡◌, ◌≤◌, ℕ, List, [], ◌∷◌, ◌++◌, All, length, true, false};
ghost use Rattle.venue_ports.specs.Moments.{Moment, Leaves, LeavesOnly, Now};
ghost use Rattle.venue_hall.specs.Records.{Logged};
ghost use Rattle.change_journal.specs.Appends.{Append, IsAppend, AreAppends, IsJournalWith, kept_records, loose_records, moments_after};
ghost use Rattle.change_journal.specs.Reading.{records_in};
ghost use Rattle.change_journal.specs.Places.{AreRecordsTo, IsClosedAt, IsDamagedAt, IsRecordAt};
ghost use Rattle.change_journal.specs.States.{IsNew, IsReady, IsShut};
ghost use Rattle.change_journal.specs.Texts.{IsClosed, IsJournal, IsRecord, journal_text, record_text};

/// No bytes are a journal of two lists of records.
pub fn one_journal()
    ensures { (records others : List Logged) (bytes : List ℕ) → IsJournal records bytes → IsJournal others bytes → records ≡ others }
{}

/// The text of a list with one more record, and the records read back from a text.
pub fn appended_law()
    ensures text { (records : List Logged) (entry : Logged) → journal_text (records ++ entry ∷ []) ≡ journal_text records ++ record_text entry }
    ensures read { (records : List Logged) (rest : List ℕ) → All IsRecord records → records_in (length records) (journal_text records ++ rest) ≡ records }
{}

/// Bytes that are damaged are no journal, and are damaged at one place. Records in front of a place and what stands there: a gate that isn't
/// open makes a journal of them, a whole record more of them, and an open gate without a whole record damage.
pub fn damage_law()
    ensures none { (place : ℕ) (records : List Logged) (bytes : List ℕ) → IsDamagedAt place bytes → IsJournal records bytes → ⊥ }
    ensures one { (place other : ℕ) (bytes : List ℕ) → IsDamagedAt place bytes → IsDamagedAt other bytes → place ≡ other }
    ensures begins { (bytes : List ℕ) → AreRecordsTo 0 [] bytes }
    ensures closed { (place : ℕ) (records : List Logged) (bytes : List ℕ) → AreRecordsTo place records bytes → IsClosedAt place bytes → IsClosed records bytes }
    ensures longer { (place next : ℕ) (records : List Logged) (entry : Logged) (bytes : List ℕ) → AreRecordsTo place records bytes
        → IsRecordAt place next entry bytes → AreRecordsTo next (records ++ entry ∷ []) bytes }
    ensures read { (place : ℕ) (records : List Logged) (bytes : List ℕ) → AreRecordsTo place records bytes → records_in (length records) bytes ≡ records }
{}

/// Where a disk was synced, at most one byte is a new journal, and the text of records with a gate behind it that isn't open is a
/// journal of these, whose gate is shut. From either on the law of what is kept begins.
pub fn begin_law()
    ensures new { (bytes : List ℕ) → length bytes ≤ 1 → IsReady [] 0 false (record { reads = bytes; synced = bytes; loose = [] }) }
    ensures shut { (records : List Logged) (bytes : List ℕ) → IsClosed records bytes
        → IsReady records (length (journal_text records)) true (record { reads = bytes; synced = bytes; loose = [] }) }
    ensures starts_new { (gate : ℕ) (m : Moment) → IsNew [] gate m → (image : List ℕ) → Leaves m image → IsJournalWith [] [] image }
    ensures starts_shut { (records : List Logged) (gate : ℕ) (m : Moment) → IsShut records gate m
        → (image : List ℕ) → Leaves m image → IsJournalWith records [] image }
{}

/// What follows for a restart, along any list of appends: whatever a stop leaves is a journal of the records of those that
/// answered Ok, in order, with at most one more at its end, of an append that failed behind the last Ok, or that hasn't ended.
pub fn kept_law()
    ensures between { (records failed : List Logged) (old : List Moment) (appends : List Append)
        → Now (λ m. (image : List ℕ) → Leaves m image → IsJournalWith records failed image) old → AreAppends records old appends
        → Now (λ m. (image : List ℕ) → Leaves m image → IsJournalWith (kept_records records appends) (loose_records failed appends) image) (moments_after old appends) }
    ensures within { (records failed : List Logged) (old : List Moment) (appends : List Append) (last : Append)
        → Now (λ m. (image : List ℕ) → Leaves m image → IsJournalWith records failed image) old → AreAppends records old appends
        → IsAppend (kept_records records appends) (moments_after old appends) last
        → LeavesOnly (IsJournalWith (kept_records records appends) (loose_records failed appends ++ last.entry ∷ [])) (moments_after old appends) last.moments }
{}
