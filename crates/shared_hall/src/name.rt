//! The name of a hall.

use std::marker::Brand;
use std::sync::ledger::Ledger;

/// Which hall it is, in proofs alone: whoever opens one picks these values.
pub trait HallName: Ledger {
    ghost use Rattle.std.specs.Prelude.{ℕ, List, Option};
    ghost use Rattle.logbook.specs.Pages.{Book};
    ghost use Rattle.venue_hall.specs.Entry.{Entry};
    ghost use Rattle.venue_hall.specs.Shelves.{Shelf};

    /// The book in which its lists of entries have their numbers.
    ghost book: { Book };

    /// The entries with which it was opened.
    ghost opening: { List Entry };

    /// The keys of its staff.
    ghost keys: { List (List ℕ) };

    /// How often the folders had failed then.
    ghost folder_count: { ℕ };

    /// How often its log had failed then.
    ghost log_count: { ℕ };

    /// The folders below its base, where they are told.
    ghost folder_files: { Option Shelf };

    /// How many connections it is to serve.
    ghost connections: { ℕ };

    /// How many connections its doors had accepted before.
    ghost accepted: { ℕ };

    /// How often its doors were bound, where it is told.
    ghost binds: { Option ℕ };

    /// The address at which they were, where it is told.
    ghost bound: { Option (List ℕ) };

    /// How often its doors had failed then.
    ghost door_count: { ℕ };
}

impl HallName for Brand {
    ghost use Rattle.std.specs.Prelude.{[], None};
    ghost use Rattle.shared_hall.specs.Names.{no_book};

    ghost book = { no_book };

    ghost opening = { [] };

    ghost keys = { [] };

    ghost folder_count = { 0 };

    ghost log_count = { 0 };

    ghost folder_files = { None };

    ghost connections = { 0 };

    ghost accepted = { 0 };

    ghost binds = { None };

    ghost bound = { None };

    ghost door_count = { 0 };
}
