//! The links of a table and the potentials of an answer, as the laws of walks have them.

ghost use Rattle.std.specs.Prelude.{List, Contains};
ghost use Rattle.venue_types.specs.declared.link.Potential.{Potential};
ghost use Rattle.route_certificate.specs.declared.table.TableLink.{TableLink};
ghost use Rattle.route_certificate.specs.Answers.{potentials_read};
ghost use Rattle.route_certificate.specs.Verdicts.{links_read};

use walk_laws::{LinkFamily, PotentialKind};

/// The links of a list.
pub(crate) struct TableLinks;

impl LinkFamily for TableLinks {
    ghost Link = { TableLink };

    ghost Ground = { List TableLink };

    ghost view = { links_read };

    ghost has = { Contains };
}

/// The potentials that an answer lists.
pub(crate) struct ListedPotentials;

impl PotentialKind for ListedPotentials {
    ghost Potential = { Potential };

    ghost view = { potentials_read };
}
