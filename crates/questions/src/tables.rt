// The numbers in the tables: identifiers, scopes with their records, and declarations.
ghost use Rattle.std.specs.Prelude.{◌≡◌};
ghost use Rattle.std.specs.List.{list_all};
ghost use Rattle.questions.specs.Questions.{identifier_in, early_in, unrecorded};
ghost use Rattle.questions.specs.Tables.{declared_in, bounds_in, tables_in};

use crate::line::Bounds;
use hir::environment::{Declared, Environment, Identifier, ReactiveScope};

impl Bounds {
    // What the numbers of these tables are held to.
    pub fn of(environment: &Environment) -> Bounds
        ensures { result ≡ bounds_in environment.now }
    {
        Bounds {
            identifiers: environment.identifiers.vec.len() as u32,
            scopes: environment.scopes.vec.len() as u32,
            blocks: environment.counters.blocks,
            types: environment.counters.types,
            ranges: environment.counters.ranges,
        }
    }

    fn identifiers(self, identifiers: &[Identifier]) -> bool
        ensures { result ≡ list_all (identifier_in self) identifiers.now }
    {
        identifiers.iter().all(|identifier| {
            identifier.declaration < self.identifiers
                && identifier.range < self.ranges
                && identifier.scope.is_none_or(|scope| scope < self.scopes)
                && identifier.kind < self.types
        })
    }

    fn records(self, scopes: &[ReactiveScope]) -> bool
        ensures { result ≡ list_all (λ s. early_in self s.early) scopes.now }
    {
        scopes.iter().all(|scope| {
            scope.early.is_none_or(|early| early.value < self.identifiers
                && early.label < self.blocks)
        })
    }

    // A declaration that is in no scope's list asks nothing.
    fn declarations(self, declarations: &[Declared]) -> bool
        ensures { result ≡ list_all (declared_in self) declarations.now }
    {
        declarations.iter().all(|declared| {
            let declaration = declared.declaration;
            declared.owner >= self.scopes
                || declaration.key < self.identifiers
                    && declaration.identifier < self.identifiers
                    && declaration.scope < self.scopes
        })
    }

    // Whether the numbers in all tables are in range.
    pub fn tables(self, environment: &Environment) -> bool
        ensures { result ≡ tables_in self environment.now }
    {
        self.identifiers(&environment.identifiers.vec)
            && self.records(&environment.scopes.vec)
            && self.declarations(&environment.declarations.vec)
    }
}

// Whether no scope has a record.
pub fn no_records(scopes: &[ReactiveScope]) -> bool
    ensures { result ≡ list_all (λ s. unrecorded s.early) scopes.now }
{
    scopes.iter().all(|scope| scope.early.is_none())
}
