// What the tree refers to by number: the counters, the identifiers, and the scopes with their declarations.
ghost use Rattle.std.specs.Prelude.{◌≡◌, ◌≤◌, length};
ghost use Rattle.hir.specs.Encode.{items_words, list_words, name_words, identifier_words, early_words, declaration_words, scope_words, counters_words};
ghost use Rattle.hir.specs.Held.{owned, scopes_from};
ghost use Rattle.write.specs.Puts.{Room, Wrote};
ghost use Rattle.write.specs.Scopes.{scope_of};

use crate::encode::Encode;
use crate::writer::Writer;
use hir::environment::{
    Counters, Declared, Identifier, IdentifierName, ReactiveScope, ReactiveScopeDeclaration,
    ReactiveScopeEarlyReturn,
};
use hir::table::Table;
use hir::used::DECLARATIONS;

impl Encode for Counters {
    ghost words = { counters_words };

    fn put(&self, writer: &mut Writer) {
        writer.words(&[self.blocks, self.types, self.ranges]);
    }
}

impl Encode for IdentifierName {
    ghost words = { name_words };

    fn put(&self, writer: &mut Writer) {
        match self {
            IdentifierName::Named(text) => writer.words(&[0, *text]),
            IdentifierName::Promoted(text) => writer.words(&[1, *text]),
        }
    }
}

impl Encode for Identifier {
    ghost words = { identifier_words };

    fn put(&self, writer: &mut Writer) {
        writer.word(self.declaration);
        self.name.put(writer);
        writer.word(self.range);
        self.scope.put(writer);
        writer.words(&[self.kind, self.span]);
    }
}

impl Encode for ReactiveScopeEarlyReturn {
    ghost words = { early_words };

    fn put(&self, writer: &mut Writer) {
        writer.words(&[self.value, self.span, self.label]);
    }
}

impl Encode for ReactiveScopeDeclaration {
    ghost words = { declaration_words };

    fn put(&self, writer: &mut Writer) {
        writer.words(&[self.key, self.identifier, self.scope]);
    }
}

// How many of the declarations are in the list of scope `owner`.
fn count_owned(declared: &Table<Declared, DECLARATIONS>, owner: u32) -> u32
    ensures { result ≡ length (owned owner declared.now.vec.items) }
{
    declared.vec.iter().filter(|one| one.owner == owner).count() as u32
}

impl Writer<'_> {
    // The declarations in the list of scope `owner`, without their count. A loop with a test, since it writes as it goes.
    fn owned(&mut self, declared: &[Declared], owner: u32)
        requires { Room self.old (items_words declaration_words (owned owner declared.now)) }
        ensures { Wrote self.old self.new (items_words declaration_words (owned owner declared.now)) }
    {
        for one in declared {
            if one.owner == owner {
                one.declaration.put(self);
            }
        }
    }

    // All declarations are walked for each scope, since nothing says that they stand in the order of the scopes.
    fn scope(&mut self, scope: ReactiveScope, number: u32, declared: &Table<Declared, DECLARATIONS>)
        requires { Room self.old (scope_words (scope_of scope number declared.now.vec.items)) }
        ensures { Wrote self.old self.new (scope_words (scope_of scope number declared.now.vec.items)) }
    {
        scope.early.put(self);
        self.word(count_owned(declared, number));
        self.owned(declared.vec.as_slice(), number);
    }

    pub fn scopes(&mut self, scopes: &[ReactiveScope], declared: &Table<Declared, DECLARATIONS>)
        requires few { length scopes.now ≤ 256 }
        requires room { Room self.old (items_words scope_words (scopes_from 0 scopes.now declared.now.vec.items)) }
        ensures { Wrote self.old self.new (items_words scope_words (scopes_from 0 scopes.now declared.now.vec.items)) }
    {
        for (number, scope) in scopes.iter().enumerate() {
            self.scope(*scope, number as u32, declared);
        }
    }
}
