// What the tree refers to by number: identifiers, scopes with their declarations, and the counters.
ghost use Rattle.std.specs.Prelude.{◌≡◌, [], IfOk};
ghost use Rattle.hir.specs.Tree.{no_counters};

use crate::table::Table;
use crate::used::{DECLARATIONS, IDENTIFIERS, SCOPES};
use std::alloc::{AllocError, Global};

// A name's text is the caller's code; that of a promoted one is the N of `#tN`.
#[derive(Clone, Copy)]
pub enum IdentifierName {
    Named(u32),
    Promoted(u32),
}

#[derive(Clone, Copy)]
pub struct Identifier {
    pub declaration: u32,
    pub name: Option<IdentifierName>,
    pub range: u32,
    pub scope: Option<u32>,
    pub kind: u32,
    pub span: u32,
}

// The record of a scope: the place that holds an early return's value, and the label to break to.
#[derive(Clone, Copy)]
pub struct ReactiveScopeEarlyReturn {
    pub value: u32,
    pub span: u32,
    pub label: u32,
}

#[derive(Clone, Copy)]
pub struct ReactiveScopeDeclaration {
    pub key: u32,
    pub identifier: u32,
    pub scope: u32,
}

#[derive(Clone, Copy)]
pub struct ReactiveScope {
    pub early: Option<ReactiveScopeEarlyReturn>,
}

// A declaration with the scope whose list it is in. A scope's list is its own, in order of arrival.
#[derive(Clone, Copy)]
pub struct Declared {
    pub owner: u32,
    pub declaration: ReactiveScopeDeclaration,
}

// The next block number, and how many types and mutable ranges there are.
#[derive(Clone, Copy, Default)]
pub struct Counters {
    pub blocks: u32,
    pub types: u32,
    pub ranges: u32,
}

#[derive(Drop)]
pub struct Environment {
    pub counters: Counters,
    pub identifiers: Table<Identifier, IDENTIFIERS>,
    pub scopes: Table<ReactiveScope, SCOPES>,
    pub declarations: Table<Declared, DECLARATIONS>,
}

impl Environment {
    pub fn new(heap: Global) -> Result<Environment, AllocError>
        ensures { IfOk result (λ e. (e.counters ≡ no_counters) × (e.identifiers.vec.items ≡ []) × (e.scopes.vec.items ≡ []) × (e.declarations.vec.items ≡ [])) }
    {
        Ok(Environment {
            counters: Counters::default(),
            identifiers: Table::new(heap)?,
            scopes: Table::new(heap)?,
            declarations: Table::new(heap)?,
        })
    }

    pub fn clear(&mut self)
        ensures counters { self.new.counters ≡ no_counters }
        ensures identifiers { self.new.identifiers.vec.items ≡ [] }
        ensures scopes { self.new.scopes.vec.items ≡ [] }
        ensures declarations { self.new.declarations.vec.items ≡ [] }
    {
        self.counters = Counters::default();
        self.identifiers.clear();
        self.scopes.clear();
        self.declarations.clear();
    }
}
