// Each item counts as it begins, and one too many is refused there.
ghost use Rattle.format.specs.Parse.{begin_statement, begin_value, begin_place, begin_identifier, begin_scope, begin_declaration, begin_case};
ghost use Rattle.load.specs.Reads.{Begins, Counts};

use crate::reader::Reader;
use format::fault::FileFault;
use hir::used::{CASES, DECLARATIONS, IDENTIFIERS, PLACES, SCOPES, STATEMENTS, VALUES};

// One more of the items that `count` counts; `at` is the place of a refusal.
fn begin<const LIMIT: u32>(count: &mut u32, at: u32) -> Result<(), FileFault>
    ensures { Counts LIMIT at count.old count.new result }
{
    if *count >= LIMIT {
        return Err(FileFault::Limit(at));
    }
    *count += 1;
    Ok(())
}

impl Reader<'_> {
    pub fn begin_statement(&mut self) -> Result<(), FileFault>
        ensures { Begins begin_statement self.old self.new result }
    {
        begin::<STATEMENTS>(&mut self.used.statements, self.at)
    }

    pub fn begin_value(&mut self) -> Result<(), FileFault>
        ensures { Begins begin_value self.old self.new result }
    {
        begin::<VALUES>(&mut self.used.values, self.at)
    }

    pub fn begin_place(&mut self) -> Result<(), FileFault>
        ensures { Begins begin_place self.old self.new result }
    {
        begin::<PLACES>(&mut self.used.places, self.at)
    }

    pub fn begin_identifier(&mut self) -> Result<(), FileFault>
        ensures { Begins begin_identifier self.old self.new result }
    {
        begin::<IDENTIFIERS>(&mut self.used.identifiers, self.at)
    }

    pub fn begin_scope(&mut self) -> Result<(), FileFault>
        ensures { Begins begin_scope self.old self.new result }
    {
        begin::<SCOPES>(&mut self.used.scopes, self.at)
    }

    pub fn begin_declaration(&mut self) -> Result<(), FileFault>
        ensures { Begins begin_declaration self.old self.new result }
    {
        begin::<DECLARATIONS>(&mut self.used.declarations, self.at)
    }

    pub fn begin_case(&mut self) -> Result<(), FileFault>
        ensures { Begins begin_case self.old self.new result }
    {
        begin::<CASES>(&mut self.used.cases, self.at)
    }
}
