// The items without other values or blocks inside: places, labels, and the items of the tables.
ghost use Rattle.format.specs.Parse.{Cursor, Read, word as word_item, effects, operators, targets, place as place_item, option as option_of, payload as payload_of, label_read, identifier as identifier_item, declaration as declaration_item, counters as counters_item, case, names, early_read};
ghost use Rattle.load.specs.Reads.{Reads, ReadsJump, ReadsLeave};

use crate::reader::Reader;
use format::fault::FileFault;
use hir::environment::{
    Counters, Identifier, IdentifierName, ReactiveScopeDeclaration, ReactiveScopeEarlyReturn,
};
use hir::place::{Effect, Place};
use hir::terminal::{ReactiveLabel, ReactiveTerminalTargetKind};
use hir::value::LogicalOperator;

// What a file says in words that follow one another.
pub trait Item: Sized {
    ghost parser: { Cursor → Read Self };

    fn read(reader: &mut Reader) -> Result<Self, FileFault>
        ensures { Reads parser reader.old reader.new result };
}

impl Reader<'_> {
    // The next item.
    pub fn item<T: Item>(&mut self) -> Result<T, FileFault>
        ensures { Reads T.parser self.old self.new result }
    {
        T::read(self)
    }

    // The payload of an instruction of the kind.
    pub fn payload(&mut self, kind: u32) -> Result<u32, FileFault>
        ensures { Reads (payload_of kind) self.old self.new result }
    {
        if kind == 4 {
            self.below(8)
        } else {
            self.word()
        }
    }

    // Where a jump goes, its order, and the kind of its target.
    pub fn jump(&mut self) -> Result<(u32, u32, ReactiveTerminalTargetKind), FileFault>
        ensures { ReadsJump self.old self.new result }
    {
        Ok((self.word()?, self.order()?, self.item()?))
    }

    // What is returned or thrown, and its order.
    pub fn leave(&mut self) -> Result<(Place, u32), FileFault>
        ensures { ReadsLeave self.old self.new result }
    {
        Ok((self.item()?, self.order()?))
    }
}

impl Item for u32 {
    ghost parser = { word_item };

    fn read(reader: &mut Reader) -> Result<u32, FileFault> {
        reader.word()
    }
}

// A flag says whether the item is there.
impl<T: Item> Item for Option<T> {
    ghost parser = { option_of T.parser };

    fn read(reader: &mut Reader) -> Result<Option<T>, FileFault> {
        if reader.flag()? {
            Ok(Some(reader.item()?))
        } else {
            Ok(None)
        }
    }
}

// A number is matched where it is read, for this and the next two: a TryFrom would be the same match, with an error of its own.
impl Item for Effect {
    ghost parser = { case effects };

    fn read(reader: &mut Reader) -> Result<Effect, FileFault> {
        let at = reader.at;
        match reader.word()? {
            0 => Ok(Effect::Unknown),
            1 => Ok(Effect::Freeze),
            2 => Ok(Effect::Read),
            3 => Ok(Effect::Capture),
            4 => Ok(Effect::ConditionallyMutateIterator),
            5 => Ok(Effect::ConditionallyMutate),
            6 => Ok(Effect::Mutate),
            7 => Ok(Effect::Store),
            _ => Err(FileFault::Reading(at)),
        }
    }
}

impl Item for LogicalOperator {
    ghost parser = { case operators };

    fn read(reader: &mut Reader) -> Result<LogicalOperator, FileFault> {
        let at = reader.at;
        match reader.word()? {
            0 => Ok(LogicalOperator::Or),
            1 => Ok(LogicalOperator::And),
            2 => Ok(LogicalOperator::Coalesce),
            _ => Err(FileFault::Reading(at)),
        }
    }
}

impl Item for ReactiveTerminalTargetKind {
    ghost parser = { case targets };

    fn read(reader: &mut Reader) -> Result<ReactiveTerminalTargetKind, FileFault> {
        let at = reader.at;
        match reader.word()? {
            0 => Ok(ReactiveTerminalTargetKind::Implicit),
            1 => Ok(ReactiveTerminalTargetKind::Labeled),
            2 => Ok(ReactiveTerminalTargetKind::Unlabeled),
            _ => Err(FileFault::Reading(at)),
        }
    }
}

impl Item for Place {
    ghost parser = { place_item };

    #[tactic(auto, unfolding(format::specs::Parse::place))]
    fn read(reader: &mut Reader) -> Result<Place, FileFault> {
        reader.begin_place()?;
        Ok(Place {
            identifier: reader.word()?,
            effect: reader.item()?,
            reactive: reader.flag()?,
            span: reader.word()?,
        })
    }
}

impl Item for ReactiveLabel {
    ghost parser = { label_read };

    fn read(reader: &mut Reader) -> Result<ReactiveLabel, FileFault> {
        let id = reader.word()?;
        let implicit = reader.flag()?;
        Ok(ReactiveLabel { id, implicit })
    }
}

impl Item for Counters {
    ghost parser = { counters_item };

    #[tactic(auto, unfolding(format::specs::Parse::counters))]
    fn read(reader: &mut Reader) -> Result<Counters, FileFault> {
        Ok(Counters {
            blocks: reader.order()?,
            types: reader.order()?,
            ranges: reader.order()?,
        })
    }
}

impl Item for IdentifierName {
    ghost parser = { case names };

    fn read(reader: &mut Reader) -> Result<IdentifierName, FileFault> {
        let at = reader.at;
        match reader.word()? {
            0 => Ok(IdentifierName::Named(reader.word()?)),
            1 => Ok(IdentifierName::Promoted(reader.word()?)),
            _ => Err(FileFault::Reading(at)),
        }
    }
}

impl Item for Identifier {
    ghost parser = { identifier_item };

    #[tactic(auto, unfolding(format::specs::Parse::identifier))]
    fn read(reader: &mut Reader) -> Result<Identifier, FileFault> {
        reader.begin_identifier()?;
        Ok(Identifier {
            declaration: reader.word()?,
            name: reader.item()?,
            range: reader.word()?,
            scope: reader.item()?,
            kind: reader.word()?,
            span: reader.word()?,
        })
    }
}

impl Item for ReactiveScopeEarlyReturn {
    ghost parser = { early_read };

    fn read(reader: &mut Reader) -> Result<ReactiveScopeEarlyReturn, FileFault> {
        Ok(ReactiveScopeEarlyReturn {
            value: reader.word()?,
            span: reader.word()?,
            label: reader.word()?,
        })
    }
}

impl Item for ReactiveScopeDeclaration {
    ghost parser = { declaration_item };

    #[tactic(auto, unfolding(format::specs::Parse::declaration))]
    fn read(reader: &mut Reader) -> Result<ReactiveScopeDeclaration, FileFault> {
        reader.begin_declaration()?;
        Ok(ReactiveScopeDeclaration {
            key: reader.word()?,
            identifier: reader.word()?,
            scope: reader.word()?,
        })
    }
}
