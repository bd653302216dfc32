// Why a call is refused: each fault has a number, a layer and a place, which stay as it goes up from layer to layer.
ghost use Rattle.std.specs.Prelude.{◌≡◌, Some};
ghost use Rattle.format.specs.Faults.{file_number, file_place, check_number, check_place, layer_name, load_number, load_layer, load_place, call_number, call_layer, call_place, load_of_file, load_of_check, call_of_load};

use std::fmt;

#[derive(Clone, Copy, Debug, PartialEq, Eq, Hash)]
pub enum Layer {
    File,
    Check,
    Walk,
    Call,
}

impl fmt::Display for Layer {
    ghost output = { λ layer. Some (layer_name layer) };

    fn fmt<W: fmt::Write>(&self, f: &mut fmt::Formatter<W>) -> fmt::Result {
        match self {
            Layer::File => write!(f, "file"),
            Layer::Check => write!(f, "check"),
            Layer::Walk => write!(f, "walk"),
            Layer::Call => write!(f, "call"),
        }
    }
}

// The file's length, a pair, a word that cannot be read, a limit that is passed; with the word's number.
#[derive(Clone, Copy, Debug, PartialEq, Eq, Hash)]
pub enum FileFault {
    Length,
    Pairs(u32),
    Reading(u32),
    Limit(u32),
}

// A number out of its table, written places or operands not as their kind asks, a jump without target, a scope that has a record or a second Scope block; with the statement's number.
#[derive(Clone, Copy, Debug, PartialEq, Eq, Hash)]
pub enum CheckFault {
    Numbers(u32),
    Shapes(u32),
    Targets(u32),
    Scopes(u32),
}

#[derive(Clone, Copy, Debug, PartialEq, Eq, Hash)]
pub enum LoadFault {
    File(FileFault),
    Check(CheckFault),
}

#[derive(Clone, Copy, Debug, PartialEq, Eq, Hash)]
pub enum CallFault {
    Load(LoadFault),
    BufferTooSmall,
}

impl From<FileFault> for LoadFault {
    ghost from_gives = { λ x r. r ≡ load_of_file x };

    fn from(fault: FileFault) -> LoadFault {
        LoadFault::File(fault)
    }
}

impl From<CheckFault> for LoadFault {
    ghost from_gives = { λ x r. r ≡ load_of_check x };

    fn from(fault: CheckFault) -> LoadFault {
        LoadFault::Check(fault)
    }
}

impl From<LoadFault> for CallFault {
    ghost from_gives = { λ x r. r ≡ call_of_load x };

    fn from(fault: LoadFault) -> CallFault {
        CallFault::Load(fault)
    }
}

// Each type has these methods by itself: no function takes a fault of any type, so a trait of them would be no bound.
impl FileFault {
    pub fn number(&self) -> u32
        ensures { result ≡ file_number self.now }
    {
        match self {
            FileFault::Length => 1,
            FileFault::Pairs(_) => 2,
            FileFault::Reading(_) => 3,
            FileFault::Limit(_) => 4,
        }
    }

    // A number as it is told; 0 where the whole file is meant.
    pub fn place(&self) -> u32
        ensures { result ≡ file_place self.now }
    {
        match self {
            FileFault::Length => 0,
            FileFault::Pairs(word) | FileFault::Reading(word) | FileFault::Limit(word) => *word,
        }
    }
}

impl CheckFault {
    pub fn number(&self) -> u32
        ensures { result ≡ check_number self.now }
    {
        match self {
            CheckFault::Numbers(_) => 5,
            CheckFault::Shapes(_) => 6,
            CheckFault::Targets(_) => 7,
            CheckFault::Scopes(_) => 8,
        }
    }

    pub fn place(&self) -> u32
        ensures { result ≡ check_place self.now }
    {
        match self {
            CheckFault::Numbers(statement)
            | CheckFault::Shapes(statement)
            | CheckFault::Targets(statement)
            | CheckFault::Scopes(statement) => *statement,
        }
    }
}

impl LoadFault {
    pub fn number(&self) -> u32
        ensures { result ≡ load_number self.now }
    {
        match self {
            LoadFault::File(fault) => fault.number(),
            LoadFault::Check(fault) => fault.number(),
        }
    }

    pub fn layer(&self) -> Layer
        ensures { result ≡ load_layer self.now }
    {
        match self {
            LoadFault::File(_) => Layer::File,
            LoadFault::Check(_) => Layer::Check,
        }
    }

    pub fn place(&self) -> u32
        ensures { result ≡ load_place self.now }
    {
        match self {
            LoadFault::File(fault) => fault.place(),
            LoadFault::Check(fault) => fault.place(),
        }
    }
}

impl CallFault {
    pub fn number(&self) -> u32
        ensures { result ≡ call_number self.now }
    {
        match self {
            CallFault::Load(fault) => fault.number(),
            CallFault::BufferTooSmall => 14,
        }
    }

    pub fn layer(&self) -> Layer
        ensures { result ≡ call_layer self.now }
    {
        match self {
            CallFault::Load(fault) => fault.layer(),
            CallFault::BufferTooSmall => Layer::Call,
        }
    }

    // 0 where the call as a whole is refused.
    pub fn place(&self) -> u32
        ensures { result ≡ call_place self.now }
    {
        match self {
            CallFault::Load(fault) => fault.place(),
            CallFault::BufferTooSmall => 0,
        }
    }
}
