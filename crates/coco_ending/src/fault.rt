//! The endings that faults of other crates make.

ghost use Rattle.std.specs.Prelude.{◌≡◌};
ghost use Rattle.coco_ending.specs.declared.ending.Ending.TheVariants.{NoMemory as Spent};

use crate::{Ending, TextError};
use coco_check::CheckFault;
use coco_lex::LexFault;
use coco_parse::ParseFault;
use coco_types::NoMemory;
use std::alloc::AllocError;

impl From<LexFault> for Ending {
    ghost use Rattle.coco_ending.specs.Faults.{lex_ending};

    ghost from_gives = { λ fault ending. ending ≡ lex_ending fault };

    fn from(fault: LexFault) -> Ending {
        match fault {
            LexFault::Refused(error) => Ending::Refused(TextError::Lex(error)),
            LexFault::NoMemory => Ending::NoMemory,
        }
    }
}

impl From<ParseFault> for Ending {
    ghost use Rattle.coco_ending.specs.Faults.{parse_ending};

    ghost from_gives = { λ fault ending. ending ≡ parse_ending fault };

    fn from(fault: ParseFault) -> Ending {
        match fault {
            ParseFault::Refused(error) => Ending::Refused(TextError::Parse(error)),
            ParseFault::NoMemory => Ending::NoMemory,
        }
    }
}

impl From<CheckFault> for Ending {
    ghost use Rattle.coco_ending.specs.Faults.{check_ending};

    ghost from_gives = { λ fault ending. ending ≡ check_ending fault };

    fn from(fault: CheckFault) -> Ending {
        match fault {
            CheckFault::Refused(error) => Ending::Refused(TextError::Check(error)),
            CheckFault::NoMemory => Ending::NoMemory,
        }
    }
}

impl From<NoMemory> for Ending {
    ghost from_gives = { λ _ ending. ending ≡ Spent };

    fn from(_fault: NoMemory) -> Ending {
        Ending::NoMemory
    }
}

impl From<AllocError> for Ending {
    ghost from_gives = { λ _ ending. ending ≡ Spent };

    fn from(_fault: AllocError) -> Ending {
        Ending::NoMemory
    }
}
