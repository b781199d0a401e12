//! Faults of texts.
ghost use Rattle.std.specs.Prelude.{◌≡◌, List, [], ◌∷◌, MatchOption, if◌then◌else◌};
ghost use Rattle.sm_plan_text.specs.Words.{TextFault, number_of, noted, answered, IsFirstOfLowest};
ghost use Rattle.sm_plan_text.specs.declared.fault.TextFault.TheVariants.{NoMemory};

use crate::member::Member;
use std::alloc::AllocError;
use thiserror::Error;

/// The reason why a text is not read. If there are several faults, the answer is one of the lowest number. If several
/// have that number, it is the first that a walk through the document meets: an object, then the objects in it, lists
/// front to back.
#[derive(Clone, Copy, Debug, PartialEq, Eq, Error)]
pub enum TextFault {
    #[error("out of memory")]
    NoMemory,
    #[error("not a JSON text in UTF-8")]
    NotJson,
    /// The member is missing or has another form, or it stands for an object that is none or has a member that it does
    /// not know.
    #[error("`{member}` is missing or not in its form")]
    Shape { member: Member },
    #[error("`{member}` names what is not in the document")]
    UnknownName { member: Member },
    #[error("`{member}` has too many entries")]
    TooMany { member: Member },
    #[error("`{member}` is not a whole number within its limit")]
    Number { member: Member },
}

impl TextFault {
    /// Returns the fault's number, by which the one that is answered is chosen.
    pub const fn number(&self) -> u8
        ensures { result ≡ number_of self.now }
    {
        match self {
            TextFault::NoMemory => 1,
            TextFault::NotJson => 2,
            TextFault::Shape { .. } => 3,
            TextFault::UnknownName { .. } => 4,
            TextFault::TooMany { .. } => 5,
            TextFault::Number { .. } => 6,
        }
    }
}

impl From<AllocError> for TextFault {
    ghost from_gives = { λ _ fault. fault ≡ NoMemory };

    fn from(_e: AllocError) -> TextFault {
        TextFault::NoMemory
    }
}

/// The fault to answer, of those that the walk has met.
#[derive(Clone, Copy)]
pub struct Faults {
    pub lowest: Option<TextFault>,
}

impl Faults {
    /// Takes the next fault of the walk.
    pub fn note(&mut self, fault: TextFault)
        ensures { self.new.lowest ≡ noted self.old.lowest (fault ∷ []) }
    {
        if let Some(best) = self.lowest
            && best.number() <= fault.number()
        {
            return;
        }
        self.lowest = Some(fault);
    }

    /// Takes the next fault, unless the test holds.
    pub fn note_unless(&mut self, holds: bool, fault: TextFault)
        ensures { self.new.lowest ≡ noted self.old.lowest (if holds then [] else fault ∷ []) }
    {
        if !holds {
            self.note(fault);
        }
    }

    /// Takes the faults of a part of the walk, which were noted apart.
    #[tactic(auto, using(crate::proofs::Lowest::part_none, crate::proofs::Lowest::part_some))]
    pub fn append(&mut self, part: Faults)
        ensures { (faults : List TextFault) → part.lowest ≡ answered faults
            → self.new.lowest ≡ noted self.old.lowest faults }
    {
        if let Some(fault) = part.lowest {
            self.note(fault);
        }
    }
}

/// States that the answer is the first of the faults of the lowest number, and none if there is no fault.
#[tactic(auto, using(crate::proofs::Lowest::first_of_lowest))]
pub fn first_is_answered()
    ensures { (faults : List TextFault) → MatchOption (answered faults) (faults ≡ []) (IsFirstOfLowest faults) }
{}
