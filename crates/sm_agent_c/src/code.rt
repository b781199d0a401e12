//! Kinds and answers as numbers.
ghost use Rattle.std.specs.Prelude.{◌≡◌};
ghost use Rattle.sm_agent_c.specs.Code.{done_if, flag_of, is_flag, number_if, verdict_code};

use sm_agent::Verdict;
use sm_server::Refusal;

/// A kind that is out of range.
pub(crate) const BAD: u32 = 0;

pub(crate) const BEGIN: u32 = 1;

pub(crate) const WORKING: u32 = 2;

pub(crate) const AGAIN: u32 = 3;

pub(crate) const OLD: u32 = 4;

pub(crate) const FOREIGN: u32 = 5;

pub(crate) const NOT_READY: u32 = 6;

pub(crate) const DOWN: u32 = 7;

pub(crate) const ALREADY_HELD: u32 = 8;

pub(crate) const NOT_HELD: u32 = 9;

pub(crate) const WRONG_ROLE: u32 = 10;

pub(crate) const NO_ROOM: u32 = 11;

pub(crate) const EXECUTE: u32 = 12;

pub(crate) const PASS_ON: u32 = 13;

pub(crate) const NOT_HERE: u32 = 14;

pub(crate) const NOT_YET: u32 = 15;

pub(crate) const TAKEN: u32 = 16;

pub(crate) const IGNORED: u32 = 17;

pub(crate) const DONE: u32 = 18;

pub(crate) const NOT_DONE: u32 = 19;

pub(crate) const INCOMPLETE: u32 = 20;

pub(crate) const LESS: u32 = 21;

pub(crate) const EQUAL: u32 = 22;

pub(crate) const GREATER: u32 = 23;

/// The kinds of cells. Zeros are of an Unknown server.
pub(crate) const UNKNOWN: u32 = 0;

pub(crate) const ABSENT: u32 = 1;

pub(crate) const PREPARED: u32 = 2;

pub(crate) const SECONDARY: u32 = 3;

pub(crate) const PRIMARY: u32 = 4;

pub(crate) const FORWARDING: u32 = 5;

/// The kinds of calls.
pub(crate) const ADD: u32 = 1;

pub(crate) const DROP: u32 = 2;

pub(crate) const CHANGE: u32 = 3;

pub(crate) const PREPARE_ADD: u32 = 4;

pub(crate) const PREPARE_DROP: u32 = 5;

/// The kinds of roles.
pub(crate) const AS_PRIMARY: u32 = 1;

pub(crate) const AS_SECONDARY: u32 = 2;

/// The kinds of assignments.
pub(crate) const SETTLE: u32 = 1;

pub(crate) const RESTORE: u32 = 2;

/// Returns the number of a verdict.
pub(crate) fn verdict_code(verdict: Verdict) -> u32
    ensures { result ≡ verdict_code verdict }
{
    match verdict {
        Verdict::Begin => BEGIN,
        Verdict::Working => WORKING,
        Verdict::Again => AGAIN,
        Verdict::Old => OLD,
        Verdict::Foreign => FOREIGN,
        Verdict::NotReady => NOT_READY,
        Verdict::Refused(Refusal::Down) => DOWN,
        Verdict::Refused(Refusal::AlreadyHeld) => ALREADY_HELD,
        Verdict::Refused(Refusal::NotHeld) => NOT_HELD,
        Verdict::Refused(Refusal::WrongRole) => WRONG_ROLE,
        Verdict::Refused(Refusal::NoRoom) => NO_ROOM,
    }
}

/// Tells whether a flag is 0 or 1.
pub(crate) const fn is_flag(flag: u32) -> bool
    ensures { result ≡ is_flag flag }
{
    flag <= 1
}

/// Returns the flag of a fact.
pub(crate) const fn flag_of(fact: bool) -> u32
    ensures { result ≡ flag_of fact }
{
    if fact { 1 } else { 0 }
}

/// Returns the number, if its flag is not 0.
pub(crate) const fn number_if(flag: u64, number: u64) -> Option<u64>
    ensures { result ≡ number_if flag number }
{
    if flag == 0 { None } else { Some(number) }
}

/// Returns `DONE` if something is so, or was done, and `NOT_DONE` otherwise.
pub(crate) const fn done_if(fact: bool) -> u32
    ensures { result ≡ done_if fact }
{
    if fact { DONE } else { NOT_DONE }
}
