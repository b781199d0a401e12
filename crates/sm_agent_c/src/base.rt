//! Bases as C has them, and the messages that change one.
ghost use Rattle.std.specs.Prelude.{◌≡◌, Some};
ghost use Rattle.sm_agent.specs.Base.{forgotten};
ghost use Rattle.sm_agent_c.specs.Base.{base_of, written_base, reopening_of, reception_answer, received_base, fence_of};
ghost use Rattle.sm_agent_c.specs.Base.{heed_of};

use crate::code;
use sm_agent::{Base, Reception, Reopening, fence, forget, heed};

/// A base. Zeros are that of an Unknown server, which has yet to make a nonce.
#[repr(C)]
#[derive(Clone, Copy)]
pub struct RawBase {
    pub journal: u64,
    pub number: u64,
    pub nonce: u64,
    pub known: u32,
    pub fenced: u32,
}

/// A reopening.
#[repr(C)]
#[derive(Clone, Copy)]
pub struct RawReopening {
    pub journal: u64,
    pub number: u64,
}

/// Returns what a base of C stands for, if its flags are in range.
pub(crate) fn read_base(raw: &RawBase) -> Option<Base>
    ensures { result ≡ base_of raw.now }
{
    if !code::is_flag(raw.known) || !code::is_flag(raw.fenced) {
        return None;
    }
    let nonce = if raw.known == 1 {
        None
    } else {
        Some(raw.nonce)
    };
    Some(Base {
        journal: raw.journal,
        number: raw.number,
        fenced: raw.fenced == 1,
        nonce,
    })
}

/// Returns a base in C's form.
fn write_base(base: &Base) -> RawBase
    ensures { result ≡ written_base base.now }
{
    RawBase {
        journal: base.journal,
        number: base.number,
        nonce: base.nonce.unwrap_or(0),
        known: code::flag_of(base.nonce.is_none()),
        fenced: code::flag_of(base.fenced),
    }
}

/// Returns a reopening in the agent's form.
fn read_reopening(raw: &RawReopening) -> Reopening
    ensures { result ≡ reopening_of raw.now }
{
    Reopening {
        journal: raw.journal,
        number: raw.number,
    }
}

/// Stores the base of a message that is taken, and answers what became of it.
pub(crate) fn receive(base: &mut RawBase, reception: Reception) -> u32
    ensures answer { result ≡ reception_answer (Some reception) }
    ensures base { base.new ≡ received_base base.old (Some reception) }
{
    match reception {
        Reception::Taken(next) => {
            *base = write_base(&next);
            code::TAKEN
        }
        Reception::Again => code::AGAIN,
        Reception::Ignored => code::IGNORED,
    }
}

/// Makes the base that of a server that has lost its slots, and asks for them under a nonce.
#[unsafe(no_mangle)]
pub extern "C" fn sm_forget(base: &mut RawBase, nonce: u64)
    ensures { base.new ≡ written_base (forgotten nonce) }
{
    *base = write_base(&forget(nonce));
}

/// Decides what becomes of a fence.
#[unsafe(no_mangle)]
pub extern "C" fn sm_fence(base: &mut RawBase, reopening: &RawReopening, nonce: u64) -> u32
    ensures answer { result ≡ reception_answer (fence_of (base_of base.old) (reopening_of reopening.now) nonce) }
    ensures base { base.new ≡ received_base base.old (fence_of (base_of base.old) (reopening_of reopening.now) nonce) }
{
    let Some(known) = read_base(base) else {
        return code::BAD;
    };
    receive(base, fence(&known, &read_reopening(reopening), nonce))
}

/// Makes the base Unknown if a message names a last reopening that the server was not settled at.
#[unsafe(no_mangle)]
pub extern "C" fn sm_heed(base: &mut RawBase, last: &RawReopening, nonce: u64) -> u32
    ensures answer { result ≡ reception_answer (heed_of (base_of base.old) (reopening_of last.now) nonce) }
    ensures base { base.new ≡ received_base base.old (heed_of (base_of base.old) (reopening_of last.now) nonce) }
{
    let Some(known) = read_base(base) else {
        return code::BAD;
    };
    let next = heed(&known, &read_reopening(last), nonce);
    if next.is_unknown() && !known.is_unknown() {
        receive(base, Reception::Taken(next))
    } else {
        receive(base, Reception::Ignored)
    }
}
