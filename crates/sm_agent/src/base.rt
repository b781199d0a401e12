//! The base that a server keeps beside its slots, and the messages that change it.
ghost use Rattle.std.specs.Prelude.{◌≡◌};
ghost use Rattle.sm_agent.specs.Base.{lacks_slots, is_at, is_meant, is_overtaken, forgotten, fenced, settled, restored};
ghost use Rattle.sm_agent.specs.Base.{heeded};

/// The base that a server keeps beside its slots. The owner of the published map keeps one too.
///
/// A server is Unknown until it has its slots, and again once it has lost them: it then has a nonce, under which it
/// asks for them. A base of zeros, with a nonce of 0, is Unknown too, and has yet to make a nonce.
#[derive(Clone, Copy, Debug, PartialEq, Eq)]
pub struct Base {
    /// The journal whose orders the server takes.
    pub journal: u64,
    /// Orders at or below this number are old.
    pub number: u64,
    /// The server has taken the fence of this number, and not its settle yet.
    pub fenced: bool,
    /// The nonce under which an Unknown server asks for its slots; none once it has them.
    pub nonce: Option<u64>,
}

/// A reopening of a journal. The fence that begins it and each later message name it.
#[derive(Clone, Copy, Debug, PartialEq, Eq)]
pub struct Reopening {
    pub journal: u64,
    /// The number that becomes the base of each server: all earlier orders are at or below it.
    pub number: u64,
}

/// The end of a reopening at one server, which brings all slots. It rests on the server's answer to the fence.
#[derive(Clone, Copy, Debug, PartialEq, Eq)]
pub struct Settlement {
    pub reopening: Reopening,
    /// The nonce that the server's answer to the fence had; none if the answer had slots.
    pub nonce: Option<u64>,
}

/// The slots of a server that has lost them, as the journal has them.
#[derive(Clone, Copy, Debug, PartialEq, Eq)]
pub struct Restoration {
    pub journal: u64,
    /// The number of the journal's last reopening.
    pub fence: u64,
    /// The number that becomes the server's base: all that was ever sent to the server is at or below it.
    pub number: u64,
    /// The nonce under which the server asked.
    pub nonce: u64,
}

/// The result of a fence, a settle or a restore.
#[derive(Clone, Copy, Debug, PartialEq, Eq)]
pub enum Reception {
    /// The server takes it, and this is its base afterwards.
    Taken(Base),
    /// The server has taken it before: it answers again, and changes nothing.
    Again,
    /// It changes nothing, and is not answered.
    Ignored,
}

impl Base {
    /// Tells whether the server has no slots, so that it refuses orders and requests.
    pub fn is_unknown(&self) -> bool
        ensures { result ≡ lacks_slots self.now }
    {
        self.nonce.is_some()
    }

    /// Tells whether the base is the one of this reopening.
    const fn is_at(&self, reopening: &Reopening) -> bool
        ensures { result ≡ is_at self.now reopening.now }
    {
        self.journal == reopening.journal && self.number == reopening.number
    }

    /// Tells whether a message of the server's journal names a last reopening that the server was not settled at.
    const fn is_overtaken(&self, last: &Reopening) -> bool
        ensures { result ≡ is_overtaken self.now last.now }
    {
        self.journal == last.journal
            && (self.number < last.number || (self.fenced && self.number == last.number))
    }
}

/// Tells whether what comes is meant for the server as it stands. It names the nonce of a server that is Unknown, and
/// none of one that has its slots.
const fn is_meant(nonce: Option<u64>, named: Option<u64>) -> bool
    ensures { result ≡ is_meant nonce named }
{
    match (nonce, named) {
        (None, None) => true,
        (Some(nonce), Some(named)) => nonce == named && nonce != 0,
        _ => false,
    }
}

/// Returns the base of a server that has lost its slots, and asks for them under a new nonce.
pub const fn forget(nonce: u64) -> Base
    ensures { result ≡ forgotten nonce }
{
    Base {
        journal: 0,
        number: 0,
        fenced: false,
        nonce: Some(nonce),
    }
}

/// Decides what becomes of a fence. If it is taken, the server abandons all work; if it is also Unknown, it asks under
/// `nonce` from then on.
pub fn fence(base: &Base, reopening: &Reopening, nonce: u64) -> Reception
    ensures { result ≡ fenced base.now reopening.now nonce }
{
    if base.number < reopening.number {
        Reception::Taken(Base {
            journal: reopening.journal,
            number: reopening.number,
            fenced: true,
            nonce: base.nonce.map(|_| nonce),
        })
    } else if base.fenced && base.is_at(reopening) {
        Reception::Again
    } else {
        Reception::Ignored
    }
}

/// Decides what becomes of a settle. If it is taken, its slots take the place of the server's (`place`).
pub fn settle(base: &Base, settlement: &Settlement) -> Reception
    ensures { result ≡ settled base.now settlement.now }
{
    if !base.is_at(&settlement.reopening) {
        return Reception::Ignored;
    }
    if base.fenced && is_meant(base.nonce, settlement.nonce) {
        return Reception::Taken(Base {
            fenced: false,
            nonce: None,
            ..*base
        });
    }
    if base.fenced || base.is_unknown() {
        Reception::Ignored
    } else {
        Reception::Again
    }
}

/// Decides what becomes of a restore. If it is taken, its slots become the server's (`place`).
pub fn restore(base: &Base, restoration: &Restoration) -> Reception
    ensures { result ≡ restored base.now restoration.now }
{
    let above = base.fenced && restoration.fence < base.number;
    if is_meant(base.nonce, Some(restoration.nonce)) && !above {
        Reception::Taken(Base {
            journal: restoration.journal,
            number: restoration.number,
            fenced: false,
            nonce: None,
        })
    } else {
        Reception::Ignored
    }
}

/// Returns the base once a message has named the last reopening: a server that was not settled at it is Unknown, and
/// asks under `nonce`.
pub fn heed(base: &Base, last: &Reopening, nonce: u64) -> Base
    ensures { result ≡ heeded base.now last.now nonce }
{
    if !base.is_unknown() && base.is_overtaken(last) {
        forget(nonce)
    } else {
        *base
    }
}
