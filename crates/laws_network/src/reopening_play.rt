//! Worked plays of reopenings, computed by the definitions: one that brings a shard back, and what happens without some
//! of the rules.
ghost use Rattle.laws_network.specs.ReopeningPlays.{AsksNewcomers, BringsBack, CarriesNoneSettled, MovesNoPrimary};
ghost use Rattle.laws_network.specs.ReopeningPlays.{TakesNoOldSettle, TakesNoSettleTwice};

/// Shows that if a server is lost in the middle of a handover, the old owner is the primary again.
pub fn brings_back()
    ensures { BringsBack }
{}

/// Shows that no settlement may move a primary: two would serve.
pub fn moves_no_primary()
    ensures { MovesNoPrimary }
{}

/// Shows that a server that has lost its slots may take no settle but for its nonce: two would serve.
pub fn takes_no_old_settle()
    ensures { TakesNoOldSettle }
{}

/// Shows that a settle may be taken only once: two would serve.
pub fn takes_no_settle_twice()
    ensures { TakesNoSettleTwice }
{}

/// Shows that a server to which a replaced reopening has sent a settle may not be carried over: two would serve.
pub fn carries_none_settled()
    ensures { CarriesNoneSettled }
{}

/// Shows that a reopening also has to ask the servers of the documents of those that it replaces: two would serve.
pub fn asks_newcomers()
    ensures { AsksNewcomers }
{}
