//! The rule that the words keep, and the four kinds of step that keep it.
//!
//! The rule speaks of lists that no code holds: each shard's entries, the newest first. It says:
//!
//! - one seat of the table is the publisher's, and it knows these lists;
//! - each word is that of its shard's newest entry, and a word that stands for no shard is 0;
//! - along a list the versions rise by one and stay below 2^47, and each server is below the count with which
//!   the words were opened;
//! - each entry that a seat has seen stands in its shard's list;
//! - what had been stored when a seat was parted from the publisher is the earlier part of what is stored.
//!
//! The steps:
//!
//! - A pass loads a shard's word (`Look`). It has then seen the word's entry.
//! - The publisher stores a shard's word (`Store`). Its list of the shard then has the entry.
//! - A load parts a pass from the publisher (`Parts`, as a `Split`). The pass has what was seen: nothing if it is new. It knows too what
//!   is stored by then.
//! - A pass joins the publisher (`Parts`, as a `Join`), and the two load a shard's word as one (`Meet`).
//! They then know that the entry is the newest. The pass's old seat stays behind, with nothing stored and nothing seen.
use atomic_table::{Join, Play, Split, TableRule};
use sm_placement::Entry;
use sm_server::ShardId;
use std::collections::LinkedList;

/// The opening of the words, which proofs alone read.
#[derive(Drop)]
pub struct Opening {
    pub servers: u32,
    pub entries: Vec<Entry>,
}

/// The knowledge of a seat: what the words were opened with and, the newest first, what the publisher has stored, what
/// it had stored when a pass was parted from it, and what that pass has seen. No value of it is made.
pub struct View {
    pub publishes: bool,
    pub servers: u32,
    pub opening: LinkedList<Entry>,
    pub stores: LinkedList<(ShardId, Entry)>,
    pub since: LinkedList<(ShardId, Entry)>,
    pub seen: LinkedList<(ShardId, Entry)>,
}

/// The rule of the words.
pub struct Published;

impl<S> TableRule<S, View, Opening> for Published {
    ghost use Rattle.std.specs.Prelude.{[]};
    ghost use Rattle.sm_map.specs.Rule.{Kept, publisher_view};

    ghost holds = { λ opening state. Kept opening.servers opening.entries.items state };

    ghost first = { λ opening. publisher_view opening.servers opening.entries.items [] };
}

/// A load of a shard's word by a pass.
pub struct Look;

impl<S> Play<S, View> for Look {
    ghost use Rattle.sm_map.specs.Rule.{Looks};

    ghost then = { Looks };
}

/// A load of a shard's word by the publisher and a pass as one.
pub struct Meet;

impl<S> Play<S, View> for Meet {
    ghost use Rattle.sm_map.specs.Rule.{Meets};

    ghost then = { Meets };
}

/// A store of a shard's word by the publisher.
pub struct Store;

impl<S> Play<S, View> for Store {
    ghost use Rattle.sm_map.specs.Rule.{Stores};

    ghost then = { Stores };
}

/// The parting of a pass from the publisher, and the joining of the two.
pub struct Parts;

impl Split<View> for Parts {
    ghost use Rattle.sm_map.specs.Rule.{publisher_part, pass_part};

    ghost left = { publisher_part };

    ghost right = { pass_part };
}

impl Join<View> for Parts {
    ghost use Rattle.sm_map.specs.Rule.{joined, spent};

    ghost both = { joined };

    ghost spent = { spent };
}
