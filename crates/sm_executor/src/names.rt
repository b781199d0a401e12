//! The names that tell boards apart when a program is compiled.
//!
//! A board, and all that it gives out, is generic over four names: one for each ledger, and one for what it was opened
//! with. A value of another board has other names, so it does not fit.

use std::marker::Brand;

/// The opening of a board: the words of its map, the configuration, and the state that its machine was in.
pub trait Naming {
    ghost use Rattle.sm_map.specs.Models.{WordsModel};
    ghost use Rattle.sm_placement.specs.Setup.{Setup};
    ghost use Rattle.sm_protocol.specs.State.{State};

    ghost words: { WordsModel };

    ghost setup: { Setup };

    ghost opened: { State };
}

impl Naming for Brand {
    ghost use Rattle.sm_executor.specs.Names.{no_words, no_setup, no_state};

    ghost words = { no_words };

    ghost setup = { no_setup };

    ghost opened = { no_state };
}
