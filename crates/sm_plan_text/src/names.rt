//! Names with their numbers.
ghost use Rattle.std.specs.Prelude.{◌≡◌, [], OnOk, string_bytes};
ghost use Rattle.sm_plan_text.specs.Words.{bytes_eq, insert_key, number_named};

use indexmap::IndexSet;
use std::alloc::{AllocError, Global};
use std::marker::Model;

/// Names, each with the number of those before it.
pub struct Names {
    set: IndexSet<String>,
}

impl Drop for Names {
    fn drop(self) {
        let Names { set: _set } = self;
    }
}

impl Model for Names {
    ghost use Rattle.std.specs.Prelude.{ℕ, List, map, string_bytes};

    ghost Value = { List (List ℕ) };

    ghost view = { λ names. map string_bytes names.set.keys };
}

impl Names {
    /// Makes a table of no names.
    pub fn new(alloc: Global) -> Self
        ensures { result ≡ [] }
    {
        Names {
            set: IndexSet::new(alloc),
        }
    }

    /// Returns the number of a name.
    pub fn find(&self, name: &str) -> Option<usize>
        ensures { result ≡ number_named self.now name.now }
    {
        self.set.get_index_of(name)
    }

    /// Adds a name, unless it is there.
    #[tactic(auto, using(crate::proofs::NameLemmas::insert_bytes))]
    pub fn insert(&mut self, name: String) -> Result<(), AllocError>
        ensures { OnOk result (self.new ≡ insert_key bytes_eq self.old (string_bytes name)) }
    {
        self.set.insert(name)?;
        Ok(())
    }
}
