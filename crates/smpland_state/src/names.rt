//! Names of two epochs.
ghost use Rattle.std.specs.Prelude.{◌≡◌, IfOk, OnOk, OnErr, Some, None, option_map, slice_get};
ghost use Rattle.std.specs.Option.{option_copied};
ghost use Rattle.smpland_state.specs.Names.{no_names, value_of, with_name, in_next_epoch};

use indexmap::IndexMap;
use std::alloc::{AllocError, Global};
use std::marker::Model;

/// Names with what each stands for: those of the present epoch, and those of the one before.
#[derive(Drop)]
pub struct Names<V> {
    alloc: Global,
    present: IndexMap<String, V>,
    before: IndexMap<String, V>,
}

impl<V> Model for Names<V> {
    ghost use Rattle.smpland_state.specs.Entries.{by_bytes};
    ghost use Rattle.smpland_state.specs.Names.{NamesModel};

    ghost Value = { NamesModel V };

    ghost view = { λ n. record { present = by_bytes n.present.entries; before = by_bytes n.before.entries } };
}

impl<V: Copy> Names<V> {
    /// No names.
    pub fn new(alloc: Global) -> Names<V>
        ensures { result ≡ no_names }
    {
        Names {
            alloc,
            present: IndexMap::new(alloc),
            before: IndexMap::new(alloc),
        }
    }

    /// What a name stands for.
    pub fn get(&self, name: &str) -> Option<V>
        ensures { result ≡ value_of self.now name.now }
    {
        let present = self.present.get(name).copied();
        let before = self.before.get(name).copied();
        present.or(before)
    }

    /// The name of the present epoch with `index` names before it.
    pub fn present_at(&self, index: usize) -> Option<&str>
        ensures { option_copied result ≡ option_map (λ e. e.0) (slice_get self.now.present index) }
    {
        match self.present.get_index(index) {
            Some((name, _)) => Some(name.as_str()),
            None => None,
        }
    }

    /// Lets a name of the present epoch that stands for nothing yet stand for a value. At want of memory nothing
    /// changes.
    pub fn insert(&mut self, name: &str, value: V) -> Result<(), AllocError>
        requires { value_of self.old name.now ≡ None }
        ensures named { OnOk result (self.new ≡ with_name self.old name.now value) }
        ensures unchanged { OnErr result (self.new ≡ self.old) }
    {
        let key = String::from_str(self.alloc, name)?;
        self.present.insert(key, value)?;
        Ok(())
    }

    /// Turns to the next epoch: the present names are those of the epoch before, whose own are gone.
    pub fn begin_epoch(&mut self)
        ensures { self.new ≡ in_next_epoch self.old }
    {
        let alloc = self.alloc;
        let present = std::mem::replace(&mut self.present, IndexMap::new(alloc));
        self.before = present;
    }
}
