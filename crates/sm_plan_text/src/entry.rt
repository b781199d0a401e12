//! Entries: values that stand in a list, or in a member, and are each read as one.
ghost use Rattle.std.specs.Prelude.{◌≡◌, [], List, Option, None, map, option_map, IfOk, OnOk};
ghost use Rattle.sm_plan_text.specs.Words.{Data, view, TextFault, Member, Scope, noted, found, list_in, items_of};
ghost use Rattle.sm_plan_text.specs.Words.{entries_in, entries_found, walked, faults_within, HasIds, IsKept};

use crate::outline::EarlyList;
use crate::{Cursor, Faults, Member};
use std::alloc::AllocError;

/// A value that is read of a document: the one that stands in a member, or an entry of a list there.
pub trait Entry: Drop {
    /// The value, if nothing is wrong with it.
    ghost value: { Scope → Data → Self };

    /// The faults that it has where it stands in this member, or in a list there.
    ghost faults_of: { Scope → Member → Data → List TextFault };

    /// Reads it where the cursor is, and notes what is wrong with it.
    fn read(cursor: &Cursor<'_, '_>, faults: &mut Faults) -> Result<Self, AllocError>
        ensures value { IfOk result (λ read. HasIds cursor.now.scope → faults.new.lowest ≡ None
            → read ≡ value cursor.now.scope (view cursor.now.tree.now)) }
        ensures faults { OnOk result (faults.new.lowest
            ≡ noted faults.old.lowest (faults_of cursor.now.scope cursor.now.member (view cursor.now.tree.now))) };
}

impl<'p, 't> Cursor<'p, 't> {
    /// Reads the value in a member.
    pub fn inner<T: Entry>(
        &self,
        member: Member,
        faults: &mut Faults,
    ) -> Result<Option<T>, AllocError>
        ensures value { IfOk result (λ inner. HasIds self.now.scope → faults.new.lowest ≡ None
            → inner ≡ option_map (T.value self.now.scope) (found member (view self.now.tree.now))) }
        ensures faults { OnOk result (faults.new.lowest
            ≡ noted faults.old.lowest (faults_within (T.faults_of self.now.scope member)
            (found member (view self.now.tree.now)))) }
    {
        let Some(tree) = self.find(member) else {
            return Ok(None);
        };
        let cursor = Cursor {
            tree,
            member,
            ..*self
        };
        Ok(Some(T::read(&cursor, faults)?))
    }

    /// Reads the entries of a list, front to back.
    pub fn list<T: Entry>(&self, member: Member, faults: &mut Faults) -> Result<Vec<T>, AllocError>
        ensures list { IfOk result (λ list. HasIds self.now.scope → faults.new.lowest ≡ None
            → list.items ≡ map (T.value self.now.scope) (entries_in member (view self.now.tree.now))) }
        ensures faults { OnOk result (faults.new.lowest
            ≡ noted faults.old.lowest (walked (λ _ entry. T.faults_of self.now.scope member entry) []
            (entries_in member (view self.now.tree.now)))) }
    {
        let items = self.entries(member);
        let mut list = Vec::with_capacity(self.alloc, items.len())?;
        for item in items {
            let cursor = Cursor {
                tree: item,
                member,
                ..*self
            };
            list.push(T::read(&cursor, faults)?)?;
        }
        Ok(list)
    }

    /// Reads the entries of a list that may be missing.
    pub fn list_or_none<T: Entry>(
        &self,
        member: Member,
        faults: &mut Faults,
    ) -> Result<Option<Vec<T>>, AllocError>
        ensures list { IfOk result (λ list. HasIds self.now.scope → faults.new.lowest ≡ None
            → option_map (λ list. list.items) list ≡ option_map (map (T.value self.now.scope))
            (list_in member (view self.now.tree.now))) }
        ensures faults { OnOk result (faults.new.lowest
            ≡ noted faults.old.lowest (walked (λ _ entry. T.faults_of self.now.scope member entry) []
            (entries_in member (view self.now.tree.now)))) }
    {
        match self.find(member) {
            Some(_) => Ok(Some(self.list(member, faults)?)),
            None => Ok(None),
        }
    }

    /// Reads the entries of a list that was read early, or that stands here and may be missing.
    pub fn list_or_early<T: Entry>(
        &self,
        member: Member,
        early: Option<EarlyList<T>>,
        faults: &mut Faults,
    ) -> Result<Option<Vec<T>>, AllocError>
        ensures list { (whole : Option Data) → IsKept (λ _ entry. T.faults_of self.now.scope member entry)
            (T.value self.now.scope) (HasIds self.now.scope) early (found member (view self.now.tree.now)) whole
            → IfOk result (λ list. HasIds self.now.scope → faults.new.lowest ≡ None
            → option_map (λ list. list.items) list ≡ option_map (map (T.value self.now.scope))
            (option_map items_of whole)) }
        ensures faults { (whole : Option Data) → IsKept (λ _ entry. T.faults_of self.now.scope member entry)
            (T.value self.now.scope) (HasIds self.now.scope) early (found member (view self.now.tree.now)) whole
            → OnOk result (faults.new.lowest
            ≡ noted faults.old.lowest (walked (λ _ entry. T.faults_of self.now.scope member entry) []
            (entries_found whole))) }
    {
        let Some(early) = early else {
            return self.list_or_none(member, faults);
        };
        faults.append(early.faults);
        Ok(Some(early.values))
    }
}
