//! Rules for the members of an object, and the faults of one that breaks them.
ghost use Rattle.std.specs.Prelude.{◌≡◌, map, option_map, IfOk, OnOk};
ghost use Rattle.std.specs.List.{flat_map, cons_option};
ghost use Rattle.sm_plan_text.specs.Words.{view, members_view, as_number, text_of, noted, is_name, own_faults, row_of};
ghost use Rattle.sm_plan_text.specs.Words.{id_in, number_in, number_or};
ghost use Rattle.sm_plan_text.specs.Tables.{one, maybe, whole, known, texts_found, has_double_key, is_among};
ghost use Rattle.sm_plan_text.specs.Tables.{has_unknown_member, object_faults, row_faults, value_faults, entry_faults};
ghost use Rattle.sm_plan_text.specs.Tables.{by_word, text, list, keyed};
ghost use Rattle.sm_plan_text.specs.Rules.{has_form, number_faults, want_of, member_of};

use crate::cursor::{Scope, after_of, id, items_of, role_of, state_of};
use crate::limits::MOST_ASKS;
use crate::{Cursor, Faults, Member, Names, TextFault};
use indexmap::IndexSet;
use json_tree::Tree;
use sm_placement::is_name;
use sm_plan_code::MOST_RIGHTS;
use sm_server::{ServerId, ShardId};
use std::alloc::{AllocError, Global};

/// The form that the value of a member is to have.
#[derive(Clone, Copy)]
pub enum Form {
    /// A whole number up to a limit.
    Whole(u32),
    Flag,
    Name,
    /// A name that no server of the scope has.
    NewServer,
    /// A name that no shard of the scope has.
    NewShard,
    Role,
    When,
    State,
    /// The name of a shard of the scope.
    Shard,
    Server,
    ServerOrNull,
    /// A list of at most this many entries.
    List(usize),
    /// The names of shards to ask for.
    Asks,
    /// A list of rights, no two of which are to the same cell of a shard at a server.
    ByCell,
    /// A list of rights, no two of which are of the same shard.
    ByShard,
    /// A list of rights, no two of which are of the same server.
    ByServer,
    Signal,
    /// The format of a plan.
    Format,
    Object,
}

/// The form of a member that may not be missing, or of one that may.
#[derive(Clone, Copy)]
pub enum Rule {
    One(Member, Form),
    Maybe(Member, Form),
}

pub const SHARD: Rule = Rule::One(Member::Shard, Form::Shard);

pub const SERVER: Rule = Rule::One(Member::Server, Form::Server);

pub const ROLE: Rule = Rule::One(Member::Role, Form::Role);

pub const OTHER: Rule = Rule::One(Member::Other, Form::Server);

pub const FROM: Rule = Rule::One(Member::From, Form::Server);

pub const TO: Rule = Rule::One(Member::To, Form::Server);

pub const LISTED: Rule = Rule::Maybe(Member::Listed, Form::ServerOrNull);

impl Rule {
    fn member(self) -> Member
        ensures { result ≡ member_of self }
    {
        match self {
            Rule::One(member, _) | Rule::Maybe(member, _) => member,
        }
    }
}

/// Tells whether the text is of the form. No text is if the form asks for no text of its own.
#[tactic(auto, using(crate::proofs::NameLemmas::found_among))]
fn has_form(text: &str, form: Form, scope: &Scope<'_>) -> bool
    ensures { result ≡ has_form scope.now form text.now }
{
    match form {
        Form::Name => is_name(text),
        Form::NewServer => is_name(text) && scope.servers.find(text).is_none(),
        Form::NewShard => is_name(text) && scope.shards.find(text).is_none(),
        Form::Role => role_of(text).is_some(),
        Form::When => after_of(text).is_some(),
        Form::State => state_of(text).is_some(),
        _ => false,
    }
}

fn note_known(value: &Tree<'_>, member: Member, names: &Names, faults: &mut Faults)
    ensures { faults.new.lowest ≡ noted faults.old.lowest (entry_faults member names.now (view value.now)) }
{
    match value.as_str() {
        Some(text) if names.find(text).is_some() => {}
        Some(_) => faults.note(TextFault::UnknownName { member }),
        None => faults.note(TextFault::Shape { member }),
    }
}

fn note_all_known(items: &[Tree<'_>], member: Member, names: &Names, faults: &mut Faults)
    ensures { faults.new.lowest ≡ noted faults.old.lowest
        (flat_map (entry_faults member names.now) (map view items.now)) }
{
    for item in items {
        note_known(item, member, names, faults);
    }
}

/// Tells whether the key is a member with a rule.
fn has_rule(key: &str, rules: &[Rule]) -> bool
    ensures { result ≡ is_among (map (λ rule. text_of (member_of rule)) rules.now) key.now }
{
    rules.iter().any(|rule| key == rule.member().text())
}

/// Tells whether the key is the word, or a member with a rule.
fn is_known(key: &str, word: Option<Member>, rules: &[Rule]) -> bool
    ensures { result ≡ is_among (cons_option (option_map text_of word)
        (map (λ rule. text_of (member_of rule)) rules.now)) key.now }
{
    word.is_some_and(|word| key == word.text()) || has_rule(key, rules)
}

fn has_unknown(members: &[(&str, Tree<'_>)], word: Option<Member>, rules: &[Rule]) -> bool
    ensures { result ≡ has_unknown_member (cons_option (option_map text_of word)
        (map (λ rule. text_of (member_of rule)) rules.now)) (members_view members.now) }
{
    members.iter().any(|pair| !is_known(pair.0, word, rules))
}

/// Returns the key of an entry, which has none if one of the members is no text.
fn key_of<'t>(
    alloc: Global,
    entry: &Tree<'t>,
    members: &[Member],
) -> Result<Option<Vec<&'t str>>, AllocError>
    ensures { IfOk result (λ key. option_map (λ texts. map (λ s. s.now) texts.items) key
        ≡ texts_found members.now (view entry.now)) }
{
    let mut texts = Vec::with_capacity(alloc, members.len())?;
    for member in members {
        let Some(text) = entry.get(member.text()).and_then(|value| value.as_str()) else {
            return Ok(None);
        };
        texts.push(text)?;
    }
    Ok(Some(texts))
}

/// Tells whether two entries have the same key.
fn has_double_key(
    alloc: Global,
    entries: &[Tree<'_>],
    members: &[Member],
) -> Result<bool, AllocError>
    ensures { IfOk result (λ double. double ≡ has_double_key (map (texts_found members.now) (map view entries.now))) }
{
    let mut keys = IndexSet::new(alloc);
    for entry in entries {
        if let Some(key) = key_of(alloc, entry, members)? {
            if !keys.insert(key)? {
                return Ok(true);
            }
        }
    }
    Ok(false)
}

/// Each call notes what is wrong with the value at the cursor, which is to be what the call's name and arguments say.
impl<'p, 't> Cursor<'p, 't> {
    fn note_number(&self, form: Form, faults: &mut Faults)
        ensures { faults.new.lowest ≡ noted faults.old.lowest
            (number_faults self.now.scope form self.now.member (as_number (view self.now.tree.now))) }
    {
        let member = self.member;
        if !self.tree.is_number() {
            faults.note(TextFault::Shape { member });
            return;
        }
        match (form, self.tree.as_u64()) {
            (Form::Whole(limit), Some(n)) if n <= u64::from(limit) => {}
            (Form::Signal, Some(n)) if n < self.scope.signals as u64 => {}
            (Form::Format, Some(1 | 2)) => {}
            (Form::Signal, Some(_)) => faults.note(TextFault::UnknownName { member }),
            _ => faults.note(TextFault::Number { member }),
        }
    }

    fn note_text(&self, form: Form, faults: &mut Faults)
        ensures { faults.new.lowest ≡ noted faults.old.lowest
            (value_faults self.now.member (text (has_form self.now.scope form)) (view self.now.tree.now)) }
    {
        let member = self.member;
        match self.tree.as_str() {
            Some(text) if has_form(text, form, &self.scope) => {}
            _ => faults.note(TextFault::Shape { member }),
        }
    }

    #[tactic(auto, using(crate::proofs::ObjectLemmas::length_entries))]
    fn note_list(&self, limit: usize, faults: &mut Faults)
        ensures { faults.new.lowest ≡ noted faults.old.lowest
            (value_faults self.now.member (list limit) (view self.now.tree.now)) }
    {
        let member = self.member;
        match self.tree.as_array() {
            Some(items) if items.len() <= limit => {}
            Some(_) => faults.note(TextFault::TooMany { member }),
            None => faults.note(TextFault::Shape { member }),
        }
    }

    #[tactic(auto, using(crate::proofs::WalkLemmas::noted_append))]
    fn note_keyed(&self, key: &[Member], faults: &mut Faults) -> Result<(), AllocError>
        ensures { OnOk result (faults.new.lowest ≡ noted faults.old.lowest
            (value_faults self.now.member (keyed MOST_RIGHTS key.now) (view self.now.tree.now))) }
    {
        let member = self.member;
        self.note_list(MOST_RIGHTS, faults);
        let is_double = has_double_key(self.alloc, items_of(self.tree), key)?;
        faults.note_unless(!is_double, TextFault::Shape { member });
        Ok(())
    }

    #[tactic(auto, using(crate::proofs::WalkLemmas::noted_append))]
    fn note_value(&self, form: Form, faults: &mut Faults) -> Result<(), AllocError>
        ensures { OnOk result (faults.new.lowest ≡ noted faults.old.lowest
            (value_faults self.now.member (want_of self.now.scope form) (view self.now.tree.now))) }
    {
        let (tree, member, scope) = (self.tree, self.member, self.scope);
        match form {
            Form::Whole(_) | Form::Signal | Form::Format => self.note_number(form, faults),
            Form::Flag => {
                faults.note_unless(tree.as_bool().is_some(), TextFault::Shape { member })
            }
            Form::Name | Form::NewServer | Form::NewShard | Form::Role | Form::When | Form::State =>
                self.note_text(form, faults),
            Form::Shard => note_known(tree, member, scope.shards, faults),
            Form::ServerOrNull if tree.is_null() => {}
            Form::Server | Form::ServerOrNull => note_known(tree, member, scope.servers, faults),
            Form::List(limit) => self.note_list(limit, faults),
            Form::Asks => {
                self.note_list(MOST_ASKS, faults);
                note_all_known(items_of(tree), member, scope.shards, faults);
            }
            Form::ByCell => self.note_keyed(&[Member::Shard, Member::Server], faults)?,
            Form::ByShard => self.note_keyed(&[Member::Shard], faults)?,
            Form::ByServer => self.note_keyed(&[Member::Server], faults)?,
            Form::Object => faults.note_unless(tree.is_object(), TextFault::Shape { member }),
        }
        Ok(())
    }

    /// Notes the faults of one member of an object.
    pub fn note_row(&self, rule: &Rule, faults: &mut Faults) -> Result<(), AllocError>
        ensures { OnOk result (faults.new.lowest ≡ noted faults.old.lowest
            (row_faults (view self.now.tree.now) (row_of self.now.scope rule.now))) }
    {
        let (Rule::One(member, form) | Rule::Maybe(member, form)) = *rule;
        if let Some(tree) = self.find(member) {
            let cursor = Cursor {
                tree,
                member,
                ..*self
            };
            return cursor.note_value(form, faults);
        }
        if let Rule::One(..) = *rule {
            faults.note(TextFault::Shape { member });
        }
        Ok(())
    }

    /// Notes the faults of the members of an object.
    fn note_rows(&self, rules: &[Rule], faults: &mut Faults) -> Result<(), AllocError>
        ensures { OnOk result (faults.new.lowest
            ≡ noted faults.old.lowest (flat_map (row_faults (view self.now.tree.now))
            (map (row_of self.now.scope) rules.now))) }
    {
        for rule in rules {
            self.note_row(rule, faults)?;
        }
        Ok(())
    }

    /// Notes a fault unless it is an object that has no members beside its word and those with a rule.
    pub fn note_unknown(&self, word: Option<Member>, rules: &[Rule], faults: &mut Faults)
        ensures { faults.new.lowest ≡ noted faults.old.lowest
            (object_faults self.now.member (cons_option (option_map text_of word)
            (map (λ rule. text_of (member_of rule)) rules.now)) (view self.now.tree.now)) }
    {
        let member = self.member;
        match self.tree.as_object() {
            Some(members) if !has_unknown(members, word, rules) => {}
            _ => faults.note(TextFault::Shape { member }),
        }
    }

    /// Notes the faults of an object with these members, without those inside its members.
    pub fn note_own(&self, rules: &[Rule], faults: &mut Faults) -> Result<(), AllocError>
        ensures { OnOk result (faults.new.lowest
            ≡ noted faults.old.lowest (own_faults self.now.member (map (row_of self.now.scope) rules.now)
            (view self.now.tree.now))) }
    {
        self.note_unknown(None, rules, faults);
        self.note_rows(rules, faults)
    }

    /// Notes the faults of an object whose word has these rules, or has none if it may not stand there, without those
    /// inside its members.
    pub fn note_worded(
        &self,
        word: Member,
        rules: Option<&[Rule]>,
        faults: &mut Faults,
    ) -> Result<(), AllocError>
        ensures { OnOk result (faults.new.lowest
            ≡ noted faults.old.lowest (by_word self.now.member word (map (row_of self.now.scope))
            (view self.now.tree.now) (option_map (λ rules. rules.now) rules.entry))) }
    {
        let Some(rules) = rules else {
            let member = self.member;
            faults.note_unless(self.tree.is_object(), TextFault::Shape { member });
            faults.note(TextFault::Shape { member: word });
            return Ok(());
        };
        self.note_unknown(Some(word), rules, faults);
        self.note_rows(rules, faults)
    }
}

/// Each call returns what a member of an object says, and notes what is wrong with the member, which is found once.
impl<'p, 't> Cursor<'p, 't> {
    fn take_id(&self, member: Member, names: &Names, faults: &mut Faults) -> u32
        ensures id { result ≡ id_in names.now member (view self.now.tree.now) }
        ensures faults { faults.new.lowest ≡ noted faults.old.lowest
            (row_faults (view self.now.tree.now) (one member (known names.now))) }
    {
        let Some(text) = self.find(member).and_then(Tree::as_str) else {
            faults.note(TextFault::Shape { member });
            return 0;
        };
        let Some(number) = names.find(text) else {
            faults.note(TextFault::UnknownName { member });
            return 0;
        };
        id(number)
    }

    /// Returns the shard that a member is to name.
    pub fn take_shard(&self, member: Member, faults: &mut Faults) -> ShardId
        ensures shard { result ≡ id_in self.now.scope.shards.now member (view self.now.tree.now) }
        ensures faults { faults.new.lowest ≡ noted faults.old.lowest
            (row_faults (view self.now.tree.now) (one member (known self.now.scope.shards.now))) }
    {
        ShardId::new(self.take_id(member, self.scope.shards, faults))
    }

    /// Returns the server that a member is to name.
    pub fn take_server(&self, member: Member, faults: &mut Faults) -> ServerId
        ensures server { result ≡ id_in self.now.scope.servers.now member (view self.now.tree.now) }
        ensures faults { faults.new.lowest ≡ noted faults.old.lowest
            (row_faults (view self.now.tree.now) (one member (known self.now.scope.servers.now))) }
    {
        ServerId::new(self.take_id(member, self.scope.servers, faults))
    }

    /// Returns the whole number up to a limit that a member is to be, or the default if it is missing.
    pub fn take_number_or(
        &self,
        member: Member,
        limit: u32,
        default: u32,
        faults: &mut Faults,
    ) -> u32
        ensures number { result ≡ number_or default member limit (view self.now.tree.now) }
        ensures faults { faults.new.lowest ≡ noted faults.old.lowest
            (row_faults (view self.now.tree.now) (maybe member (whole limit))) }
    {
        let Some(tree) = self.find(member) else {
            return default;
        };
        let value = Cursor {
            tree,
            member,
            ..*self
        };
        value.note_number(Form::Whole(limit), faults);
        match tree.as_u64() {
            Some(n) if n <= u64::from(limit) => n as u32,
            _ => 0,
        }
    }

    /// Returns the whole number up to a limit that a member is to be.
    pub fn take_number(&self, member: Member, limit: u32, faults: &mut Faults) -> u32
        ensures number { result ≡ number_in member limit (view self.now.tree.now) }
        ensures faults { faults.new.lowest ≡ noted faults.old.lowest
            (row_faults (view self.now.tree.now) (one member (whole limit))) }
    {
        let is_missing = self.find(member).is_none();
        let number = self.take_number_or(member, limit, 0, faults);
        faults.note_unless(!is_missing, TextFault::Shape { member });
        number
    }
}
