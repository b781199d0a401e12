//! The writer of replies.
ghost use Rattle.std.specs.Prelude.{◌≡◌, ◌∷◌, ◌++◌, [], OnErr, OnOk, decimal};
ghost use Rattle.json.specs.Token.{begin_array, begin_object, boolean, end_array, end_object, key, null, number};
ghost use Rattle.json.specs.Token.{string};
ghost use Rattle.json.specs.Reads.{token_of};
ghost use Rattle.json.specs.Lex.{tokens};
ghost use Rattle.json.specs.Print.{IsPrintable, print};
ghost use Rattle.std.specs.Str.{IsUtf8};
ghost use Rattle.smpland_lines.specs.Members.{object};
ghost use Rattle.smpland_lines.specs.Writer.{HasNoLineFeed};

use json::Token;
use std::alloc::{AllocError, Global};
use std::marker::Model;

/// The members of a reply, as far as they are written.
#[derive(Drop)]
pub struct Writer {
    members: json::Writer,
}

impl Model for Writer {
    ghost use Rattle.std.specs.Prelude.{◌≡◌, []};
    ghost use Rattle.smpland_lines.specs.Writer.{Written, written_code};

    ghost Value = { Written };

    ghost coded = { written_code };

    ghost view = { λ w. record { tokens = w.members.tokens } };

    ghost invariant = { λ w. w.members.before ≡ [] };
}

impl Writer {
    /// Returns a writer that has written nothing.
    pub fn new(alloc: Global) -> Writer
        ensures { result.tokens ≡ [] }
    {
        Writer {
            members: json::Writer::new(Vec::new(alloc)),
        }
    }

    /// Returns the text of what is written.
    pub fn into_text(self) -> Vec<u8>
        ensures text { result.items ≡ print self.tokens }
        ensures one_line { HasNoLineFeed (print (object self.tokens)) }
        ensures reads_back { tokens (print self.tokens) ≡ self.tokens }
        ensures utf8 { IsUtf8 (print self.tokens) }
    {
        let Writer { members } = self;
        members.into_inner()
    }

    /// Writes a token.
    pub fn token(&mut self, token: Token<'_>) -> Result<(), AllocError>
        requires { IsPrintable (token_of token) }
        ensures ok { OnOk result (self.new.tokens ≡ self.old.tokens ++ token_of token.entry ∷ []) }
        ensures err { OnErr result (self.new.tokens ≡ self.old.tokens) }
    {
        self.members.token(token)
    }

    /// Writes the start of an object.
    pub fn begin_object(&mut self) -> Result<(), AllocError>
        ensures ok { OnOk result (self.new.tokens ≡ self.old.tokens ++ begin_object ∷ []) }
        ensures err { OnErr result (self.new.tokens ≡ self.old.tokens) }
    {
        self.members.begin_object()
    }

    /// Writes the end of an object.
    pub fn end_object(&mut self) -> Result<(), AllocError>
        ensures ok { OnOk result (self.new.tokens ≡ self.old.tokens ++ end_object ∷ []) }
        ensures err { OnErr result (self.new.tokens ≡ self.old.tokens) }
    {
        self.members.end_object()
    }

    /// Writes the start of a list.
    pub fn begin_array(&mut self) -> Result<(), AllocError>
        ensures ok { OnOk result (self.new.tokens ≡ self.old.tokens ++ begin_array ∷ []) }
        ensures err { OnErr result (self.new.tokens ≡ self.old.tokens) }
    {
        self.members.begin_array()
    }

    /// Writes the end of a list.
    pub fn end_array(&mut self) -> Result<(), AllocError>
        ensures ok { OnOk result (self.new.tokens ≡ self.old.tokens ++ end_array ∷ []) }
        ensures err { OnErr result (self.new.tokens ≡ self.old.tokens) }
    {
        self.members.end_array()
    }

    /// Writes the name of a member.
    pub fn key(&mut self, name: &str) -> Result<(), AllocError>
        ensures ok { OnOk result (self.new.tokens ≡ self.old.tokens ++ key name.now ∷ []) }
        ensures err { OnErr result (self.new.tokens ≡ self.old.tokens) }
    {
        self.members.key(name)
    }

    /// Writes a text.
    pub fn string(&mut self, text: &str) -> Result<(), AllocError>
        ensures ok { OnOk result (self.new.tokens ≡ self.old.tokens ++ string text.now ∷ []) }
        ensures err { OnErr result (self.new.tokens ≡ self.old.tokens) }
    {
        self.members.string(text)
    }

    /// Writes a whole number.
    pub fn u64(&mut self, count: u64) -> Result<(), AllocError>
        ensures ok { OnOk result (self.new.tokens ≡ self.old.tokens ++ number (decimal count) ∷ []) }
        ensures err { OnErr result (self.new.tokens ≡ self.old.tokens) }
    {
        self.members.u64(count)
    }

    /// Writes a truth value.
    pub fn boolean(&mut self, value: bool) -> Result<(), AllocError>
        ensures ok { OnOk result (self.new.tokens ≡ self.old.tokens ++ boolean value ∷ []) }
        ensures err { OnErr result (self.new.tokens ≡ self.old.tokens) }
    {
        self.members.boolean(value)
    }

    /// Writes that there is nothing.
    pub fn null(&mut self) -> Result<(), AllocError>
        ensures ok { OnOk result (self.new.tokens ≡ self.old.tokens ++ null ∷ []) }
        ensures err { OnErr result (self.new.tokens ≡ self.old.tokens) }
    {
        self.members.null()
    }
}
