//! JSON that is written token by token.
ghost use Rattle.std.specs.Prelude.{IsUtf8, ◌≡◌, ◌++◌, ◌∷◌, [], OnOk, decimal};
ghost use Rattle.json.specs.Token.{begin_array, begin_object, end_array, end_object, key, null, number, string};
ghost use Rattle.json.specs.Print.{print};
ghost use Rattle.json.specs.Lex.{tokens};
ghost use Rattle.wit_json.specs.Numbers.{HaveShortNumbers};

use json::Writer;
use std::alloc::{AllocError, Global};
use std::marker::Model;

/// The JSON written so far, which contracts see as its tokens. Its numbers are of 64 bits.
pub struct Output {
    writer: Writer,
    alloc: Global,
    ghost alone: { writer.before ≡ [] },
}

impl Drop for Output {
    fn drop(self) {
        let Output {
            writer: _,
            alloc: _,
        } = self;
    }
}

impl Model for Output {
    ghost use Rattle.std.specs.Prelude.{IsUtf8, List};
    ghost use Rattle.json.specs.Token.{Token, tokens_code};
    ghost use Rattle.wit_json.specs.Numbers.{HaveShortNumbers};

    ghost Value = { List Token };

    ghost coded = { tokens_code };

    ghost view = { λ o. o.writer.tokens };

    ghost invariant = { λ o. HaveShortNumbers o.writer.tokens };
}

#[tactic(auto, using(crate::proofs::Short::short_written))]
impl Output {
    /// No tokens.
    pub fn new(alloc: Global) -> Output
        ensures { result ≡ [] }
    {
        Output {
            writer: Writer::new(Vec::new(alloc)),
            alloc,
        }
    }

    /// The allocator.
    pub fn alloc(&self) -> Global {
        self.alloc
    }

    /// The text, in which a reader finds these tokens.
    pub fn into_bytes(self) -> Vec<u8>
        ensures text { result.items ≡ print self }
        ensures read { tokens result.items ≡ self }
        ensures utf8 { IsUtf8 result.items }
        ensures short { HaveShortNumbers self }
    {
        let Output { writer, alloc: _ } = self;
        writer.into_inner()
    }

    /// `{`.
    pub fn begin_object(&mut self) -> Result<(), AllocError>
        ensures { OnOk result (self.new ≡ self.old ++ begin_object ∷ []) }
    {
        self.writer.begin_object()
    }

    /// `}`.
    pub fn end_object(&mut self) -> Result<(), AllocError>
        ensures { OnOk result (self.new ≡ self.old ++ end_object ∷ []) }
    {
        self.writer.end_object()
    }

    /// `[`.
    pub fn begin_array(&mut self) -> Result<(), AllocError>
        ensures { OnOk result (self.new ≡ self.old ++ begin_array ∷ []) }
    {
        self.writer.begin_array()
    }

    /// `]`.
    pub fn end_array(&mut self) -> Result<(), AllocError>
        ensures { OnOk result (self.new ≡ self.old ++ end_array ∷ []) }
    {
        self.writer.end_array()
    }

    /// The key of a member.
    pub fn key(&mut self, name: &str) -> Result<(), AllocError>
        ensures { OnOk result (self.new ≡ self.old ++ key name.now ∷ []) }
    {
        self.writer.key(name)
    }

    /// A string.
    pub fn string(&mut self, text: &str) -> Result<(), AllocError>
        ensures { OnOk result (self.new ≡ self.old ++ string text.now ∷ []) }
    {
        self.writer.string(text)
    }

    /// A number, in decimal digits.
    pub fn number(&mut self, n: u64) -> Result<(), AllocError>
        ensures { OnOk result (self.new ≡ self.old ++ number (decimal n) ∷ []) }
    {
        self.writer.u64(n)
    }

    /// `null`.
    pub fn null(&mut self) -> Result<(), AllocError>
        ensures { OnOk result (self.new ≡ self.old ++ null ∷ []) }
    {
        self.writer.null()
    }
}
