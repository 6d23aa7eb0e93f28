ghost use Rattle.std.specs.Prelude.{◌≡◌, []};

use json::Writer;
use std::alloc::{AllocError, Global};

/// The initial room of a line in bytes. Most lines fit into it.
const LINE_ROOM: usize = 512;

/// A line of JSON that is being written into memory.
///
/// A call writes a member, or a part of a member, after the bytes that were written before. The caller writes braces and brackets in pairs.
/// Every call that writes fails if no memory is left. Then the line is incomplete, and the caller must drop it.
#[derive(Drop)]
pub struct Line {
    writer: Writer,
    ghost alone: { writer.before ≡ [] },
}

impl Line {
    ghost use Rattle.std.specs.Prelude.{◌++◌, ◌∷◌, IfOk, OnOk};
    ghost use Rattle.json.specs.Print.{print};
    ghost use Rattle.json.specs.Token as token;
    ghost use Rattle.capture_json.specs.Members.{integer, whole_number};
    ghost use Rattle.capture_json.specs.Tokens.{array_begun, array_ended, object_begun, object_ended, push, put, tokens_in};
    ghost use Rattle.serde_json.specs.Data.{boolean, null, string};

    /// Returns an empty line.
    ///
    /// # Errors
    ///
    /// `AllocError` if no memory is left.
    pub fn new(alloc: Global) -> Result<Line, AllocError>
        ensures { IfOk result (λ line. tokens_in line ≡ []) }
    {
        let bytes = Vec::with_capacity(alloc, LINE_ROOM)?;
        Ok(Line {
            writer: Writer::new(bytes),
        })
    }

    /// Writes a member that is a whole number.
    ///
    /// # Errors
    ///
    /// `AllocError` if no memory is left.
    #[tactic(auto, unfolding(crate::specs::Tokens::put))]
    pub fn put_number(&mut self, name: &str, value: u64) -> Result<(), AllocError>
        ensures { OnOk result (tokens_in self.new ≡ put name.now (whole_number value) (tokens_in self.old)) }
    {
        self.writer.key(name)?;
        self.writer.u64(value)
    }

    /// Writes a member that is a whole number, which may be negative.
    ///
    /// # Errors
    ///
    /// `AllocError` if no memory is left.
    #[tactic(auto, unfolding(crate::specs::Tokens::put))]
    pub fn put_integer(&mut self, name: &str, value: i64) -> Result<(), AllocError>
        ensures { OnOk result (tokens_in self.new ≡ put name.now (integer value) (tokens_in self.old)) }
    {
        self.writer.key(name)?;
        self.writer.i64(value)
    }

    /// Writes a member that is a text.
    ///
    /// # Errors
    ///
    /// `AllocError` if no memory is left.
    #[tactic(auto, unfolding(crate::specs::Tokens::put, crate::specs::Tokens::push))]
    pub fn put_text(&mut self, name: &str, text: &str) -> Result<(), AllocError>
        ensures { OnOk result (tokens_in self.new ≡ put name.now (string text.now) (tokens_in self.old)) }
    {
        self.writer.key(name)?;
        self.push_text(text)
    }

    /// Writes a member that is `null`.
    ///
    /// # Errors
    ///
    /// `AllocError` if no memory is left.
    #[tactic(auto, unfolding(crate::specs::Tokens::put))]
    pub fn put_null(&mut self, name: &str) -> Result<(), AllocError>
        ensures { OnOk result (tokens_in self.new ≡ put name.now null (tokens_in self.old)) }
    {
        self.writer.key(name)?;
        self.writer.null()
    }

    /// Writes a member that is `true` or `false`.
    ///
    /// # Errors
    ///
    /// `AllocError` if no memory is left.
    #[tactic(auto, unfolding(crate::specs::Tokens::put))]
    pub fn put_boolean(&mut self, name: &str, value: bool) -> Result<(), AllocError>
        ensures { OnOk result (tokens_in self.new ≡ put name.now (boolean value) (tokens_in self.old)) }
    {
        self.writer.key(name)?;
        self.writer.boolean(value)
    }

    /// Writes the name and the opening brace of a member that is an object.
    ///
    /// # Errors
    ///
    /// `AllocError` if no memory is left.
    pub fn begin_object(&mut self, name: &str) -> Result<(), AllocError>
        ensures { OnOk result (tokens_in self.new ≡ object_begun name.now (tokens_in self.old)) }
    {
        self.writer.key(name)?;
        self.writer.begin_object()
    }

    /// Writes the closing brace of an object.
    ///
    /// # Errors
    ///
    /// `AllocError` if no memory is left.
    pub fn end_object(&mut self) -> Result<(), AllocError>
        ensures { OnOk result (tokens_in self.new ≡ object_ended (tokens_in self.old)) }
    {
        self.writer.end_object()
    }

    /// Writes the name and the opening bracket of a member that is an array.
    ///
    /// # Errors
    ///
    /// `AllocError` if no memory is left.
    pub fn begin_array(&mut self, name: &str) -> Result<(), AllocError>
        ensures { OnOk result (tokens_in self.new ≡ array_begun name.now (tokens_in self.old)) }
    {
        self.writer.key(name)?;
        self.writer.begin_array()
    }

    /// Writes the closing bracket of an array.
    ///
    /// # Errors
    ///
    /// `AllocError` if no memory is left.
    pub fn end_array(&mut self) -> Result<(), AllocError>
        ensures { OnOk result (tokens_in self.new ≡ array_ended (tokens_in self.old)) }
    {
        self.writer.end_array()
    }

    /// Writes an item of an array that is a text.
    ///
    /// # Errors
    ///
    /// `AllocError` if no memory is left.
    #[tactic(auto, unfolding(crate::specs::Tokens::push))]
    pub fn push_text(&mut self, text: &str) -> Result<(), AllocError>
        ensures { OnOk result (tokens_in self.new ≡ push (string text.now) (tokens_in self.old)) }
    {
        self.writer.string(text)
    }

    /// Writes the opening brace of an object. The object is an item of an array, or it is the whole line.
    ///
    /// # Errors
    ///
    /// `AllocError` if no memory is left.
    pub fn begin_item(&mut self) -> Result<(), AllocError>
        ensures { OnOk result (tokens_in self.new ≡ tokens_in self.old ++ token.begin_object ∷ []) }
    {
        self.writer.begin_object()
    }

    /// Returns the bytes of the line.
    pub fn into_bytes(self) -> Vec<u8>
        ensures { result.items ≡ print (tokens_in self) }
    {
        let Line { writer, .. } = self;
        writer.into_inner()
    }
}
