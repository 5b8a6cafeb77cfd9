//! The lines so far, and the object of the line that is being written.

ghost use Rattle.std.specs.Prelude.{◌≡◌, ◌++◌, ◌∷◌, [], OnOk, codes, decimal, string_bytes};
ghost use Rattle.json.specs.Json.{string};
ghost use Rattle.json.specs.Print.{print};
ghost use Rattle.json.specs.Token.{begin_array, begin_object, end_array, end_object};
ghost use Rattle.json.specs.Token as token;
ghost use Rattle.htl_json.specs.Records.{count_fields, field_of, quantity, shown_address};
ghost use Rattle.htl_json.specs.Records.{shown_handle, tag_fields};
ghost use Rattle.htl_json.specs.Writing.{AddsFields, AddsTokens, AreRead, EndsLine};
ghost use Rattle.htl_report.specs.Parts.{shown_tag};

use htl_report::{write_address, write_tag};
use json::Writer;
use std::alloc::{AllocError, Global};
use std::mem;

#[derive(Drop)]
pub(crate) struct Lines {
    alloc: Global,
    /// The writer. It writes behind the lines that are whole.
    pub(crate) writer: Writer,
    /// A text that is made here before it is written as a string.
    scratch: String,
}

impl Lines {
    pub(crate) fn new(alloc: Global) -> Lines
        ensures before { result.writer.before ≡ [] }
        ensures tokens { result.writer.tokens ≡ [] }
    {
        Lines {
            alloc,
            writer: Writer::new(Vec::new(alloc)),
            scratch: String::new(alloc),
        }
    }

    /// The bytes of all lines. The last one was ended.
    #[tactic(auto, unfolding(json::specs::Print::print_from))]
    pub(crate) fn into_bytes(self) -> Vec<u8>
        requires { self.writer.tokens ≡ [] }
        ensures { result.items ≡ self.writer.before }
    {
        let Lines { writer, .. } = self;
        writer.into_inner()
    }

    pub(crate) fn begin_object(&mut self) -> Result<(), AllocError>
        ensures { OnOk result (AddsTokens self.old self.new (begin_object ∷ [])) }
    {
        self.writer.begin_object()
    }

    pub(crate) fn end_object(&mut self) -> Result<(), AllocError>
        ensures { OnOk result (AddsTokens self.old self.new (end_object ∷ [])) }
    {
        self.writer.end_object()
    }

    pub(crate) fn begin_array(&mut self) -> Result<(), AllocError>
        ensures { OnOk result (AddsTokens self.old self.new (begin_array ∷ [])) }
    {
        self.writer.begin_array()
    }

    pub(crate) fn end_array(&mut self) -> Result<(), AllocError>
        ensures { OnOk result (AddsTokens self.old self.new (end_array ∷ [])) }
    {
        self.writer.end_array()
    }

    /// Writes the name of a field, whose value is written next.
    pub(crate) fn key(&mut self, name: &str) -> Result<(), AllocError>
        ensures added { OnOk result (AddsTokens self.old self.new (token.key name.now ∷ [])) }
        ensures scratch { self.new.scratch ≡ self.old.scratch }
    {
        self.writer.key(name)
    }

    /// Ends the object that is the line's value, and the line.
    pub(crate) fn end_line(&mut self) -> Result<(), AllocError>
        ensures { OnOk result
            (EndsLine self.old self.new (self.old.writer.tokens ++ end_object ∷ [])) }
    {
        self.end_object()?;
        let mut text = self.take_text();
        text.push(b'\n')?;
        self.writer = Writer::new(text);
        Ok(())
    }

    /// The bytes so far. The writer has none of them afterwards.
    fn take_text(&mut self) -> Vec<u8>
        ensures items { result.items ≡ self.old.writer.before ++ print self.old.writer.tokens }
        ensures read { AreRead self.old.writer.tokens }
    {
        let blank = Writer::new(Vec::new(self.alloc));
        mem::replace(&mut self.writer, blank).into_inner()
    }

    pub(crate) fn text(&mut self, name: &str, text: &str) -> Result<(), AllocError>
        ensures { OnOk result
            (AddsFields self.old self.new ((name.now, string text.now) ∷ [])) }
    {
        self.key(name)?;
        self.write_string(text)
    }

    fn write_string(&mut self, text: &str) -> Result<(), AllocError>
        ensures { OnOk result (AddsTokens self.old self.new (token.string text.now ∷ [])) }
    {
        self.writer.string(text)
    }

    pub(crate) fn number(&mut self, name: &str, number: u64) -> Result<(), AllocError>
        ensures { OnOk result
            (AddsFields self.old self.new ((name.now, quantity number) ∷ [])) }
    {
        self.key(name)?;
        self.write_number(number)
    }

    fn write_number(&mut self, number: u64) -> Result<(), AllocError>
        ensures { OnOk result
            (AddsTokens self.old self.new (token.number (decimal number) ∷ [])) }
    {
        self.writer.u64(number)
    }

    /// Writes a number where there is one.
    pub(crate) fn optional(&mut self, name: &str, number: Option<u64>) -> Result<(), AllocError>
        ensures { OnOk result (AddsFields self.old self.new (field_of name.now number)) }
    {
        match number {
            Some(number) => self.number(name, number),
            None => Ok(()),
        }
    }

    pub(crate) fn handle(&mut self, name: &str, handle: u32) -> Result<(), AllocError>
        ensures { OnOk result
            (AddsFields self.old self.new ((name.now, shown_handle handle) ∷ [])) }
    {
        self.scratch.clear();
        write!(self.scratch, "0x{handle:x}")?;
        self.scratch_as(name)
    }

    /// Writes an address or an object.
    pub(crate) fn address(&mut self, name: &str, address: u64) -> Result<(), AllocError>
        ensures { OnOk result
            (AddsFields self.old self.new ((name.now, shown_address address) ∷ [])) }
    {
        self.scratch.clear();
        write_address(&mut self.scratch, address)?;
        self.scratch_as(name)
    }

    /// Writes a tag as it is shown, and its bytes.
    #[tactic(auto, unfolding(crate::specs::Records::tag_fields))]
    pub(crate) fn tag(&mut self, tag: [u8; 4]) -> Result<(), AllocError>
        ensures { OnOk result (AddsFields self.old self.new (tag_fields tag)) }
    {
        self.tag_text(tag)?;
        let bytes = hex::encode(self.alloc, tag)?;
        self.text("bytes", bytes.as_str())
    }

    fn tag_text(&mut self, tag: [u8; 4]) -> Result<(), AllocError>
        ensures { OnOk result
            (AddsFields self.old self.new ((codes "tag", string (shown_tag tag)) ∷ [])) }
    {
        self.scratch.clear();
        write_tag(&mut self.scratch, &tag)?;
        self.scratch_as("tag")
    }

    /// Writes the text that was made, as a field of this name.
    fn scratch_as(&mut self, name: &str) -> Result<(), AllocError>
        ensures { OnOk result (AddsFields self.old self.new
            ((name.now, string (string_bytes self.old.scratch)) ∷ [])) }
    {
        self.key(name)?;
        self.write_scratch()
    }

    fn write_scratch(&mut self) -> Result<(), AllocError>
        ensures { OnOk result
            (AddsTokens self.old self.new (token.string (string_bytes self.old.scratch) ∷ [])) }
    {
        self.writer.string(self.scratch.as_str())
    }

    #[tactic(auto, unfolding(crate::specs::Records::count_fields))]
    pub(crate) fn counts(&mut self, references: u64, dereferences: u64) -> Result<(), AllocError>
        ensures { OnOk result
            (AddsFields self.old self.new (count_fields references dereferences)) }
    {
        self.number("references", references)?;
        self.number("dereferences", dereferences)
    }
}
