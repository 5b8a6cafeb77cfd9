//! Encoding: the bytes that a text encodes.
ghost use Rattle.std.specs.Prelude.{◌≡◌, ◌<◌, ◌≤◌, ◌∷◌, ℕ, List, Ok, length, position};
ghost use Rattle.std.specs.Prelude.{IfErr, IfOk, IfSome, MatchResult};
ghost use Rattle.std.specs.Str.Lines.{strip_carriage_return};
ghost use Rattle.htl_segment.specs.Bundles.{bundle};
ghost use Rattle.htl_segment.specs.Content.{Content};
ghost use Rattle.htl_text.specs.declared.fault.LineFault.{LineFault};
ghost use Rattle.htl_text.specs.Encoded.{Encodes, event_lines, FirstFault, IsOrNoMemory};
ghost use Rattle.htl_text.specs.Encoded.{IsRefused, kept};
ghost use Rattle.htl_text.specs.Lines.{lines_of_text, without_mark};
ghost use Rattle.htl_text.specs.Steps.{read, nothing_read, NeedsSegment, Reports};
ghost use Rattle.htl_text.specs.Steps.{StartsWithFrame, StartsWithLine};
ghost use Rattle.htl_text.specs.Words.{is_feed, line_end};

use crate::draft::Draft;
use crate::fault::{LineFault, TextFault};
use crate::item::Item;
use crate::lines::item;
use crate::values::frame_value;
use crate::words::is_skipped;
use htl_event::Event;
use std::alloc::Global;
use std::marker::Model;

/// The bytes of the segments that a text encodes, one after another.
///
/// Of a text that encodes none it reports the first fault. A line that can't be read is a fault at
/// that line. A segment is tested where it ends, at the next one or at the end of the text, and its
/// fault is reported at its own line; it is the one that `Segment::build` gives, or `S3`. Memory is
/// taken only where the first line that isn't skipped begins a segment.
pub fn encode(alloc: Global, text: &[u8]) -> Result<Vec<u8>, TextFault>
    // What comes out are the bytes of segments that the text encodes.
    ensures found { IfOk result (λ bytes. (segments : List Content)
        × Encodes text.now segments × (bytes.items ≡ bundle segments)) }
    // What the text encodes comes out, unless memory runs out.
    ensures only { (segments : List Content) → Encodes text.now segments → MatchResult result
        (λ bytes. bytes.items ≡ bundle segments)
        (λ refused. refused ≡ TextFault.NoMemory) }
    // What is reported is the first fault, or out of memory where the text begins with a segment.
    ensures cause { IfErr result (λ refused. IsRefused text.now refused) }
    // The first fault is reported, unless memory runs out.
    ensures fault { (line : ℕ) (fault : LineFault) → FirstFault text.now line fault
        → MatchResult result
        (λ _. ⊥)
        (λ refused. IsOrNoMemory line fault refused) }
{
    read_text(alloc, without_mark(text))
}

/// The text without a byte order mark at its beginning.
#[tactic(auto, unfolding(crate::specs::Lines::without_mark))]
pub(crate) fn without_mark(text: &[u8]) -> &[u8]
    ensures { result.now ≡ without_mark text.entry.now }
{
    text.strip_prefix(b"\xef\xbb\xbf").unwrap_or(text)
}

/// Reads the lines of a text, one after the other.
fn read_text(alloc: Global, text: &[u8]) -> Result<Vec<u8>, TextFault>
    ensures outcome { MatchResult result
        (λ bytes. read 0 (lines_of_text text.now) nothing_read ≡ Ok bytes.items)
        (λ fault. Reports (read 0 (lines_of_text text.now) nothing_read) fault) }
    ensures memory { IfErr result (λ fault. NeedsSegment text.now fault) }
{
    let mut reader = Reader::new(alloc);
    let mut rest = text;
    let mut number = 0;
    while !rest.is_empty() {
        number += 1;
        if let Some((address, others)) = split_frame(rest) {
            reader.add_frame(number, address)?;
            rest = others;
        } else {
            let (line, others) = split_line(rest);
            reader.read_line(number, line)?;
            rest = others;
        }
    }
    reader.finish()
}

/// The length of `0x` and 16 digits.
const ADDRESS_LEN: usize = 18;

/// The address of a frame's line as `dump` prints it, if the text begins with one, and the text
/// after that line. Most lines of a dumped text are such lines.
fn split_frame(text: &[u8]) -> Option<(u64, &[u8])>
    ensures line { IfSome result (λ found. StartsWithFrame text.entry.now found.0 found.1.now) }
    ensures shorter { IfSome result (λ found. length found.1.now < length text.entry.now) }
{
    let (address, rest) = text.strip_prefix(b"  ")?.split_at_checked(ADDRESS_LEN)?;
    let rest = rest.strip_prefix(b"\n")?;
    Some((frame_value(address)?, rest))
}

/// The first line of a text, and the text after it.
pub(crate) fn split_line(text: &[u8]) -> (&[u8], &[u8])
    requires { 0 < length text.now }
    ensures line { StartsWithLine text.now result.0.now result.1.now }
    ensures kept { kept (lines_of_text text.now) ≡ kept (result.0.now ∷ lines_of_text result.1.now) }
    ensures events { (segment n : ℕ) → event_lines segment n (lines_of_text text.now)
        ≡ event_lines segment n (result.0.now ∷ lines_of_text result.1.now) }
    ensures shorter { length result.1.now < length text.now }
{
    let (line, rest) = text.split_at(line_end(text));
    match rest.split_first() {
        Some((_, rest)) => (without_return(line), rest),
        None => (without_return(line), rest),
    }
}

/// The place of the first line feed, or the length.
#[tactic(auto, using(crate::proofs::FirstLine::line_end_found))]
fn line_end(text: &[u8]) -> usize
    ensures value { result ≡ line_end text.now }
    ensures bound { result ≤ length text.now }
{
    first_feed(text).unwrap_or(text.len())
}

fn first_feed(text: &[u8]) -> Option<usize>
    ensures { result ≡ position is_feed text.now }
{
    text.iter().position(|byte| *byte == b'\n')
}

fn without_return(line: &[u8]) -> &[u8]
    ensures { result.now ≡ strip_carriage_return line.now }
{
    line.strip_suffix(b"\r").unwrap_or(line)
}

/// The segments that the lines so far encode.
#[derive(Drop)]
struct Reader {
    alloc: Global,
    /// The bytes of the segments that are ended.
    bytes: Vec<u8>,
    draft: Option<Draft>,
}

impl Model for Reader {
    ghost use Rattle.htl_text.specs.Steps.{Progress, progress};

    ghost Value = { Progress };

    ghost view = { λ r. progress r.bytes.items r.draft };
}

impl Reader {
    ghost use Rattle.std.specs.Prelude.{◌≡◌, None, Ok, IfErr, MatchResult};
    ghost use Rattle.htl_text.specs.Lines.{words_of};
    ghost use Rattle.htl_text.specs.Steps.{after_event, after_frame, after_item, after_words};
    ghost use Rattle.htl_text.specs.Steps.{closed, nothing_read, HasCause, Reports};

    fn new(alloc: Global) -> Reader
        ensures { result ≡ nothing_read }
    {
        Reader {
            alloc,
            bytes: Vec::new(alloc),
            draft: None,
        }
    }

    /// Takes in the line that has this number.
    #[tactic(auto, unfolding(crate::specs::Steps::after_words))]
    fn read_line(&mut self, number: u64, line: &[u8]) -> Result<(), TextFault>
        ensures outcome { MatchResult result
            (λ _. after_words number (words_of line.now) self.old ≡ Ok self.new)
            (λ fault. Reports (after_words number (words_of line.now) self.old) fault) }
        ensures memory { IfErr result (λ fault. HasCause self.old fault) }
    {
        if is_skipped(line) {
            return Ok(());
        }
        match item(line) {
            Ok(item) => self.take(number, item),
            Err(fault) => Err(TextFault::Line(number, LineFault::Form(fault))),
        }
    }

    fn take(&mut self, number: u64, item: Item) -> Result<(), TextFault>
        ensures outcome { MatchResult result
            (λ _. after_item number item self.old ≡ Ok self.new)
            (λ fault. Reports (after_item number item self.old) fault) }
        ensures memory { IfErr result (λ fault. HasCause self.old fault) }
    {
        match item {
            Item::Segment(head) => {
                self.close()?;
                self.draft = Some(Draft::new(self.alloc, number, head));
                Ok(())
            }
            Item::Event(event) => self.add_event(number, event),
            Item::Frame(address) => self.add_frame(number, address),
        }
    }

    fn add_event(&mut self, number: u64, event: Event<()>) -> Result<(), TextFault>
        ensures outcome { MatchResult result
            (λ _. after_event number event self.old.bytes self.old.draft ≡ Ok self.new)
            (λ fault. Reports (after_event number event self.old.bytes self.old.draft) fault) }
        ensures memory { IfErr result (λ fault. HasCause self.old fault) }
    {
        match &mut self.draft {
            Some(draft) => Ok(draft.add_event(event)?),
            None => Err(TextFault::Line(number, LineFault::Order)),
        }
    }

    fn add_frame(&mut self, number: u64, address: u64) -> Result<(), TextFault>
        ensures outcome { MatchResult result
            (λ _. after_frame number address self.old.bytes self.old.draft ≡ Ok self.new)
            (λ fault. Reports (after_frame number address self.old.bytes self.old.draft) fault) }
        ensures memory { IfErr result (λ fault. HasCause self.old fault) }
    {
        if let Some(draft) = &mut self.draft {
            if draft.add_frame(address) {
                return Ok(());
            }
        }
        Err(TextFault::Line(number, LineFault::Order))
    }

    /// Ends the segment whose lines are being read, if there is one.
    #[tactic(auto, unfolding(crate::specs::Steps::closed))]
    fn close(&mut self) -> Result<(), TextFault>
        ensures outcome { MatchResult result
            (λ _. (closed self.old ≡ Ok self.new.bytes) × (self.new.draft ≡ None))
            (λ fault. Reports (closed self.old) fault) }
        ensures memory { IfErr result (λ fault. HasCause self.old fault) }
    {
        match self.draft.take() {
            Some(draft) => draft.encode(self.alloc, &mut self.bytes),
            None => Ok(()),
        }
    }

    /// The bytes of all segments.
    fn finish(mut self) -> Result<Vec<u8>, TextFault>
        ensures outcome { MatchResult result
            (λ bytes. closed self ≡ Ok bytes.items)
            (λ fault. Reports (closed self) fault) }
        ensures memory { IfErr result (λ fault. HasCause self fault) }
    {
        self.close()?;
        Ok(self.bytes)
    }
}
