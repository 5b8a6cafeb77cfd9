//! The laws of the text form. Each function's contract is the law; none does anything when it runs.
ghost use Rattle.std.specs.Prelude.{◌≡◌, ◌⊎◌, ℕ, List, [], Some, flat_map, slice_get};
ghost use Rattle.htl_segment.specs.Bundles.{bundle, Splits};
ghost use Rattle.htl_segment.specs.Content.{Content};
ghost use Rattle.htl_segment.specs.declared.fault.Fault.{Fault};
ghost use Rattle.htl_text.specs.declared.fault.LineFault.{LineFault};
ghost use Rattle.htl_text.specs.Encoded.{Encodes, event_line, FirstFault, HasEvent};
ghost use Rattle.htl_text.specs.Encoded.{IsSegmentFault, kept, record_of};
ghost use Rattle.htl_text.specs.Lines.{text_lines};
ghost use Rattle.htl_text.specs.Texts.{segment_text};

/// A text encodes one list of segments or has one first fault, and never both.
pub fn a_text_is_read_in_one_way()
    ensures segments { (text : List ℕ) (ss ts : List Content) → Encodes text ss → Encodes text ts
        → ss ≡ ts }
    ensures fault { (text : List ℕ) (m n : ℕ) (f g : LineFault) → FirstFault text m f
        → FirstFault text n g → (m ≡ n) × (f ≡ g) }
    ensures not_both { (text : List ℕ) (ss : List Content) (n : ℕ) (f : LineFault)
        → Encodes text ss → FirstFault text n f → ⊥ }
    ensures some { (text : List ℕ) → ((ss : List Content) × Encodes text ss)
        ⊎ ((n : ℕ) × (f : LineFault) × FirstFault text n f) }
{}

/// Where the fault of a segment is about an event, the line that is named for it exists, and has the
/// event at that place of the segment.
pub fn a_fault_of_an_event_has_its_line()
    ensures { (text : List ℕ) (line place : ℕ) (fault : Fault)
        → (found : IsSegmentFault (text_lines text) line fault) → record_of fault ≡ Some place
        → HasEvent (text_lines text) (slice_get found.draft.events place)
        (event_line text line (LineFault.Segment fault)) }
{}

/// What was dumped is encoded to the same bytes: the texts of a bundle's segments, one after
/// another, encode these segments.
pub fn dumped_is_encoded_to_the_same_bytes()
    ensures { (bytes : List ℕ) (segments : List Content) → Splits bytes segments []
        → Encodes (flat_map segment_text segments) segments × (bundle segments ≡ bytes) }
{}

/// What was encoded is dumped to the same segments. They are those of the bytes, and their texts
/// encode them too. What is skipped in a text, and how its words are separated, changes nothing.
pub fn encoded_is_dumped_to_the_same_segments()
    ensures segments { (text : List ℕ) (ss ts : List Content) → Encodes text ss
        → Splits (bundle ss) ts [] → ts ≡ ss }
    ensures text { (text : List ℕ) (ss : List Content) → Encodes text ss
        → Encodes (flat_map segment_text ss) ss }
    ensures words { (a b : List ℕ) (ss : List Content) → Encodes a ss
        → kept (text_lines b) ≡ kept (text_lines a) → Encodes b ss }
{}
