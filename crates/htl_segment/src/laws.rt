//! The laws of the format, and of the events of key sets. Each function's contract is the law; none
//! does anything when it runs.
ghost use Rattle.std.specs.Prelude.{◌≡◌, ◌≢◌, ◌↔◌, ℕ, Bool, List, [], ◌++◌, length, None, Some};
ghost use Rattle.byteorder.specs.Endian.{little_number};
ghost use Rattle.htl_segment.specs.Numbers.{IsBytes};
ghost use Rattle.htl_segment.specs.Content.{Content, Fits};
ghost use Rattle.htl_segment.specs.Encoding.{encoding, Encodes, BeginsWith};
ghost use Rattle.htl_segment.specs.Faults.{first_fault};
ghost use Rattle.htl_segment.specs.Bundles.{Splits, BundleFault, IsRest};
ghost use Rattle.htl_segment.specs.TraceLaws.{RunsGrow, MembersAgree, ApartCountsAddUp};
ghost use Rattle.htl_segment.specs.TraceLaws.{LaterOfBothSets, SequencesStayApart};
ghost use Rattle.htl_segment.specs.declared.fault.Fault.{Fault};
ghost use Rattle.htl_segment.specs.declared.fault.Fault.TheVariants.{NoMemory};

/// A written segment is read again, whatever bytes follow it: `decode` gives a segment that the bytes
/// begin with, and they begin with the written one and with no other.
pub fn written_is_read_again()
    ensures read { (bytes rest : List ℕ) (s : Content) → Encodes bytes s
        → BeginsWith (bytes ++ rest) (length bytes) s }
    ensures nothing_else { (bytes rest : List ℕ) (s t : Content) (n : ℕ) → Encodes bytes s
        → BeginsWith (bytes ++ rest) n t → (n ≡ length bytes) × (t ≡ s) }
    ensures no_fault { (bytes rest : List ℕ) (s : Content) → Encodes bytes s
        → first_fault (bytes ++ rest) ≡ None }
{}

/// No encoding is a proper prefix of another.
pub fn no_encoding_begins_another()
    ensures { (a rest : List ℕ) (s t : Content) → Encodes a s → Encodes (a ++ rest) t
        → rest ≡ [] }
{}

/// Each segment that the format can encode has one encoding, and no two segments have the same.
pub fn one_encoding()
    ensures some { (s : Content) → Fits s → Encodes (encoding s) s }
    ensures one { (a b : List ℕ) (s : Content) → Encodes a s → Encodes b s → a ≡ b }
    ensures of_one { (a : List ℕ) (s t : Content) → Encodes a s → Encodes a t → s ≡ t }
{}

/// Bytes have a first fault exactly where they begin with no encoding.
pub fn faults_where_nothing_is_encoded()
    ensures { (bytes : List ℕ) → IsBytes bytes
        → (first_fault bytes ≡ None) ↔ ((n : ℕ) × (s : Content) × BeginsWith bytes n s) }
{}

/// Out of memory is never the first fault of bytes: whoever gets it knows that no rule was broken.
pub fn want_of_memory_breaks_no_rule()
    ensures { (bytes : List ℕ) → first_fault bytes ≢ Some NoMemory }
{}

/// Two lists of bytes of one length with one number, the lowest byte first, are equal.
pub fn one_number_one_bytes()
    ensures { (a b : List ℕ) → IsBytes a → IsBytes b → length a ≡ length b
        → little_number (length a) a ≡ little_number (length b) b → a ≡ b }
{}

/// Bytes are the bundle of one list of segments or have one first fault, and never both. What a
/// splitter hands out and what it keeps depend on the bytes alone, and not on how they were cut.
pub fn a_bundle_is_read_in_one_way()
    ensures segments { (bytes : List ℕ) (ss ts : List Content) → Splits bytes ss []
        → Splits bytes ts [] → ss ≡ ts }
    ensures fault { (bytes : List ℕ) (m n : ℕ) (f g : Fault) → BundleFault bytes m f
        → BundleFault bytes n g → (m ≡ n) × (f ≡ g) }
    ensures not_both { (bytes : List ℕ) (ss : List Content) (n : ℕ) (f : Fault) → Splits bytes ss []
        → BundleFault bytes n f → ⊥ }
    ensures pieces { (bytes rest left : List ℕ) (ss ts : List Content)
        → Splits bytes ss rest → IsRest rest → Splits bytes ts left → IsRest left
        → (ss ≡ ts) × (rest ≡ left) }
{}

/// The events of a processor's segments up to one are those of the segments below it, and then those
/// of that segment.
pub fn runs_grow()
    ensures { RunsGrow }
{}

/// An event is in the list of a key set's events exactly where a segment with such a key has it.
pub fn members_agree()
    ensures { MembersAgree }
{}

/// Counts over two key sets that have no key in common add up.
pub fn apart_counts_add_up()
    ensures { ApartCountsAddUp }
{}

/// The latest event, mark, last exit and greatest sequence over two key sets are the later and the
/// greater of those over each, also where the sets have keys in common.
pub fn later_of_both_sets()
    ensures { (S R : ℕ → ℕ → Bool) (segments : List Content) → LaterOfBothSets S R segments }
{}

/// The events of each set of a trace's keys have sequences of their own.
pub fn sequences_stay_apart()
    ensures { SequencesStayApart }
{}
