//! Laws of reading. Each function does nothing: its contract is the law.

ghost use Rattle.std.specs.Prelude.{◌≡◌, ◌≤◌, ◌||◌, ℕ, List, ◌++◌, true, Some};
ghost use Rattle.vyrd_base.specs.declared.header.Header.{Header};
ghost use Rattle.vyrd_base.specs.declared.log.Entry.{Entry};
ghost use Rattle.vyrd_base.specs.declared.log.StartWord.{StartWord};
ghost use Rattle.std.specs.List.{AllByRecursion};
ghost use Rattle.vyrd_base.specs.Starts.{may_start};
ghost use Rattle.vyrd_base.specs.Reading.{Input, TextFault, has_any, reading};
ghost use Rattle.vyrd_text.specs.Written.{is_writable};
ghost use Rattle.vyrd_text.specs.Readers.{ReaderState, HasRead, so_far, whole};

/// What a reader has read is read for good: of all longer bytes, as bytes that may go on and as the
/// whole input, the header, the starting words and the entries begin alike, `end` stays the end,
/// and a fault of text stays the fault. With the first entry, or `end`, all starting words were
/// read.
pub fn read_for_good()
    ensures header { (reader : ReaderState) (bytes more : List ℕ) (h : Header)
        → 1 ≤ reader.max_lines → (reading (so_far reader) bytes).header ≡ Some h
        → (reading (so_far reader) (bytes ++ more)).header ≡ Some h }
    ensures entries { (reader : ReaderState) (bytes more : List ℕ) → 1 ≤ reader.max_lines
        → (grown : List Entry) × ((reading (so_far reader) (bytes ++ more)).entries
        ≡ (reading (so_far reader) bytes).entries ++ grown) }
    ensures start { (reader : ReaderState) (bytes more : List ℕ) → 1 ≤ reader.max_lines
        → (grown : List StartWord) × ((reading (so_far reader) (bytes ++ more)).starting
        ≡ (reading (so_far reader) bytes).starting ++ grown) }
    ensures begun { (reader : ReaderState) (bytes more : List ℕ) → 1 ≤ reader.max_lines
        → (has_any (reading (so_far reader) bytes).entries || (reading (so_far reader) bytes).ended)
        ≡ true
        → (reading (so_far reader) (bytes ++ more)).starting
        ≡ (reading (so_far reader) bytes).starting }
    ensures ended { (reader : ReaderState) (bytes more : List ℕ) → 1 ≤ reader.max_lines
        → (reading (so_far reader) bytes).ended ≡ true
        → (reading (so_far reader) (bytes ++ more)).ended ≡ true }
    ensures fault { (reader : ReaderState) (bytes more : List ℕ) (f : TextFault)
        → 1 ≤ reader.max_lines → (reading (so_far reader) bytes).fault ≡ Some f
        → reading (so_far reader) (bytes ++ more) ≡ reading (so_far reader) bytes }
    ensures whole_fault { (reader : ReaderState) (bytes more : List ℕ) (f : TextFault)
        → 1 ≤ reader.max_lines → (reading (so_far reader) bytes).fault ≡ Some f
        → reading (whole reader) (bytes ++ more) ≡ reading (so_far reader) bytes }
    ensures still_read { (reader : ReaderState) (bytes more : List ℕ) (f : TextFault)
        → 1 ≤ reader.max_lines → reader.fault ≡ Some f → HasRead reader bytes
        → HasRead reader (bytes ++ more) }
{}

/// What is read can be written: the starting words keep their rules, each method is of the header's
/// subject, and arguments that it doesn't have are 0.
pub fn read_can_be_written()
    ensures start { (input : Input) (bytes : List ℕ) (h : Header)
        → (reading input bytes).header ≡ Some h
        → may_start h (reading input bytes).starting ≡ true }
    ensures entries { (input : Input) (bytes : List ℕ) (h : Header)
        → (reading input bytes).header ≡ Some h
        → AllByRecursion (λ e. is_writable h.subject e ≡ true) (reading input bytes).entries }
{}
