ghost use Rattle.std.specs.Prelude.{◌≡◌, ◌≢◌, ◌<◌, ◌≤◌, ◌↔◌, [], Some, Contains, slice_index_or, ℕ};
ghost use Rattle.std.specs.Prelude.{List, length};
ghost use Rattle.file_rows.specs.declared.change.Change.{Change};
ghost use Rattle.notify_list.specs.declared.note.Note.{Note};
ghost use Rattle.port_table.specs.Ports.{StandsOn};
ghost use Rattle.record_codec.specs.Apply.{apply, heads_after};
ghost use Rattle.record_codec.specs.FitsCard.{FitsCard};
ghost use Rattle.record_codec.specs.IsDurable.{IsDurable};
ghost use Rattle.record_codec.specs.Reading.{record_read};
ghost use Rattle.record_codec.specs.Sizes.{Codes, HasCoding, HasSizes};
ghost use Rattle.record_codec.specs.Spelling.{spelling};
ghost use Rattle.record_codec.specs.Heads.{held_content, head_of};
ghost use Rattle.record_codec.specs.Local.{TakesNote, TouchesContent, TouchesHead, TouchesPort};
ghost use Rattle.record_codec.specs.Takes.{TakesRecord};
ghost use Rattle.record_codec.specs.declared.durable.Durable.{Durable};
ghost use Rattle.record_codec.specs.declared.record.Record.{Record};

/// A record leaves alone what it doesn't name: the content of each profile that it neither puts,
/// changes nor takes away, the head of each that it neither puts, names nor takes away, the port of
/// each that it neither puts on one nor takes from one, and each pending notification that it
/// doesn't take away. A change of a content leaves all heads alone, with the ports and the
/// notifications; a nickname leaves the ports, the notifications and the contents alone; a
/// notification that goes leaves all others of these alone. What a record does beside the contents
/// depends on no content.
pub fn records_are_local()
    ensures contents { (durable : Durable) (entry : Record) (profile : ℕ)
        → length durable.contents ≡ length durable.heads.profiles
        → ¬ TouchesContent entry profile
        → held_content profile (apply durable entry) ≡ held_content profile durable }
    ensures profiles { (durable : Durable) (entry : Record) (profile : ℕ)
        → ¬ TouchesHead entry profile
        → head_of profile (apply durable entry).heads.profiles
        ≡ head_of profile durable.heads.profiles }
    ensures ports { (durable : Durable) (entry : Record) (profile port : ℕ)
        → FitsCard durable entry
        → ¬ TouchesPort entry profile
        → StandsOn (apply durable entry).heads.ports profile port
        ↔ StandsOn durable.heads.ports profile port }
    ensures notes { (durable : Durable) (entry : Record) (note : Note)
        → ¬ TakesNote entry note
        → Contains durable.heads.notes.list note
        → Contains (apply durable entry).heads.notes.list note }
    ensures heads { (durable : Durable) (profile : ℕ) (change : Change)
        → (apply durable (Record.Content profile change)).heads ≡ durable.heads }
    ensures nickname { (durable : Durable) (profile : ℕ) (nickname : List ℕ)
        → ((apply durable (Record.Name profile nickname)).heads.ports ≡ durable.heads.ports)
        × ((apply durable (Record.Name profile nickname)).heads.notes ≡ durable.heads.notes)
        × ((apply durable (Record.Name profile nickname)).contents ≡ durable.contents) }
    ensures note_gone { (durable : Durable) (number : ℕ)
        → ((apply durable (Record.NoteGone number)).heads.ports ≡ durable.heads.ports)
        × ((apply durable (Record.NoteGone number)).heads.profiles ≡ durable.heads.profiles)
        × ((apply durable (Record.NoteGone number)).contents ≡ durable.contents) }
    ensures alone { (durable : Durable) (entry : Record)
        → (apply durable entry).heads ≡ heads_after durable.heads entry }
{}

/// Bytes are read as a record exactly where they are its coding.
pub fn reading_is_of_codings()
    ensures { (bytes : List ℕ) (entry : Record) → ((i : ℕ) → slice_index_or bytes i 0 < 256)
        → (record_read bytes ≡ Some (entry, [])) ↔ Codes bytes entry }
{}

/// A record has one coding, and a coding is that of one record.
pub fn codings_are_unique()
    ensures entry { (bytes : List ℕ) (one other : Record)
        → Codes bytes one → Codes bytes other → one ≡ other }
    ensures coding { (one other : List ℕ) (entry : Record)
        → Codes one entry → Codes other entry → one ≡ other }
{}

/// A record that fits what a card holds has room in its coding, so that it can be put.
pub fn fitting_records_have_sizes()
    ensures { (durable : Durable) (entry : Record) → FitsCard durable entry → HasSizes entry }
{}

/// The coding of a record that fits what a card holds has at most 77,600 bytes. The longest are
/// those of a profile whose files fill the quota.
pub fn fitting_records_are_short()
    ensures { (durable : Durable) (entry : Record) → FitsCard durable entry → HasCoding entry
        → length (spelling entry) ≤ 77600 }
{}

/// Just when a record fits what a card holds, by its kind.
pub fn records_fit_by_kind()
    ensures { (durable : Durable) (entry : Record) → IsDurable durable
        → FitsCard durable entry ↔ TakesRecord durable entry }
{}
