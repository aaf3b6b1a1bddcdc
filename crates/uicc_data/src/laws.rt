ghost use Rattle.std.specs.Prelude.{◌≡◌, ◌≢◌, ◌≤◌, ◌+◌, ◌^◌, ◌++◌, ℕ, Bool, List, length, Some};
ghost use Rattle.std.specs.Prelude.{None, IsTrue};
ghost use Rattle.apdu_codec.specs.Command.{Apdu};
ghost use Rattle.file_rows.specs.Change.{with_body, with_record};
ghost use Rattle.file_rows.specs.Content.{IsValid};
ghost use Rattle.file_rows.specs.FileHead.{HasRecord};
ghost use Rattle.file_rows.specs.declared.change.Change.{Change};
ghost use Rattle.file_rows.specs.declared.content.Content.{Content};
ghost use Rattle.file_rows.specs.declared.mode.Mode.{Mode};
ghost use Rattle.file_rows.specs.declared.row.FileRow.{FileRow};
ghost use Rattle.uicc_channels.specs.Accepted.{IsDoneOrRefused};
ghost use Rattle.uicc_channels.specs.CommandRow.{decided};
ghost use Rattle.uicc_channels.specs.Session.{Suits, channel_at, open_channel};
ghost use Rattle.uicc_channels.specs.declared.chan.Chan.{Chan};
ghost use Rattle.uicc_channels.specs.declared.session.Session.{Session};
ghost use Rattle.uicc_data.specs.Binary.{read_binary_row, update_binary_row};
ghost use Rattle.uicc_channels.specs.CarriesOut.{CanCarryOut};
ghost use Rattle.uicc_data.specs.Data.{data_row};
ghost use Rattle.uicc_data.specs.Increase.{increase_row};
ghost use Rattle.uicc_data.specs.Moves.{MovesAlone, MovesAndWaits};
ghost use Rattle.uicc_data.specs.Number.{sum_of, number_spelled};
ghost use Rattle.uicc_data.specs.ReadBack.{ReadsBack, read_outcome};
ghost use Rattle.uicc_data.specs.Record.{read_record_row, update_record_row};
ghost use Rattle.uicc_data.specs.RecordReadBack.{ReadsRecordBack, record_read_outcome};
ghost use Rattle.uicc_data.specs.RecordWalk.{record_bytes};
ghost use Rattle.uicc_data.specs.Search.{holds_run, search_record_row};
ghost use Rattle.uicc_data.specs.WorksOn.{WritesWhereItWorks};

/// A card can carry out what each command on data comes to, accepted or refused, whatever its
/// access rules allow: a change fits its content, and its session goes on to suit its files.
pub fn cards_carry_out_data_commands()
    ensures read_binary { (content : Content) (allowed : List ℕ → Mode → Bool)
        (session : Session) (c : Apdu) → IsValid content → Suits session content.rows
        → CanCarryOut content
        (decided session (read_binary_row content.rows allowed session c)) }
    ensures update_binary { (content : Content) (allowed : List ℕ → Mode → Bool)
        (session : Session) (c : Apdu) → IsValid content → Suits session content.rows
        → CanCarryOut content
        (decided session (update_binary_row content.rows allowed session c)) }
    ensures read_record { (content : Content) (allowed : List ℕ → Mode → Bool)
        (session : Session) (c : Apdu) → IsValid content → Suits session content.rows
        → CanCarryOut content
        (decided session (read_record_row content.rows allowed session c)) }
    ensures update_record { (content : Content) (allowed : List ℕ → Mode → Bool)
        (session : Session) (c : Apdu) → IsValid content → Suits session content.rows
        → CanCarryOut content
        (decided session (update_record_row content.rows allowed session c)) }
    ensures search_record { (content : Content) (allowed : List ℕ → Mode → Bool)
        (session : Session) (c : Apdu) → IsValid content → Suits session content.rows
        → CanCarryOut content
        (decided session (search_record_row content.rows allowed session c)) }
    ensures increase { (content : Content) (allowed : List ℕ → Mode → Bool)
        (session : Session) (c : Apdu) → IsValid content → Suits session content.rows
        → CanCarryOut content
        (decided session (increase_row content.rows allowed session c)) }
    ensures by_instruction { (content : Content) (allowed : List ℕ → Mode → Bool)
        (session : Session) (c : Apdu) → IsValid content → Suits session content.rows
        → CanCarryOut content
        (decided session (data_row content.rows allowed session c)) }
{}

/// READ BINARY, READ RECORD and SEARCH RECORD change no file.
pub fn reads_change_no_file()
    ensures binary { (rows : List FileRow) (allowed : List ℕ → Mode → Bool)
        (session : Session) (c : Apdu)
        → (decided session (read_binary_row rows allowed session c)).change ≡ None }
    ensures record_read { (rows : List FileRow) (allowed : List ℕ → Mode → Bool)
        (session : Session) (c : Apdu)
        → (decided session (read_record_row rows allowed session c)).change ≡ None }
    ensures search { (rows : List FileRow) (allowed : List ℕ → Mode → Bool)
        (session : Session) (c : Apdu)
        → (decided session (search_record_row rows allowed session c)).change ≡ None }
{}

/// Of the session a command on data changes at most the current EF and the record pointer of its
/// channel. What waits on the channel is changed by SEARCH RECORD and INCREASE alone, where their
/// answer body comes to wait in its place.
pub fn data_commands_move_their_channel_alone()
    ensures read_binary { (rows : List FileRow) (allowed : List ℕ → Mode → Bool)
        (session : Session) (c : Apdu) (chan : Chan) → channel_at session c.channel ≡ Some chan
        → MovesAlone session c.channel chan
        (decided session (read_binary_row rows allowed session c)).session }
    ensures update_binary { (rows : List FileRow) (allowed : List ℕ → Mode → Bool)
        (session : Session) (c : Apdu) (chan : Chan) → channel_at session c.channel ≡ Some chan
        → MovesAlone session c.channel chan
        (decided session (update_binary_row rows allowed session c)).session }
    ensures read_record { (rows : List FileRow) (allowed : List ℕ → Mode → Bool)
        (session : Session) (c : Apdu) (chan : Chan) → channel_at session c.channel ≡ Some chan
        → MovesAlone session c.channel chan
        (decided session (read_record_row rows allowed session c)).session }
    ensures update_record { (rows : List FileRow) (allowed : List ℕ → Mode → Bool)
        (session : Session) (c : Apdu) (chan : Chan) → channel_at session c.channel ≡ Some chan
        → MovesAlone session c.channel chan
        (decided session (update_record_row rows allowed session c)).session }
    ensures search_record { (rows : List FileRow) (allowed : List ℕ → Mode → Bool)
        (session : Session) (c : Apdu) (chan : Chan) → channel_at session c.channel ≡ Some chan
        → MovesAndWaits session c.channel chan
        (decided session (search_record_row rows allowed session c)).session }
    ensures increase { (rows : List FileRow) (allowed : List ℕ → Mode → Bool)
        (session : Session) (c : Apdu) (chan : Chan) → channel_at session c.channel ≡ Some chan
        → MovesAndWaits session c.channel chan
        (decided session (increase_row rows allowed session c)).session }
{}

/// What UPDATE BINARY wrote last at a place, READ BINARY gives there.
pub fn written_bytes_are_read_back()
    ensures { (content : Content) (allowed : List ℕ → Mode → Bool) (session : Session)
        (write : Apdu) (change : Change) (read : Apdu) → IsValid content
        → ReadsBack content allowed session write change read
        → (read_outcome content allowed session write change read).answer.body ≡ write.body }
{}

/// What UPDATE RECORD wrote last as a record, READ RECORD gives by its number. A new record of a
/// cyclic file is the first.
pub fn written_records_are_read_back()
    ensures { (content : Content) (allowed : List ℕ → Mode → Bool) (session : Session)
        (write : Apdu) (change : Change) (read : Apdu) → IsValid content
        → Suits session content.rows
        → ReadsRecordBack content allowed session write change read
        → (record_read_outcome content allowed session write change read).answer.body
        ≡ write.body }
{}

/// Bytes hold others as a run just where they are what stands before it, the run, and what stands
/// behind it.
pub fn runs_stand_in_their_bytes()
    ensures inside { (run bytes : List ℕ) → IsTrue (holds_run run bytes)
        → (before : List ℕ) × (after : List ℕ) × (bytes ≡ before ++ run ++ after) }
    ensures found { (run before after : List ℕ)
        → IsTrue (holds_run run (before ++ run ++ after)) }
{}

/// The sum of two numbers that bytes spell is spelled in as many bytes as the first has, and there
/// is none just where it doesn't fit them.
pub fn sums_are_of_their_numbers()
    ensures sum { (number addend sum : List ℕ) → sum_of number addend ≡ Some sum
        → (length sum ≡ length number)
        × (number_spelled sum ≡ number_spelled number + number_spelled addend) }
    ensures none { (number addend : List ℕ) → sum_of number addend ≡ None
        → 256 ^ length number ≤ number_spelled number + number_spelled addend }
{}

/// A record that is written is those bytes, and every other record stays. A new record 1 of a
/// cyclic file is those bytes, and each record before it is one further, up to the last, which
/// goes.
pub fn written_records_stand_in_their_places()
    ensures written { (row : FileRow) (number : ℕ) (bytes : List ℕ)
        → length row.body ≡ row.head.size → HasRecord row.head number
        → length bytes ≡ row.head.record_len
        → record_bytes (with_body (with_record number bytes) row) number ≡ bytes }
    ensures others { (row : FileRow) (number other : ℕ) (bytes : List ℕ)
        → length row.body ≡ row.head.size → HasRecord row.head number
        → HasRecord row.head other → other ≢ number
        → length bytes ≡ row.head.record_len
        → record_bytes (with_body (with_record number bytes) row) other
        ≡ record_bytes row other }
    ensures first { (row : FileRow) (bytes : List ℕ) → length bytes ≡ row.head.record_len
        → record_bytes (with_body (with_record 0 bytes) row) 1 ≡ bytes }
    ensures later { (row : FileRow) (number : ℕ) (bytes : List ℕ)
        → length row.body ≡ row.head.size → HasRecord row.head (number + 1) → 1 ≤ number
        → length bytes ≡ row.head.record_len
        → record_bytes (with_body (with_record 0 bytes) row) (number + 1)
        ≡ record_bytes row number }
{}

/// Where a command on data is answered with a status word that doesn't accept it, that is the whole
/// answer, and nothing changes.
pub fn refused_data_commands_change_nothing()
    ensures { (rows : List FileRow) (allowed : List ℕ → Mode → Bool) (session : Session)
        (c : Apdu) → IsDoneOrRefused session (decided session (data_row rows allowed session c)) }
{}

/// A command on data changes at most the body of the file that it works on: the current EF of its
/// channel, or a file of its current directory by SFI.
pub fn data_commands_write_where_they_work()
    ensures { (rows : List FileRow) (allowed : List ℕ → Mode → Bool) (session : Session)
        (c : Apdu) → WritesWhereItWorks rows (open_channel session c.channel)
        (decided session (data_row rows allowed session c)).change }
{}
