ghost use Rattle.std.specs.Prelude.{◌≡◌, ◌≢◌, ◌≤◌, ◌/◌, ℕ, Bool, true, false, List, Ok, Option};
ghost use Rattle.std.specs.Prelude.{Some, None, IsNone, IsTrue};
ghost use Rattle.apdu_codec.specs.Command.{Apdu};
ghost use Rattle.apdu_codec.specs.declared.status.Sw.{Sw};
ghost use Rattle.fcp_codec.specs.Creation.{created};
ghost use Rattle.file_rows.specs.Change.{new_file};
ghost use Rattle.file_rows.specs.Content.{IsValid, file_at};
ghost use Rattle.file_rows.specs.FileHead.{is_linear};
ghost use Rattle.file_rows.specs.Path.{stands_below};
ghost use Rattle.file_rows.specs.declared.content.Content.{Content};
ghost use Rattle.file_rows.specs.declared.head.FileHead.{FileHead};
ghost use Rattle.file_rows.specs.declared.head.Life.{Life};
ghost use Rattle.file_rows.specs.declared.mode.Mode.{Mode};
ghost use Rattle.file_rows.specs.declared.row.FileRow.{FileRow};
ghost use Rattle.uicc_channels.specs.CarriesOut.{CanCarryOut, content_after};
ghost use Rattle.uicc_channels.specs.CommandOutcome.{refused};
ghost use Rattle.uicc_channels.specs.CommandRow.{decided, refusal_of};
ghost use Rattle.uicc_channels.specs.Session.{IsOpen, Suits, channel_at, open_channel};
ghost use Rattle.uicc_channels.specs.declared.chan.Chan.{Chan};
ghost use Rattle.uicc_channels.specs.declared.session.Session.{Session};
ghost use Rattle.uicc_admin.specs.Administered.{IsAdministered};
ghost use Rattle.uicc_admin.specs.Administration.{admin_row, is_administration};
ghost use Rattle.uicc_admin.specs.Create.{create_row, file_asked};
ghost use Rattle.uicc_admin.specs.Delete.{delete_row, named_to_delete, stands_there};
ghost use Rattle.uicc_admin.specs.FileState.{activate_row, deactivate_row, state_row};
ghost use Rattle.uicc_admin.specs.FileState.{terminate_row};
ghost use Rattle.uicc_admin.specs.NamedFile.{ef_in, ef_named};
ghost use Rattle.uicc_admin.specs.Pointers.{KeepsAllButPointer};
ghost use Rattle.uicc_admin.specs.Resize.{resize_row, size_asked};
ghost use Rattle.uicc_admin.specs.declared.create_command.NewFile.{NewFile};
ghost use Rattle.uicc_admin.specs.declared.resize.NewSize.{NewSize};

/// A card can carry out what each command of administration comes to, accepted or refused, whatever
/// its access rules allow: a change fits its content, and its session goes on to suit its files.
pub fn cards_carry_out_administration()
    ensures activate { (content : Content) (allowed : List ℕ → Mode → Bool) (session : Session)
        (c : Apdu) → IsValid content → Suits session content.rows
        → CanCarryOut content (decided session (activate_row content.rows allowed session c)) }
    ensures deactivate { (content : Content) (allowed : List ℕ → Mode → Bool) (session : Session)
        (c : Apdu) → IsValid content → Suits session content.rows
        → CanCarryOut content (decided session (deactivate_row content.rows allowed session c)) }
    ensures terminate { (content : Content) (allowed : List ℕ → Mode → Bool) (session : Session)
        (c : Apdu) → IsValid content → Suits session content.rows
        → CanCarryOut content (decided session (terminate_row content.rows allowed session c)) }
    ensures create { (content : Content) (allowed : List ℕ → Mode → Bool) (session : Session)
        (c : Apdu) → IsValid content → Suits session content.rows
        → CanCarryOut content (decided session (create_row content.rows allowed session c)) }
    ensures delete { (content : Content) (allowed : List ℕ → Mode → Bool) (session : Session)
        (c : Apdu) → IsValid content → Suits session content.rows
        → CanCarryOut content (decided session (delete_row content.rows allowed session c)) }
    ensures resize { (content : Content) (allowed : List ℕ → Mode → Bool) (session : Session)
        (c : Apdu) → IsValid content → Suits session content.rows
        → CanCarryOut content (decided session (resize_row content.rows allowed session c)) }
    ensures by_instruction { (content : Content) (allowed : List ℕ → Mode → Bool)
        (session : Session) (c : Apdu) → IsValid content → Suits session content.rows
        → CanCarryOut content (decided session (admin_row content.rows allowed session c)) }
{}

/// A refused command of administration changes nothing.
pub fn refused_administration_changes_nothing()
    ensures { (rows : List FileRow) (allowed : List ℕ → Mode → Bool) (session : Session) (c : Apdu)
        (sw : Sw) → refusal_of (admin_row rows allowed session c) ≡ Some sw
        → decided session (admin_row rows allowed session c) ≡ refused session sw }
{}

/// A command that asks for a state leaves the session as it is, and every file but the one that it
/// names.
pub fn states_change_alone()
    ensures session { (life : Life) (rows : List FileRow) (allowed : List ℕ → Mode → Bool)
        (session : Session) (c : Apdu)
        → (decided session (state_row life rows allowed session c)).session ≡ session }
    ensures others { (life : Life) (content : Content) (allowed : List ℕ → Mode → Bool)
        (session : Session) (c : Apdu) (row : FileRow) (path : List ℕ)
        → ef_named content.rows (open_channel session c.channel) c.body ≡ Some row
        → path ≢ row.head.path
        → file_at path (content_after content
        (decided session (state_row life content.rows allowed session c)).change).rows
        ≡ file_at path content.rows }
{}

/// CREATE FILE adds the file that its body describes to the channel's current directory, with a
/// body of FF, and leaves every other file and every other channel as it is. The channel's own
/// application stays, so a new application doesn't become the channel's.
pub fn created_files_come_alone()
    ensures added { (content : Content) (allowed : List ℕ → Mode → Bool) (session : Session)
        (c : Apdu) (directory : FileRow) (new : NewFile) (head : FileHead) → IsValid content
        → Suits session content.rows
        → file_at (open_channel session c.channel).dir content.rows ≡ Some directory
        → file_asked c.body ≡ Some new
        → created content.rows (open_channel session c.channel).dir new.fcp ≡ Ok head
        → refusal_of (create_row content.rows allowed session c) ≡ None
        → file_at head.path
        (content_after content
        (decided session (create_row content.rows allowed session c)).change).rows
        ≡ Some (new_file head) }
    ensures others { (content : Content) (allowed : List ℕ → Mode → Bool) (session : Session)
        (c : Apdu) (path : List ℕ) (row : FileRow) → IsValid content → Suits session content.rows
        → file_at path content.rows ≡ Some row
        → file_at path
        (content_after content
        (decided session (create_row content.rows allowed session c)).change).rows
        ≡ Some row }
    ensures other_channels { (rows : List FileRow) (allowed : List ℕ → Mode → Bool)
        (session : Session) (c : Apdu) (number : ℕ) → number ≢ c.channel
        → channel_at (decided session (create_row rows allowed session c)).session number
        ≡ channel_at session number }
    ensures application { (rows : List FileRow) (allowed : List ℕ → Mode → Bool)
        (session : Session) (c : Apdu) → Suits session rows → IsOpen session c.channel
        → (open_channel (decided session (create_row rows allowed session c)).session c.channel).app
        ≡ (open_channel session c.channel).app }
{}

/// DELETE FILE takes the file that it names away with all files below it, and leaves every other
/// file as it is. Afterwards no channel names what is gone, and every channel but the command's own
/// stands where it stood.
pub fn deleted_files_are_gone()
    ensures gone { (content : Content) (allowed : List ℕ → Mode → Bool) (session : Session)
        (c : Apdu) (row : FileRow) (path : List ℕ)
        → named_to_delete content.rows (open_channel session c.channel) c.body ≡ Some row
        → refusal_of (delete_row content.rows allowed session c) ≡ None
        → IsTrue (stands_below row.head.path path)
        → IsNone (file_at path (content_after content
        (decided session (delete_row content.rows allowed session c)).change).rows) }
    ensures others { (content : Content) (allowed : List ℕ → Mode → Bool) (session : Session)
        (c : Apdu) (row : FileRow) (path : List ℕ)
        → named_to_delete content.rows (open_channel session c.channel) c.body ≡ Some row
        → stands_below row.head.path path ≡ false
        → file_at path (content_after content
        (decided session (delete_row content.rows allowed session c)).change).rows
        ≡ file_at path content.rows }
    ensures unnamed { (content : Content) (allowed : List ℕ → Mode → Bool) (session : Session)
        (c : Apdu) (row : FileRow) (number : ℕ) → IsValid content → Suits session content.rows
        → named_to_delete content.rows (open_channel session c.channel) c.body ≡ Some row
        → refusal_of (delete_row content.rows allowed session c) ≡ None
        → stands_there row.head.path (channel_at
        (decided session (delete_row content.rows allowed session c)).session number)
        ≡ false }
    ensures other_channels { (rows : List FileRow) (allowed : List ℕ → Mode → Bool)
        (session : Session) (c : Apdu) (number : ℕ) → number ≢ c.channel
        → channel_at (decided session (delete_row rows allowed session c)).session number
        ≡ channel_at session number }
{}

/// RESIZE FILE leaves every file as it is but the one that it names. Every channel stays as it is
/// but for its record pointer, and none keeps one past the new end of a file of records.
pub fn resized_files_change_alone()
    ensures others { (content : Content) (allowed : List ℕ → Mode → Bool) (session : Session)
        (c : Apdu) (asked : NewSize) (row : FileRow) (path : List ℕ)
        → size_asked c.body ≡ Some asked
        → ef_in content.rows (open_channel session c.channel).dir asked.id ≡ Some row
        → path ≢ row.head.path
        → file_at path (content_after content
        (decided session (resize_row content.rows allowed session c)).change).rows
        ≡ file_at path content.rows }
    ensures channels { (rows : List FileRow) (allowed : List ℕ → Mode → Bool)
        (session : Session) (c : Apdu) (number : ℕ) (chan : Chan)
        → channel_at session number ≡ Some chan
        → KeepsAllButPointer chan
        (channel_at (decided session (resize_row rows allowed session c)).session number) }
    ensures pointers { (rows : List FileRow) (allowed : List ℕ → Mode → Bool)
        (session : Session) (c : Apdu) (asked : NewSize) (row : FileRow) (number : ℕ)
        (chan : Chan) → size_asked c.body ≡ Some asked
        → ef_in rows (open_channel session c.channel).dir asked.id ≡ Some row
        → is_linear row.head.kind ≡ true
        → refusal_of (resize_row rows allowed session c) ≡ None
        → channel_at (decided session (resize_row rows allowed session c)).session number
        ≡ Some chan
        → chan.file ≡ Some row.head.path
        → chan.pointer ≤ asked.size / row.head.record_len }
{}

/// No file that is there is changed by a command of administration but the one that it works on:
/// the EF that it names or the current one, and with DELETE FILE all that is below it.
pub fn administration_changes_what_it_names()
    ensures { (content : Content) (allowed : List ℕ → Mode → Bool) (session : Session) (c : Apdu)
        (path : List ℕ) (row : FileRow) → IsValid content → Suits session content.rows
        → is_administration c.ins ≡ true
        → file_at path content.rows ≡ Some row
        → ¬ IsAdministered content.rows (open_channel session c.channel) c path
        → file_at path (content_after content
        (decided session (admin_row content.rows allowed session c)).change).rows
        ≡ Some row }
{}
