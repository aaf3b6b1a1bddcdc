//! What holds of the coding, whoever reads or writes it.
ghost use Rattle.std.specs.Prelude.{◌≡◌, ◌≢◌, Ok, Err, Some, ◌<◌, ◌⊎◌, ◌↔◌, ℕ, List, Any, Contains};
ghost use Rattle.std.specs.Prelude.{IsTrue};
ghost use Rattle.plain_lists.specs.EachTwo.{EachTwo};
ghost use Rattle.ber_tlv.specs.Walk.{spelled};
ghost use Rattle.file_rows.specs.Change.{Fits};
ghost use Rattle.file_rows.specs.Content.{IsValid};
ghost use Rattle.file_rows.specs.declared.change.Change.{Change};
ghost use Rattle.file_rows.specs.declared.content.Content.{Content};
ghost use Rattle.file_rows.specs.declared.head.FileHead.{FileHead};
ghost use Rattle.file_rows.specs.declared.pin.PinRow.{PinRow};
ghost use Rattle.file_rows.specs.PinRow.{IsGlobalKey, IsLocalKey};
ghost use Rattle.fcp_codec.specs.Creation.{HoldsFilesAt, created, described_by, head_told, in_use};
ghost use Rattle.fcp_codec.specs.declared.creation.CreationFault.{CreationFault};
ghost use Rattle.fcp_codec.specs.declared.creation.Described.{Described};
ghost use Rattle.fcp_codec.specs.declared.fcp.Fcp.{Fcp};
ghost use Rattle.fcp_codec.specs.PinStatus.{counts_in, keys_of};
ghost use Rattle.fcp_codec.specs.Reading.{ReadsAsFcp};
ghost use Rattle.fcp_codec.specs.Writing.{objects_for, fcp_for, FitsFields};

/// What is written of a file is read again as it was.
pub fn written_is_read()
    ensures { (head : FileHead) (pins : List PinRow) → FitsFields head
        → ReadsAsFcp (spelled (objects_for head pins)) (fcp_for head) }
{}

/// The keys in the list of PINs of a directory's control parameters (ETSI TS 102 221, PIN status
/// template DO): the global keys `01` to `08`, `0A` to `0E` and `11` before the local keys `81` to
/// `88`, each ascending, and each key of a PIN that counts there once.
pub fn pins_are_listed_by_key()
    ensures ascending { (path : List ℕ) (pins : List PinRow)
        → EachTwo (λ one other. one < other) (keys_of path pins) }
    ensures listed { (path : List ℕ) (pins : List PinRow) (key : ℕ)
        → Contains (keys_of path pins) key
        ↔ ((IsGlobalKey key ⊎ IsLocalKey key)
        × Any (λ pin. (pin.key ≡ key) × IsTrue (counts_in path pin)) pins) }
{}

/// The head of a new file that parameters make fits a valid content as a new file, where its
/// directory is there. The head that was refused for what is in use, or for the quota, doesn't fit.
pub fn created_files_fit()
    ensures made { (content : Content) (directory : List ℕ) (fcp : Fcp) (head : FileHead)
        → IsValid content → HoldsFilesAt content.rows directory
        → created content.rows directory fcp ≡ Ok head → Fits content (Change.FileAdd head) }
    ensures refused { (content : Content) (directory : List ℕ) (fcp : Fcp) (told : Described)
        (fault : CreationFault) → IsValid content → HoldsFilesAt content.rows directory
        → described_by fcp ≡ Some told → created content.rows directory fcp ≡ Err fault
        → fault ≢ CreationFault.BadParameters → ¬ Fits content (Change.FileAdd
        (head_told (in_use content.rows directory fcp) directory fcp told)) }
{}
