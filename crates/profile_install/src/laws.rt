//! What holds of the content that a package makes.
ghost use Rattle.std.specs.Prelude.{◌≡◌, ◌+◌, ◌<◌, ◌^◌, List, ℕ, Err, Ok, Result, [], ◌∷◌};
ghost use Rattle.std.specs.List.{AllByRecursion};
ghost use Rattle.file_rows.specs.Change.{Fits, new_file};
ghost use Rattle.file_rows.specs.Content.{IsValid};
ghost use Rattle.file_rows.specs.declared.change.Change.{Change};
ghost use Rattle.file_rows.specs.declared.content.Content.{Content};
ghost use Rattle.file_rows.specs.declared.head.FileHead.{FileHead};
ghost use Rattle.file_rows.specs.declared.row.FileRow.{FileRow};
ghost use Rattle.fcp_codec.specs.Creation.{HoldsFilesAt};
ghost use Rattle.fcp_codec.specs.declared.fcp.Fcp.{Fcp};
ghost use Rattle.file_templates.specs.declared.template_row.Row.{Row};
ghost use Rattle.profile_install.specs.FirstFaulty.{HasGoodElements, IsPackageResult};
ghost use Rattle.profile_install.specs.NamedFiles.{IsNamed};
ghost use Rattle.profile_install.specs.Package.{PackageGives};
ghost use Rattle.profile_install.specs.declared.work.Refusal.{Refusal};
ghost use Rattle.profile_install.specs.TemplateFile.{described, described_master};

/// A template's file fits a valid content as a new file, where its directory is there; the MF alone
/// is a valid content. So each keeps the quota, and the files differ in path, SFI and name.
pub fn template_files_fit()
    ensures added { (content : Content) (directory : List ℕ) (row : Row) (given : Fcp)
        (head : FileHead) → IsValid content → HoldsFilesAt content.rows directory
        → described content.rows directory row given ≡ Ok head
        → Fits content (Change.FileAdd head) }
    ensures master { (row : Row) (given : Fcp) (head : FileHead)
        → described_master row given ≡ Ok head
        → IsValid (record { rows = new_file head ∷ []; pins = [] }) }
{}

/// Whatever the bytes of a package and the ICCID, they give an answer, and no other one: a content,
/// or the place and the result of the first faulty element.
pub fn one_answer_of_a_package()
    ensures there { (iccid bytes : List ℕ)
        → (answer : Result Content Refusal) × PackageGives iccid bytes answer }
    ensures alone { (iccid bytes : List ℕ) (one other : Result Content Refusal)
        → PackageGives iccid bytes one → PackageGives iccid bytes other → one ≡ other }
{}

/// A refusal has one of the five results, and names the first faulty element: in front of it stand
/// the elements that its place counts, and none of them has a fault.
pub fn refusals_name_the_first_faulty_element()
    ensures first { (iccid bytes : List ℕ) (refusal : Refusal)
        → PackageGives iccid bytes (Err refusal)
        → (before : ℕ) × (refusal.place ≡ before + 1) × HasGoodElements iccid bytes before }
    ensures number { (iccid bytes : List ℕ) (refusal : Refusal)
        → PackageGives iccid bytes (Err refusal) → IsPackageResult refusal.result }
{}

/// A package gives a content for one ICCID alone, that of its header.
pub fn packages_are_for_one_iccid()
    ensures { (one other bytes : List ℕ) (content another : Content)
        → PackageGives one bytes (Ok content) → PackageGives other bytes (Ok another)
        → one ≡ other }
{}

/// What a package gives is a content that a card may hold: its files are a tree under the MF and
/// differ in path, SFI and name, each PIN is at home in a directory that is there, and the files
/// keep the quota.
pub fn packages_give_valid_contents()
    ensures { (iccid bytes : List ℕ) (content : Content)
        → AllByRecursion (λ byte. byte < 2 ^ 8) bytes
        → PackageGives iccid bytes (Ok content) → IsValid content }
{}

/// A package gives no files but those that it names: each is at a position of a template whose
/// element has come, as the MF is, or has the identifier that a step of a file management element
/// gives, in the directory where the step stands.
pub fn a_package_gives_the_files_that_it_names()
    ensures { (iccid bytes : List ℕ) (content : Content) → PackageGives iccid bytes (Ok content)
        → AllByRecursion (λ (row : FileRow). IsNamed iccid bytes row.head.path) content.rows }
{}
