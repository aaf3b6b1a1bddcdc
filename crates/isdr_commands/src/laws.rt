ghost use Rattle.std.specs.Prelude.{◌≡◌, ◌≢◌, ℕ, Bool, true, false, List, [], Option, None, Some};
ghost use Rattle.std.specs.Prelude.{Ok, Contains};
ghost use Rattle.std.specs.List.{AllByRecursion};
ghost use Rattle.file_rows.specs.Content.{IsValid};
ghost use Rattle.isdr_codec.specs.declared.request.Request.{Request};
ghost use Rattle.isdr_codec.specs.declared.request.Who.{Who};
ghost use Rattle.isdr_commands.specs.Installation.{install_refusal};
ghost use Rattle.isdr_commands.specs.Laws.{Displaces, IsAsked, IsCarriedOut, LeavesProfile};
ghost use Rattle.isdr_commands.specs.Laws.{NamesProfile, Resets};
ghost use Rattle.isdr_commands.specs.MemoryReset.{is_reset};
ghost use Rattle.isdr_commands.specs.Profiles.{keeps_enabled, profile_named};
ghost use Rattle.isdr_commands.specs.Request.{managed};
ghost use Rattle.notify_list.specs.Notes.{IsPending};
ghost use Rattle.notify_list.specs.declared.note.Note.{Note};
ghost use Rattle.port_table.specs.Ports.{KeepsPortRule, StandsNowhere, StandsOn};
ghost use Rattle.port_table.specs.Target.{target_port};
ghost use Rattle.record_codec.specs.Apply.{apply};
ghost use Rattle.record_codec.specs.FitsCard.{FitsCard};
ghost use Rattle.record_codec.specs.Heads.{IsHeld, head_of};
ghost use Rattle.record_codec.specs.IsDurable.{IsDurable, IsHead};
ghost use Rattle.record_codec.specs.declared.durable.Durable.{Durable};
ghost use Rattle.record_codec.specs.declared.durable.Heads.{Heads};
ghost use Rattle.record_codec.specs.declared.profile.Profile.{Profile};
ghost use Rattle.record_codec.specs.declared.profile.ProfileHead.{ProfileHead};
ghost use Rattle.record_codec.specs.declared.record.Record.{Record};

/// The record of an accepted request fits every card with these heads. After it just the ports of
/// the moves have changed, each once and each to what its move says, and the port rule holds.
pub fn accepted_requests_fit()
    ensures carried_out { (durable : Durable) (busy : List Bool) (came : ℕ) (request : Request)
        (entry : Record) → IsAsked durable came request
        → (managed durable.heads busy came request).entry ≡ Some entry
        → IsCarriedOut durable entry (managed durable.heads busy came request) }
    ensures rule { (durable : Durable) (busy : List Bool) (came : ℕ) (request : Request)
        (entry : Record) → IsAsked durable came request
        → (managed durable.heads busy came request).entry ≡ Some entry
        → KeepsPortRule (apply durable entry).heads.ports }
{}

/// A request without a record moves no port.
pub fn refused_requests_move_nothing()
    ensures { (heads : Heads) (busy : List Bool) (came : ℕ) (request : Request)
        → (managed heads busy came request).entry ≡ None
        → (managed heads busy came request).moves ≡ [] }
{}

/// An enabled profile with PPR1 leaves its port by an eUICCMemoryReset of its class alone.
pub fn policy_keeps_profiles_enabled()
    ensures { (durable : Durable) (busy : List Bool) (came port : ℕ) (request : Request)
        (entry : Record) (head : ProfileHead) → IsAsked durable came request
        → head_of head.number durable.heads.profiles ≡ Some head → keeps_enabled head ≡ true
        → StandsOn durable.heads.ports head.number port → ¬ Resets request head
        → (managed durable.heads busy came request).entry ≡ Some entry
        → StandsOn (apply durable entry).heads.ports head.number port }
{}

/// A pending notification goes by a NotificationSent of its number alone.
pub fn notifications_stay_until_they_are_sent()
    ensures { (durable : Durable) (busy : List Bool) (came : ℕ) (request : Request) (entry : Record)
        (note : Note) → request ≢ Request.NoteSent note.number
        → (managed durable.heads busy came request).entry ≡ Some entry
        → Contains durable.heads.notes.list note
        → Contains (apply durable entry).heads.notes.list note }
{}

/// Where nothing refuses a profile, its installation with a valid content under the next number
/// fits.
pub fn installations_fit()
    ensures { (durable : Durable) (profile : Profile) → IsDurable durable → IsHead profile.head
        → IsValid profile.content → profile.head.number ≡ durable.heads.next_number
        → install_refusal durable.heads profile.head ≡ None
        → FitsCard durable (Record.PutProfile true profile None) }
{}

/// A request leaves alone every profile that it neither names nor displaces: its content, its head
/// and its port.
pub fn requests_leave_other_profiles_alone()
    ensures { (durable : Durable) (busy : List Bool) (came number : ℕ) (request : Request)
        (entry : Record) → IsAsked durable came request
        → ¬ NamesProfile durable.heads.profiles request number
        → ¬ Displaces (managed durable.heads busy came request) number
        → (managed durable.heads busy came request).entry ≡ Some entry
        → LeavesProfile durable (apply durable entry) number }
{}

/// An accepted request does what it asks for. After EnableProfile the profile stands on its target
/// port, after DisableProfile on none, and after DeleteProfile it is held no more; after
/// eUICCMemoryReset no profile that it is about is held. After SetNickname the profile has the
/// nickname, and after NotificationSent no notification of the number is pending.
pub fn accepted_requests_do_what_they_ask()
    ensures enabled { (durable : Durable) (busy : List Bool) (came port : ℕ) (who : Who)
        (refresh : Bool) (given : Option ℕ) (entry : Record) (head : ProfileHead)
        → IsAsked durable came (Request.Enable who refresh given)
        → profile_named who durable.heads.profiles ≡ Some head
        → target_port durable.heads.ports came given ≡ Ok port
        → (managed durable.heads busy came (Request.Enable who refresh given)).entry ≡ Some entry
        → StandsOn (apply durable entry).heads.ports head.number port }
    ensures disabled { (durable : Durable) (busy : List Bool) (came : ℕ) (who : Who)
        (refresh : Bool) (entry : Record) (head : ProfileHead)
        → profile_named who durable.heads.profiles ≡ Some head
        → (managed durable.heads busy came (Request.Disable who refresh)).entry ≡ Some entry
        → StandsNowhere (apply durable entry).heads.ports head.number }
    ensures deleted { (durable : Durable) (busy : List Bool) (came : ℕ) (who : Who)
        (entry : Record) (head : ProfileHead)
        → profile_named who durable.heads.profiles ≡ Some head
        → (managed durable.heads busy came (Request.Delete who)).entry ≡ Some entry
        → ¬ IsHeld head.number (apply durable entry).heads.profiles }
    ensures reset { (durable : Durable) (busy : List Bool) (came : ℕ) (operational test : Bool)
        (entry : Record)
        → (managed durable.heads busy came (Request.MemoryReset operational test)).entry
        ≡ Some entry
        → AllByRecursion (λ head. is_reset operational test head ≡ false)
        (apply durable entry).heads.profiles }
    ensures nicknamed { (durable : Durable) (busy : List Bool) (came : ℕ) (iccid name : List ℕ)
        (entry : Record) (head : ProfileHead)
        → IsAsked durable came (Request.Nickname iccid name)
        → profile_named (Who.Iccid iccid) durable.heads.profiles ≡ Some head
        → (managed durable.heads busy came (Request.Nickname iccid name)).entry ≡ Some entry
        → head_of head.number (apply durable entry).heads.profiles
        ≡ Some (record head { nickname = name }) }
    ensures sent { (durable : Durable) (busy : List Bool) (came number : ℕ) (entry : Record)
        → (managed durable.heads busy came (Request.NoteSent number)).entry ≡ Some entry
        → ¬ IsPending number (apply durable entry).heads.notes }
{}
