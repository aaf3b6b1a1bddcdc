//! Where the next part of a package stands, and what it does there.
ghost use Rattle.std.specs.Prelude.{◌≡◌, ◌<◌, [], Ok, Err, if◌then◌else◌};
ghost use Rattle.profile_install.specs.ElementResult.{ComesTo};
ghost use Rattle.profile_install.specs.State.{at, depth_of, element_begins, file_opens};
ghost use Rattle.profile_install.specs.State.{fresh_state, has_master, in_list, in_position};
ghost use Rattle.profile_install.specs.State.{lists_open, opened_at, passing, placed};
ghost use Rattle.profile_install.specs.State.{template_opens};
ghost use Rattle.profile_install.specs.Template.{template_list};

use crate::{
    Draft, ElementFault, FileParts, HeaderFields, PinFields, PukFields, Standing, StepFault,
    TemplateList,
};
use plain_lists::LongList;
use std::alloc::Global;

/// What the list of an element holds.
#[derive(Clone, Copy)]
pub enum ListKind {
    StepList,
    PukList,
    PinList,
}

/// Where the next part of a package stands.
#[derive(Clone, Copy)]
pub enum Spot {
    /// Before the header.
    Start,
    /// Between two elements.
    Elements,
    /// Behind the end.
    Ended,
    Header(HeaderFields),
    /// Among the files of a template.
    Template(TemplateList),
    /// Among the parts of a template's file.
    File(TemplateList, FileParts),
    /// In the descriptor of a template's file.
    Descriptor(TemplateList),
    /// In an element of one list, and whether the list has come.
    Lists(ListKind, bool),
    Steps,
    /// In the control parameters of a new file.
    NewFile,
    Puks,
    PukEntry(PukFields),
    Pins,
    PinEntry(PinFields),
}

/// The tag and length of a primitive TLV whose value comes next.
#[derive(Clone, Copy)]
pub struct Awaited {
    pub tag: u32,
    pub length: u32,
}

/// What a package has made so far, and where its next part stands.
#[derive(Drop)]
pub struct State {
    pub draft: Draft,
    pub spot: Spot,
    pub standing: Standing,
    /// The bytes of the descriptor or the control parameters that are open.
    pub gathered: LongList<u8>,
    /// How many TLVs are open that are passed over.
    pub passed: u32,
    pub awaited: Option<Awaited>,
}

pub(crate) fn malformed<T>() -> Result<T, StepFault>
    ensures { result ≡ Err (StepFault.Refused ElementFault.Malformed) }
{
    Err(StepFault::Refused(ElementFault::Malformed))
}

impl Spot {
    /// How many TLVs are open there.
    pub fn depth(self) -> u32
        ensures { result ≡ depth_of self }
    {
        match self {
            Spot::Start | Spot::Elements | Spot::Ended => 0,
            Spot::Header(_) | Spot::Template(_) | Spot::Lists(_, _) => 1,
            Spot::File(_, _) | Spot::Steps | Spot::Puks | Spot::Pins => 2,
            Spot::Descriptor(_) | Spot::NewFile | Spot::PukEntry(_) | Spot::PinEntry(_) => 3,
        }
    }
}

fn has_master(draft: &Draft) -> bool
    ensures { result ≡ has_master draft.now }
{
    draft.rows.len() != 0
}

impl State {
    /// Nothing has come. It takes no memory.
    pub fn new(alloc: Global) -> State
        ensures { result ≡ fresh_state }
    {
        State {
            draft: Draft::new(alloc),
            spot: Spot::Start,
            standing: Standing::new(),
            gathered: LongList::new(alloc),
            passed: 0,
            awaited: None,
        }
    }

    pub(crate) fn at(self, spot: Spot) -> State
        ensures { result ≡ at self spot }
    {
        State { spot, ..self }
    }

    pub(crate) fn passing(self) -> State
        ensures { result ≡ passing self }
    {
        State { passed: 1, ..self }
    }

    fn placed(self, good: bool, spot: Spot) -> Result<State, StepFault>
        ensures { ComesTo result (placed self good self.draft spot) }
    {
        if good {
            Ok(self.at(spot))
        } else {
            Err(StepFault::Refused(ElementFault::BadParameter))
        }
    }

    fn template_begins(self, good: bool, template: u8) -> Result<State, StepFault>
        ensures { ComesTo result
            (placed self good self.draft (Spot.Template (template_list template))) }
    {
        self.placed(good, Spot::Template(TemplateList::new(template)))
    }

    fn telecom_begins(self) -> Result<State, StepFault>
        ensures { ComesTo result (element_begins self 0xB2) }
    {
        let mut state = self;
        let good = has_master(&state.draft) && !state.draft.telecom;
        state.draft.telecom = true;
        state.template_begins(good, 3)
    }

    fn usim_begins(self) -> Result<State, StepFault>
        ensures { ComesTo result (element_begins self 0xB3) }
    {
        let mut state = self;
        let good = has_master(&state.draft) && !state.draft.usim;
        state.draft.usim = true;
        state.template_begins(good, 4)
    }

    fn isim_begins(self) -> Result<State, StepFault>
        ensures { ComesTo result (element_begins self 0xB5) }
    {
        let mut state = self;
        let good = has_master(&state.draft) && !state.draft.isim;
        state.draft.isim = true;
        state.template_begins(good, 8)
    }

    fn management_begins(self) -> Result<State, StepFault>
        ensures { ComesTo result (element_begins self 0xA1) }
    {
        let mut state = self;
        let good = has_master(&state.draft);
        state.standing = Standing::new();
        state.placed(good, Spot::Lists(ListKind::StepList, false))
    }

    /// An element begins behind the header.
    ///
    /// `BadParameter`: the MF comes again; what makes files or PINs comes before it; telecom, the
    /// USIM or the ISIM comes again, or the USIM's optional files before the USIM. `Malformed`: no
    /// tag of an element, or a second header.
    pub fn element_begins(self, tag: u32) -> Result<State, StepFault>
        ensures { ComesTo result (element_begins self tag) }
    {
        let there = has_master(&self.draft);
        match tag {
            0xB0 => self.template_begins(!there, 1),
            0xB2 => self.telecom_begins(),
            0xB3 => self.usim_begins(),
            0xB4 => {
                let good = there && self.draft.usim;
                self.template_begins(good, 5)
            }
            0xB5 => self.isim_begins(),
            0xA1 => self.management_begins(),
            0xA2 => self.placed(there, Spot::Lists(ListKind::PinList, false)),
            0xA3 => Ok(self.at(Spot::Lists(ListKind::PukList, false))),
            0xAA => Ok(self.at(Spot::Ended).passing()),
            0xA1..=0xBF => Ok(self.passing()),
            _ => malformed(),
        }
    }

    fn in_position(self, list: TemplateList, position: u8) -> Result<State, StepFault>
        requires { position < 255 }
        ensures { ComesTo result (in_position self list position) }
    {
        let draft = list.at_position(self.draft, position)?;
        let list = TemplateList {
            next: position + 1,
            ..list
        };
        Ok(State {
            draft,
            spot: Spot::File(list, FileParts::Awaited),
            ..self
        })
    }

    fn template_opens(self, list: TemplateList, tag: u32) -> Result<State, StepFault>
        ensures { ComesTo result (template_opens self list tag) }
    {
        match tag {
            0xA0 => Ok(self.passing()),
            0xA1..=0xBE => self.in_position(list, (tag - 0xA0) as u8),
            _ => malformed(),
        }
    }

    fn gathers_at(self, spot: Spot) -> State
        ensures { result ≡ record self { spot = spot; gathered = [] } }
    {
        let alloc = self.gathered.allocator();
        State {
            spot,
            gathered: LongList::new(alloc),
            ..self
        }
    }

    fn file_opens(self, list: TemplateList, parts: FileParts, tag: u32) -> Result<State, StepFault>
        ensures { ComesTo result (file_opens self list parts tag) }
    {
        match parts {
            FileParts::Awaited if tag == 0xA1 => Ok(self.gathers_at(Spot::Descriptor(list))),
            _ => malformed(),
        }
    }

    fn in_list(self, kind: ListKind) -> State
        ensures { result ≡ in_list self kind }
    {
        match kind {
            ListKind::StepList => self.at(Spot::Steps),
            ListKind::PukList => self.at(Spot::Puks),
            ListKind::PinList => self.at(Spot::Pins),
        }
    }

    fn lists_open(self, kind: ListKind, seen: bool, tag: u32) -> Result<State, StepFault>
        ensures { ComesTo result (lists_open self kind seen tag) }
    {
        if tag == 0xA0 {
            Ok(self.passing())
        } else if tag == 0xA1 && !seen {
            Ok(self.in_list(kind))
        } else {
            malformed()
        }
    }

    fn opens_at(self, good: bool, spot: Spot) -> Result<State, StepFault>
        ensures { ComesTo result (if good then Ok (at self spot) else Err ElementFault.Malformed) }
    {
        if good { Ok(self.at(spot)) } else { malformed() }
    }

    fn new_file_opens(self, tag: u32) -> Result<State, StepFault>
        ensures { ComesTo result (opened_at self Spot.Steps tag) }
    {
        if tag == 0x62 {
            Ok(self.gathers_at(Spot::NewFile))
        } else {
            malformed()
        }
    }

    /// A constructed TLV begins. What stands there in no package is `Malformed`; a template's
    /// position, and an element, has the faults of `TemplateList::at_position` and
    /// `element_begins`.
    pub fn opened(self, tag: u32) -> Result<State, StepFault>
        ensures { ComesTo result (opened_at self self.spot tag) }
    {
        match self.spot {
            Spot::Start => self.opens_at(tag == 0xA0, Spot::Header(HeaderFields::new())),
            Spot::Elements => self.element_begins(tag),
            Spot::Header(_) | Spot::Descriptor(_) | Spot::NewFile => Ok(self.passing()),
            Spot::Template(list) => self.template_opens(list, tag),
            Spot::File(list, parts) => self.file_opens(list, parts, tag),
            Spot::Lists(kind, seen) => self.lists_open(kind, seen, tag),
            Spot::Steps => self.new_file_opens(tag),
            Spot::Puks => self.opens_at(tag == 0x30, Spot::PukEntry(PukFields::new())),
            Spot::Pins => self.opens_at(tag == 0x30, Spot::PinEntry(PinFields::new())),
            Spot::Ended | Spot::PukEntry(_) | Spot::PinEntry(_) => malformed(),
        }
    }
}
