//! What the values and the ends of TLVs do where they stand.
ghost use Rattle.std.specs.Prelude.{◌≡◌, [], Ok, Err, IfOk, if◌then◌else◌};
ghost use Rattle.profile_install.specs.ElementResult.{ComesTo, then_with};
ghost use Rattle.profile_install.specs.declared.fault.ElementFault.{ElementFault};
ghost use Rattle.profile_install.specs.Management.{with_step};
ghost use Rattle.profile_install.specs.State.{at, closed_at, file_closed, file_valued};
ghost use Rattle.profile_install.specs.State.{with_managed, template_valued, valued_at};
ghost use Rattle.profile_install.specs.State.{with_new_pin, with_new_puk};

use crate::management::with_file_made;
use crate::state::{ListKind, Spot, State, malformed};
use crate::{
    Draft, FileParts, HeaderFields, NamedPuk, PinFields, PukFields, StepFault, TemplateList,
};
use fcp_codec::read_fields;
use file_rows::{NoMemory, PinRow};

impl State {
    fn file_left_out(
        self,
        list: TemplateList,
        parts: FileParts,
        value: &[u8],
    ) -> Result<State, StepFault>
        ensures { ComesTo result (file_valued self list parts 0x80 value.now) }
    {
        let parts = list.left_out(parts, value)?;
        Ok(self.at(Spot::File(list, parts)))
    }

    fn file_valued(
        self,
        list: TemplateList,
        parts: FileParts,
        tag: u32,
        value: &[u8],
    ) -> Result<State, StepFault>
        ensures { ComesTo result (file_valued self list parts tag value.now) }
    {
        if tag == 0x80 {
            return self.file_left_out(list, parts, value);
        }
        let done = list.with_part(self.draft, parts, tag, value)?;
        Ok(State {
            draft: done.draft,
            spot: Spot::File(list, FileParts::Made(done.file)),
            ..self
        })
    }

    fn template_valued(self, list: TemplateList, tag: u32, value: &[u8]) -> Result<State, StepFault>
        ensures { ComesTo result (template_valued self list tag value.now) }
    {
        if tag != 0x06 {
            return malformed();
        }
        let list = list.with_template(value)?;
        Ok(self.at(Spot::Template(list)))
    }

    fn step_valued(self, tag: u32, value: &[u8]) -> Result<State, StepFault>
        ensures { ComesTo result (then_with (λ done. Ok (with_managed self Spot.Steps done))
            (with_step self.draft self.standing tag value.now)) }
    {
        let done = self.standing.with_step(self.draft, tag, value)?;
        Ok(State {
            draft: done.draft,
            spot: Spot::Steps,
            standing: done.standing,
            ..self
        })
    }

    fn header_valued(
        self,
        iccid: &[u8; 10],
        fields: HeaderFields,
        tag: u32,
        value: &[u8],
    ) -> Result<State, StepFault>
        ensures { ComesTo result (valued_at iccid.now self (Spot.Header fields) tag value.now) }
    {
        let fields = fields.with_field(iccid, tag, value)?;
        Ok(self.at(Spot::Header(fields)))
    }

    fn puk_valued(self, fields: PukFields, tag: u32, value: &[u8]) -> Result<State, StepFault>
        ensures { ComesTo result (valued_at [] self (Spot.PukEntry fields) tag value.now) }
    {
        let fields = fields.with_field(self.draft.puks.as_slice(), tag, value)?;
        Ok(self.at(Spot::PukEntry(fields)))
    }

    fn pin_valued(self, fields: PinFields, tag: u32, value: &[u8]) -> Result<State, StepFault>
        ensures { ComesTo result (valued_at [] self (Spot.PinEntry fields) tag value.now) }
    {
        let fields = fields.with_field(&self.draft, tag, value)?;
        Ok(self.at(Spot::PinEntry(fields)))
    }

    /// A primitive TLV with its value. What stands there in no package is `Malformed`; fields,
    /// parts and steps have the faults of the calls that take them.
    pub fn valued(self, iccid: &[u8; 10], tag: u32, value: &[u8]) -> Result<State, StepFault>
        ensures { ComesTo result (valued_at iccid.now self self.spot tag value.now) }
    {
        match self.spot {
            Spot::Header(fields) => self.header_valued(iccid, fields, tag, value),
            Spot::Template(list) => self.template_valued(list, tag, value),
            Spot::File(list, parts) => self.file_valued(list, parts, tag, value),
            Spot::Descriptor(_) | Spot::NewFile => Ok(self),
            Spot::Steps => self.step_valued(tag, value),
            Spot::PukEntry(fields) => self.puk_valued(fields, tag, value),
            Spot::PinEntry(fields) => self.pin_valued(fields, tag, value),
            Spot::Start | Spot::Elements | Spot::Ended => malformed(),
            Spot::Lists(_, _) | Spot::Puks | Spot::Pins => malformed(),
        }
    }

    fn with_new_puk(self, puk: NamedPuk) -> Result<State, NoMemory>
        ensures { IfOk result (λ state. state ≡ with_new_puk self puk) }
    {
        let mut state = self;
        state.draft.puks.push(puk)?;
        Ok(state.at(Spot::Puks))
    }

    fn with_new_pin(self, pin: PinRow) -> Result<State, NoMemory>
        ensures { IfOk result (λ state. state ≡ with_new_pin self pin) }
    {
        let mut state = self;
        state.draft.pins.push(pin)?;
        Ok(state.at(Spot::Pins))
    }

    fn header_closed(self, fields: HeaderFields) -> Result<State, StepFault>
        ensures { ComesTo result (closed_at self (Spot.Header fields)) }
    {
        if fields.is_whole() {
            Ok(self.at(Spot::Elements))
        } else {
            malformed()
        }
    }

    fn template_closed(self, list: TemplateList) -> Result<State, StepFault>
        ensures { ComesTo result (closed_at self (Spot.Template list)) }
    {
        let draft = list.at_end(self.draft)?;
        Ok(State {
            draft,
            spot: Spot::Elements,
            ..self
        })
    }

    fn file_closed(self, list: TemplateList, parts: FileParts) -> Result<State, StepFault>
        ensures { ComesTo result (file_closed self list parts) }
    {
        let draft = list.at_file_end(self.draft, parts)?;
        Ok(State {
            draft,
            spot: Spot::Template(list),
            ..self
        })
    }

    fn descriptor_closed(self, list: TemplateList) -> Result<State, StepFault>
        ensures { ComesTo result (closed_at self (Spot.Descriptor list)) }
    {
        let given = read_fields(self.gathered.as_slice());
        let done = list.with_descriptor(self.draft, given)?;
        Ok(State {
            draft: done.draft,
            spot: Spot::File(list, FileParts::Made(done.file)),
            ..self
        })
    }

    fn list_closed(self, seen: bool) -> Result<State, StepFault>
        ensures { ComesTo result (if seen then Ok (at self Spot.Elements)
            else Err ElementFault.Malformed) }
    {
        if seen {
            Ok(self.at(Spot::Elements))
        } else {
            malformed()
        }
    }

    fn new_file_closed(self) -> Result<State, StepFault>
        ensures { ComesTo result (closed_at self Spot.NewFile) }
    {
        let fcp = read_fields(self.gathered.as_slice());
        let done = with_file_made(self.draft, self.standing.directory, fcp)?;
        Ok(State {
            draft: done.draft,
            spot: Spot::Steps,
            standing: done.standing,
            ..self
        })
    }

    fn puk_closed(self, fields: PukFields) -> Result<State, StepFault>
        ensures { ComesTo result (closed_at self (Spot.PukEntry fields)) }
    {
        let puk = fields.into_puk()?;
        Ok(self.with_new_puk(puk)?)
    }

    fn pin_closed(self, fields: PinFields) -> Result<State, StepFault>
        ensures { ComesTo result (closed_at self (Spot.PinEntry fields)) }
    {
        let pin = fields.into_pin(&self.draft)?;
        Ok(self.with_new_pin(pin)?)
    }

    /// The innermost TLV ends. What it lacks is `Malformed`; a file that is made now has the faults
    /// of `TemplateList`, one of a step those of CREATE FILE, and a PIN that of
    /// `PinFields::into_pin`.
    pub fn closed(self) -> Result<State, StepFault>
        ensures { ComesTo result (closed_at self self.spot) }
    {
        match self.spot {
            Spot::Start | Spot::Elements | Spot::Ended => Ok(self),
            Spot::Header(fields) => self.header_closed(fields),
            Spot::Template(list) => self.template_closed(list),
            Spot::File(list, parts) => self.file_closed(list, parts),
            Spot::Descriptor(list) => self.descriptor_closed(list),
            Spot::Lists(_, seen) => self.list_closed(seen),
            Spot::Steps => Ok(self.at(Spot::Lists(ListKind::StepList, true))),
            Spot::NewFile => self.new_file_closed(),
            Spot::Puks => Ok(self.at(Spot::Lists(ListKind::PukList, true))),
            Spot::PukEntry(fields) => self.puk_closed(fields),
            Spot::Pins => Ok(self.at(Spot::Lists(ListKind::PinList, true))),
            Spot::PinEntry(fields) => self.pin_closed(fields),
        }
    }
}
