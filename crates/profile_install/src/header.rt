//! The header of a package.
ghost use Rattle.std.specs.Prelude.{◌≡◌};
ghost use Rattle.profile_install.specs.Header.{is_header_whole, major_told, no_header_fields};
ghost use Rattle.profile_install.specs.Header.{with_header_field, with_iccid, with_major};
ghost use Rattle.profile_install.specs.Header.{with_minor};

use crate::ElementFault;
use crate::values::one_byte;

/// Which fields of the header have come.
#[derive(Clone, Copy, Debug, PartialEq, Eq)]
pub struct HeaderFields {
    pub major: bool,
    pub minor: bool,
    pub iccid: bool,
}

impl HeaderFields {
    /// No field.
    pub fn new() -> HeaderFields
        ensures { result ≡ no_header_fields }
    {
        HeaderFields {
            major: false,
            minor: false,
            iccid: false,
        }
    }

    /// The header with one field more: `80` the major version, 2 or 3; `81` the minor version; `83`
    /// the ICCID, that of the profile's metadata. Other fields are passed over.
    ///
    /// `Malformed`: one of the three that stands there again or has another length. `WrongVersion`:
    /// another major version. `BadParameter`: another ICCID.
    pub fn with_field(
        self,
        iccid: &[u8; 10],
        tag: u32,
        value: &[u8],
    ) -> Result<HeaderFields, ElementFault>
        ensures { result ≡ with_header_field iccid.now self tag value.now }
    {
        match tag {
            0x80 => self.with_major(value),
            0x81 => self.with_minor(value),
            0x83 => self.with_iccid(iccid, value),
            _ => Ok(self),
        }
    }

    /// Whether all three fields have come.
    pub fn is_whole(self) -> bool
        ensures { result ≡ is_header_whole self }
    {
        self.major && self.minor && self.iccid
    }

    fn major_told(self, version: u8) -> Result<HeaderFields, ElementFault>
        ensures { result ≡ major_told self version }
    {
        if version == 2 || version == 3 {
            Ok(HeaderFields {
                major: true,
                ..self
            })
        } else {
            Err(ElementFault::WrongVersion)
        }
    }

    fn with_major(self, value: &[u8]) -> Result<HeaderFields, ElementFault>
        ensures { result ≡ with_major self value.now }
    {
        if self.major {
            return Err(ElementFault::Malformed);
        }
        let version = one_byte(value)?;
        self.major_told(version)
    }

    fn with_minor(self, value: &[u8]) -> Result<HeaderFields, ElementFault>
        ensures { result ≡ with_minor self value.now }
    {
        if self.minor {
            return Err(ElementFault::Malformed);
        }
        let _version = one_byte(value)?;
        Ok(HeaderFields {
            minor: true,
            ..self
        })
    }

    fn with_iccid(self, iccid: &[u8; 10], value: &[u8]) -> Result<HeaderFields, ElementFault>
        ensures { result ≡ with_iccid iccid.now self value.now }
    {
        if self.iccid || value.len() != 10 {
            return Err(ElementFault::Malformed);
        }
        if value == iccid.as_slice() {
            Ok(HeaderFields {
                iccid: true,
                ..self
            })
        } else {
            Err(ElementFault::BadParameter)
        }
    }
}
