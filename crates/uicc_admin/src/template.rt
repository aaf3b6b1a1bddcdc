//! File control parameters in the body of a command.
ghost use Rattle.std.specs.Prelude.{◌≡◌};
ghost use Rattle.uicc_admin.specs.Template.{fcp_in};

use ber_tlv::read_tlv;
use fcp_codec::{Fcp, read_fields};

// The file control parameters in a body, where it is a well formed template `62` (ETSI TS 102 222).
pub(crate) fn read_template(body: &[u8]) -> Option<Fcp>
    ensures { result ≡ fcp_in body.now }
{
    match read_tlv(body) {
        Ok((tlv, count)) if tlv.tag == 0x62 && count == body.len() => read_fields(tlv.value),
        _ => None,
    }
}
