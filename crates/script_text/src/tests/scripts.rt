//! Scripts of the worked examples: loads of sample profiles, the selection of the ISD-R, and other
//! lines.
use std::alloc::{AllocError, Global};

// The metadata of operational profiles up to the last digit of the ICCID, then up to that of the
// name, then with the server that is notified of the installation and of the enabling.
const METADATA: [&str; 3] = [
    "5A0A989400000000000000F",
    "91024F709202503",
    "950102B611300F800204F08109736D64702E74657374",
];

// The access rules of a profile.
const RULES: &str = "83108001019000800102A40683010A95010882011A83058001039000820125\
    830B800103A406830101950108";

// Its package up to the digit of the ICCID in the header and in the MF, and then behind the rules
// of the MF: two PINs and the end.
const HEADER: &str = "A012800103810103830A989400000000000000F";

const MASTER: &str = "B049A003810101060667810F010201A40C830A989400000000000000F";

const PINS: &str = "A225A003810102A11E300D800101810831323334FFFFFFFF\
    300D80010A81083838383838383838";

const END: &str = "AA05A003810103";

// A USIM with an IMSI, up to its rules.
const USIM: &str = "B35EA003810104060667810F010204A214A1128410A0000000871002FFFFFFFF8900000100\
    A30B8309080910100000000010A42C";

const SELECT_ISDR: &str = "A4040010A0000005591010FFFFFFFF8900000100\n";

// A part of a script.
#[derive(Clone, Copy)]
pub(super) enum Part {
    // The load of the profile whose ICCID and name end with that digit, with what stands behind the
    // other metadata and their length, and whether it is a USIM.
    Profile(&'static str, Further, bool),
    // The ISD-R is selected, by a command with these first bytes.
    Isdr(&'static str),
    Text(&'static str),
}

// What further metadata say of a profile.
#[derive(Clone, Copy)]
pub(super) enum Further {
    Nothing,
    // It may not be disabled, or not be deleted.
    Ppr1,
    Ppr2,
}

pub(super) fn push_metadata(
    out: &mut String,
    digit: &str,
    further: Further,
) -> Result<(), AllocError> {
    let (length, policy) = match further {
        Further::Nothing => ("2A", ""),
        Further::Ppr1 => ("2E", "99020540"),
        Further::Ppr2 => ("2E", "99020520"),
    };
    let [iccid, name, server] = METADATA;
    for piece in [
        "BF25", length, iccid, digit, name, digit, server, policy, "\n",
    ] {
        out.push_str(piece)?;
    }
    Ok(())
}

// The package of the profile whose ICCID ends with that digit, with these elements last.
pub(super) fn push_package(
    out: &mut String,
    digit: &str,
    usim: bool,
    end: &str,
) -> Result<(), AllocError> {
    for piece in [HEADER, digit, MASTER, digit, "A62C", RULES, PINS] {
        out.push_str(piece)?;
    }
    if usim {
        out.push_str(USIM)?;
        out.push_str(RULES)?;
    }
    out.push_str(end)?;
    Ok(())
}

fn push_part(out: &mut String, part: Part) -> Result<(), AllocError> {
    match part {
        Part::Profile(digit, further, usim) => {
            out.push_str("load 0 begin ")?;
            push_metadata(out, digit, further)?;
            out.push_str("load 0 piece ")?;
            push_package(out, digit, usim, END)?;
            out.push_str("\nload 0 end\n")?;
        }
        Part::Isdr(first) => {
            out.push_str(first)?;
            out.push_str(SELECT_ISDR)?;
        }
        Part::Text(text) => out.push_str(text)?,
    }
    Ok(())
}

pub(super) fn script_of(alloc: Global, parts: &[Part]) -> Result<String, AllocError> {
    let mut out = String::new(alloc);
    for part in parts {
        push_part(&mut out, *part)?;
    }
    Ok(out)
}
