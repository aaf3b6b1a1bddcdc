//! The ports that a script names.
ghost use Rattle.std.specs.Prelude.{◌≡◌, find};
ghost use Rattle.std.specs.Option.{option_map};
ghost use Rattle.script_text.specs.Lent.{lent_item};
ghost use Rattle.script_text.specs.Ports.{first_beyond, line_beyond};
ghost use Rattle.script_text.specs.Script.{script_of, statement_in};

use crate::item::ItemRef;
use crate::script_items::ScriptItems;

// The line of an item that is a statement at a port which isn't below the count.
fn line_of(item: ItemRef<'_>, count: u8) -> Option<u32>
    ensures { result ≡ line_beyond count (statement_in (lent_item item.entry)) }
{
    match item {
        ItemRef::Stated(statement) if count <= statement.event.port() => Some(statement.line),
        _ => None,
    }
}

/// The first line of a script that names a port which isn't below the count.
pub fn check_ports(script: &ScriptItems, count: u8) -> Option<u32>
    ensures { result ≡ first_beyond count (script_of script.now) }
{
    for index in 0..script.len() {
        match line_of(script.item(index), count) {
            Some(line) => return Some(line),
            None => {}
        }
    }
    None
}
