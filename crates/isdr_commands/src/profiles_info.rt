ghost use Rattle.std.specs.Prelude.{◌≡◌, ◌≤◌, length};
ghost use Rattle.isdr_commands.specs.ProfilesInfo.{is_searched, numbers_searched, profiles_info};

use crate::ascending::ascending;
use crate::decision::Decision;
use crate::naming::is_identified;
use isdr_codec::{Reply, Search};
use record_codec::{Heads, Numbers, ProfileHead};

fn is_searched(search: &Search, head: &ProfileHead) -> bool
    ensures { result ≡ is_searched search.now head.now }
{
    match search {
        Search::All => true,
        Search::One(who) => is_identified(who, head),
        Search::Class(class) => head.class == *class,
    }
}

// The numbers of the profiles that are searched for, in the order of the heads.
fn numbers_searched(search: &Search, profiles: &[ProfileHead]) -> Numbers
    requires { length profiles.now ≤ 16 }
    ensures { result ≡ numbers_searched search.now profiles.now }
{
    let mut numbers = Numbers::new();
    for head in profiles {
        if is_searched(search, head) {
            numbers.push(head.number);
        }
    }
    numbers
}

/// What ES10c.GetProfilesInfo comes to: the profiles that are searched for, by number, and the
/// fields that are asked for. It looks at each profile once and sorts their numbers.
pub fn profiles_info(heads: &Heads, search: &Search, fields: u8) -> Decision
    ensures { result ≡ profiles_info heads.now search.now fields }
{
    let numbers = numbers_searched(search, heads.profiles.as_slice());
    Decision::told(Reply::Infos {
        profiles: ascending(&numbers),
        fields,
    })
}
