ghost use Rattle.std.specs.Prelude.{◌≡◌, ◌≤◌, ◌-◌, option_copied};
ghost use Rattle.port_lanes.specs.Part.{next_until, until_end};

use card_core::Event;
use plain_lists::LongList;

/// What a port has to do in a section: its statements in order, and how many of them there are
/// until the end of each phase that has a statement at any port.
#[derive(Drop)]
pub struct Part {
    pub(crate) statements: LongList<Event>,
    pub(crate) ends: LongList<u32>,
}

impl Part {
    // How many statements there are until the end of the phase, of which so many ended.
    fn until_end(&self, ended: usize) -> usize
        ensures { result ≡ until_end self.now ended }
    {
        match self.ends.as_slice().get(ended) {
            Some(end) => *end as usize,
            None => self.statements.len(),
        }
    }

    // The statement of this number, counted from 1, where it stands before the end of the phase.
    pub(crate) fn next(&self, number: u32, ended: usize) -> Option<&Event>
        requires { 1 ≤ number }
        ensures { option_copied result ≡ next_until self.now ended (number - 1) }
    {
        let place = number as usize - 1;
        if place < self.until_end(ended) {
            self.statements.as_slice().get(place)
        } else {
            None
        }
    }
}
