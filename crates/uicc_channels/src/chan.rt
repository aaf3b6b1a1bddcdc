ghost use Rattle.std.specs.Prelude.{◌≡◌, ◌≤◌, length};
ghost use Rattle.uicc_channels.specs.Chan.{at_isdr, at_master, holding};

use file_rows::Path;
use plain_lists::ShortList;

/// The bytes of an answer that wait for GET RESPONSE, at most 256.
pub type Pending = ShortList<u8, 256>;

/// An open logical channel (ETSI TS 102 221): what is selected on it, and what waits on it.
#[derive(Debug, PartialEq, Eq, Drop)]
pub struct Chan {
    /// Whether the ISD-R is selected.
    pub isdr: bool,
    /// The application that was selected last by its name, where there is one.
    pub app: Option<Path>,
    /// The current directory.
    pub dir: Path,
    /// The current EF, where there is one.
    pub file: Option<Path>,
    /// The current record of the current EF, counted from 1, or 0 where there is none.
    pub pointer: u8,
    pub pending: Pending,
}

// A copy of a path, where there is one.
fn copy_path(path: &Option<Path>) -> Option<Path>
    ensures { result ≡ path.now }
{
    match path {
        None => None,
        Some(path) => Some(path.copy()),
    }
}

impl Chan {
    /// A channel at the MF, with no application, no EF and nothing waiting.
    pub fn at_master() -> Self
        ensures { result ≡ at_master }
    {
        Chan {
            isdr: false,
            app: None,
            dir: Path::new(),
            file: None,
            pointer: 0,
            pending: Pending::new(),
        }
    }

    /// A channel on which the ISD-R is selected: it stands at the MF, with no application, no EF
    /// and nothing waiting.
    pub fn at_isdr() -> Self
        ensures { result ≡ at_isdr }
    {
        Chan {
            isdr: true,
            ..Chan::at_master()
        }
    }

    /// A copy. It takes no memory.
    pub fn copy(&self) -> Self
        ensures { result ≡ self.now }
    {
        self.with_pending(self.pending.as_slice())
    }

    /// A copy with these bytes waiting in place of what waited. It takes no memory.
    pub fn with_pending(&self, bytes: &[u8]) -> Self
        requires { length bytes.now ≤ 256 }
        ensures { result ≡ holding bytes.now self.now }
    {
        Chan {
            isdr: self.isdr,
            app: copy_path(&self.app),
            dir: self.dir.copy(),
            file: copy_path(&self.file),
            pointer: self.pointer,
            pending: Pending::from_slice(bytes),
        }
    }

    // A channel with the application and the directory of this one, with no EF and nothing waiting.
    pub(crate) fn in_directory(&self) -> Self
        ensures { result ≡ record at_master { app = self.now.app; dir = self.now.dir } }
    {
        Chan {
            app: copy_path(&self.app),
            dir: self.dir.copy(),
            ..Chan::at_master()
        }
    }

    // It is a copy of that channel afterwards. It moves only the bytes that wait there.
    pub(crate) fn assign(&mut self, other: &Chan)
        ensures { self.new ≡ other.now }
    {
        self.isdr = other.isdr;
        self.app = copy_path(&other.app);
        self.dir = other.dir.copy();
        self.file = copy_path(&other.file);
        self.pointer = other.pointer;
        self.pending.clear();
        self.pending.extend_from_slice(other.pending.as_slice());
    }
}
