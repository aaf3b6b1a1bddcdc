ghost use Rattle.std.specs.Prelude.{◌≡◌, false, IfOk};
ghost use Rattle.flash_pages.specs.ServedName.{place_at, unreported_place};
ghost use Rattle.flash_pages.specs.Shelf.{NothingIsOut};

use crate::{BLOCK_LEN, BLOCKS, FLASH_LEN, FileFlash, Flash, Shelf};
use port_io::Failed;
use std::alloc::{AllocError as NoMemory, Global};
use std::fs::{Files, OpenFile, OpenOptions};
use std::io;
use std::io::ErrorKind;
use std::os::unix::fs::FileExt;
use std::path::Path;

const ERASED: [u8; 4096] = [0xff; 4096];

/// One flash in the file of one name. A file that isn't there is made with FF bytes: under the
/// name with `.new` behind it, synced and renamed. A file of another length, another name and
/// an empty name count a fault. Nothing is reported of the flash's content.
#[derive(Drop)]
pub struct FileShelf<R: Files + Drop> {
    files: R,
    name: String,
    unfinished: String,
    is_out: bool,
    faults: u64,
}

impl<R: Files + Drop> FileShelf<R>
where
    R::File: FileExt + Send,
{
    /// A shelf that serves that name in that file system.
    pub fn new(files: R, alloc: Global, name: String) -> Result<Self, NoMemory>
        ensures places { IfOk result (λ shelf. ⟦<FileShelf<R> as Shelf>⟧.place shelf
            ≡ place_at name.bytes.items (unreported_place false 0)) }
        ensures none_out { IfOk result
            (λ shelf. NothingIsOut (⟦<FileShelf<R> as Shelf>⟧.place shelf)) }
    {
        let mut unfinished = String::new(alloc);
        unfinished.push_str(&name)?;
        unfinished.push_str(".new")?;
        Ok(FileShelf {
            files,
            name,
            unfinished,
            is_out: false,
            faults: 0,
        })
    }
}

impl<R: Files + Drop> FileShelf<R>
where
    R::File: FileExt,
{
    // Makes the file, blank.
    fn make(&self) -> io::Result<R::File> {
        let file = OpenOptions::new()
            .read(true)
            .write(true)
            .create(true)
            .truncate(true)
            .open(&self.files, self.unfinished.as_str())?;
        for block in 0..BLOCKS {
            file.write_all_at(&ERASED, u64::from(block * BLOCK_LEN))?;
        }
        file.sync_all()?;
        self.files
            .rename(self.unfinished.as_str(), self.name.as_str())?;
        self.sync_directory()?;
        Ok(file)
    }

    // Waits until the file's name lasts, which stands in its directory.
    fn sync_directory(&self) -> io::Result<()> {
        let parent = Path::new(self.name.as_str()).parent();
        let text = parent.and_then(|path| path.to_str()).unwrap_or("");
        let directory = if text.is_empty() { "." } else { text };
        OpenOptions::new()
            .read(true)
            .open(&self.files, directory)?
            .sync_all()
    }

    // Opens the file of the name, or makes it.
    fn open(&self) -> io::Result<R::File> {
        if self.name.is_empty() {
            return Err(io::Error::from(ErrorKind::NotFound));
        }
        let opened = OpenOptions::new()
            .read(true)
            .write(true)
            .open(&self.files, self.name.as_str());
        let file = match opened {
            Ok(file) => file,
            Err(error) if error.kind() == ErrorKind::NotFound => self.make()?,
            Err(error) => return Err(error),
        };
        if file.metadata()?.len() != u64::from(FLASH_LEN) {
            return Err(io::Error::from(ErrorKind::InvalidData));
        }
        Ok(file)
    }
}

impl<R: Files + Drop> Shelf for FileShelf<R>
where
    R::File: FileExt + Send,
{
    type F = FileFlash<R::File>;

    ghost place = { λ shelf. place_at shelf.name.bytes.items
        (unreported_place shelf.is_out shelf.faults) };

    fn faults(&self, name: &str) -> u64 {
        if name == self.name.as_str() {
            self.faults
        } else {
            u64::MAX
        }
    }

    fn take_flash(&mut self, name: &str) -> Result<FileFlash<R::File>, Failed> {
        if name != self.name.as_str() {
            return Err(Failed);
        }
        match self.open() {
            Ok(file) => {
                self.is_out = true;
                Ok(FileFlash::new(file, self.faults))
            }
            Err(_) => {
                self.faults = self.faults.saturating_add(1);
                Err(Failed)
            }
        }
    }

    fn give_flash(&mut self, name: &str, flash: FileFlash<R::File>) {
        if name == self.name.as_str() {
            self.faults = flash.faults();
            self.is_out = false;
        }
    }
}
