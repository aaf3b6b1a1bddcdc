// Laws of rows and switch rows, and of a flash that is settled. There is nothing to run.
ghost use Rattle.flash_pages.specs.Bytes.{PartsOutsideStay};
ghost use Rattle.flash_pages.specs.Flash.{SettledStays};
ghost use Rattle.flash_pages.specs.Memory.{state_of, last_ok_of, LeavesImagesSince};
ghost use Rattle.flash_pages.specs.Rows.{HasOneListOfRows, RowsAreThoseRead, OverrunHasNoRows};
ghost use Rattle.flash_pages.specs.Switch.{HasOneNextByte, NextByteSwitches};

use crate::{Flash, MemoryFlash};

/// That a bank has no two lists of open rows.
pub fn rows_are_unique()
    ensures { HasOneListOfRows }
{}

/// That rows read one after another up to an end are the open rows, and that a bank in which a row
/// overruns has none.
pub fn rows_are_those_read()
    ensures read { RowsAreThoseRead }
    ensures overrun { OverrunHasNoRows }
{}

/// That a byte programmed at the next place of a switch row makes the other bank live exactly where
/// it reads 00, and which byte is the next one then.
pub fn next_byte_switches()
    ensures one { HasOneNextByte }
    ensures switches { NextByteSwitches }
{}

/// That a part outside a range in which two images differ is the same in both.
pub fn parts_outside_stay()
    ensures { PartsOutsideStay }
{}

/// That a settled flash returns the same bytes after a restart, whatever that answers.
pub fn settled_stays<F: Flash>(before: &F, after: &F)
    ensures { SettledStays (F.state before.now) (F.state after.now) }
{}

/// That a restart of a flash in memory leaves one of its images since the last Ok, each of which it
/// may leave, and past its room for calls just what reads return.
pub fn memory_leaves_images(flash: &MemoryFlash)
    ensures { LeavesImagesSince (last_ok_of flash.now) (state_of flash.now) }
{}
