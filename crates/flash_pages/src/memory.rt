ghost use Rattle.std.specs.Prelude.{◌≡◌, ◌*◌, ◌<◌, ◌+◌, ℕ, List, length, IfOk, OnOk, OnErr, is_ok};
ghost use Rattle.std.specs.Prelude.{IsOk, IsTrue, false};
ghost use Rattle.port_io.specs.Faults.{FailsOnlyWhereRose, NeverFalls, one_more};
ghost use Rattle.flash_pages.specs.Bytes.{blank, part, IsErased};
ghost use Rattle.flash_pages.specs.Flash.{block_len, card_blocks, IsRange, IsPiece, Reads, Changes};
ghost use Rattle.flash_pages.specs.Flash.{Restarts};
ghost use Rattle.flash_pages.specs.Left.{left_by, with_left};
ghost use Rattle.flash_pages.specs.Past.{content, after_call, Since, Write};
ghost use Rattle.flash_pages.specs.MemoryLaw.{IsFlash-memory};
ghost use Rattle.flash_pages.specs.Plan.{next_outcome, is_done, after_change, is_read, after_read};
ghost use Rattle.flash_pages.specs.Plan.{after_restart};

use crate::fills::{erased_bytes, put, tear};
use crate::history::{CallRecord, Kept};
use crate::plan::{FlashPlan, Outcome, Power};
use crate::{BLOCK_LEN, BLOCKS, FLASH_LEN, Flash};
use arrayvec::ArrayVec;
use port_io::Failed;
use std::alloc::{AllocError as NoMemory, Global};

/// A flash in memory, made blank or with given bytes. A call fails exactly where its plan says so.
#[derive(Drop)]
pub struct MemoryFlash {
    bytes: Vec<u8>,
    power: Power,
    history: CallRecord,
    programmed: u64,
    erased: u64,
    ghost sized: { length bytes.items ≡ block_len * card_blocks },
    ghost replays: { IsTrue history.past.known
        → content history.past.first history.past.calls ≡ bytes.items },
    ghost images_sized: { IsTrue history.past.known → (t : ℕ) (image : List ℕ)
        → Since history.past.first history.past.calls t image
        → length image ≡ block_len * card_blocks },
}

impl MemoryFlash {
    ghost use Rattle.std.specs.Option.{option_map};
    ghost use Rattle.flash_pages.specs.Kept.{made_with};
    ghost use Rattle.flash_pages.specs.Memory.{IsMade};

    /// Makes a blank flash. The plan's vectors are its own from then on. Takes the memory of the
    /// whole flash, and the room for the plan's number of kept calls.
    pub fn new(alloc: Global, plan: FlashPlan) -> Result<Self, NoMemory>
        ensures { IfOk result (IsMade (blank (block_len * card_blocks)) plan) }
    {
        let bytes = erased_bytes(alloc, FLASH_LEN as usize)?;
        Self::starting(alloc, bytes, None, plan)
    }

    /// Makes a flash that holds these bytes, of the flash's length. It keeps a copy of them beside
    /// its content, since its images follow from them; so it takes the memory of the flash twice,
    /// and the room for the plan's number of kept calls.
    pub fn holding(alloc: Global, bytes: &[u8], plan: FlashPlan) -> Result<Self, NoMemory>
        requires { length bytes.now ≡ block_len * card_blocks }
        ensures { IfOk result (IsMade bytes.now plan) }
    {
        let first = bytes.to_vec(alloc)?;
        Self::starting(alloc, bytes.to_vec(alloc)?, Some(first), plan)
    }

    // Makes a flash with these bytes, which are also its first ones, or blank where it keeps none.
    fn starting(
        alloc: Global,
        bytes: Vec<u8>,
        first: Option<Vec<u8>>,
        plan: FlashPlan,
    ) -> Result<Self, NoMemory>
        requires first { made_with (option_map (λ v. v.items) first) ≡ bytes.items }
        requires size { length bytes.items ≡ block_len * card_blocks }
        ensures { IfOk result (IsMade bytes.items plan) }
    {
        let FlashPlan {
            fail,
            fail_reads,
            cut,
            torn,
            kept,
        } = plan;
        Ok(MemoryFlash {
            bytes,
            power: Power::new(fail, fail_reads, cut),
            history: CallRecord::new(alloc, first, torn, kept as usize)?,
            programmed: 0,
            erased: 0,
        })
    }

    // Begins a program or an erase, which goes on after Ok. Where it is to fail it leaves what a
    // failure leaves.
    fn begin(&mut self, at: u32, len: u32) -> Result<(), Failed>
        requires { IsRange card_blocks at len }
        ensures answer { is_ok result ≡ is_done (next_outcome self.old.power) }
        ensures power { self.new.power ≡ after_change self.old.power }
        ensures programmed { self.new.programmed ≡ self.old.programmed }
        ensures erased { self.new.erased ≡ self.old.erased }
        ensures torn { self.new.history.torn ≡ self.old.history.torn }
        ensures ok { OnOk result ((self.new.bytes.items ≡ self.old.bytes.items)
            × (self.new.history.past ≡ self.old.history.past)) }
        ensures err { OnErr result (
            let left = left_by (next_outcome self.old.power) self.old.history.torn (blank len) in
            (self.new.bytes.items ≡ with_left self.old.bytes.items at left)
            × (self.new.history.past
            ≡ after_call self.old.history.past (Write at len left false))) }
        ensures cause { FailsOnlyWhereRose result self.old.power.faults self.new.power.faults }
        ensures count { NeverFalls self.old.power.faults self.new.power.faults }
    {
        match self.power.begin_change() {
            Outcome::Done => Ok(()),
            Outcome::Torn => {
                tear(
                    &mut self.bytes,
                    at as usize,
                    len as usize,
                    self.history.torn(),
                );
                self.history.keep(Kept::Torn { at, len });
                Err(Failed)
            }
            Outcome::Off => {
                self.history.keep(Kept::Off { at, len });
                Err(Failed)
            }
        }
    }
}

impl Flash for MemoryFlash {
    ghost use Rattle.flash_pages.specs.Memory.{state_of, plan_of, bytes_of, torn_of, room_of};
    ghost use Rattle.flash_pages.specs.Memory.{last_ok_of, RecordsCall};

    ghost state = { state_of };

    ghost lawful = { λ flash. IsFlash-memory flash.history.past flash.bytes.items flash.programmed
        flash.erased flash.power.faults flash.sized flash.replays flash.images_sized };

    fn blocks(&self) -> u32 {
        BLOCKS
    }

    fn faults(&self) -> u64 {
        self.power.faults()
    }

    fn read(&mut self, at: u32, buf: &mut [u8]) -> Result<(), Failed>
        requires { IsRange card_blocks at (length buf.old) }
        ensures bytes { OnOk result (buf.new ≡ part at (length buf.old) (bytes_of self.old)) }
        ensures reads { Reads (state_of self.old) (state_of self.new) }
        ensures cause { FailsOnlyWhereRose result (plan_of self.old).faults
            (plan_of self.new).faults }
        ensures answer { is_ok result ≡ is_read (plan_of self.old) }
        ensures plan { plan_of self.new ≡ after_read (plan_of self.old) }
        ensures known { (state_of self.new).images_known ≡ (state_of self.old).images_known }
        ensures last_ok { last_ok_of self.new ≡ last_ok_of self.old }
        ensures room { room_of self.new ≡ room_of self.old }
        ensures torn { torn_of self.new ≡ torn_of self.old }
    {
        if self.power.begin_read() {
            let start = at as usize;
            buf.copy_from_slice(&self.bytes[start..start + buf.len()]);
            Ok(())
        } else {
            Err(Failed)
        }
    }

    fn program(&mut self, at: u32, bytes: &[u8]) -> Result<(), Failed>
        requires piece { IsPiece card_blocks at (length bytes.now) }
        requires erased { IsErased at (length bytes.now) (bytes_of self.old) }
        ensures changes { Changes at bytes.now (state_of self.old) (state_of self.new) result }
        ensures programmed { (state_of self.new).programmed
            ≡ one_more (state_of self.old).programmed }
        ensures erased { (state_of self.new).erased ≡ (state_of self.old).erased }
        ensures cause { FailsOnlyWhereRose result (plan_of self.old).faults
            (plan_of self.new).faults }
        ensures answer { is_ok result ≡ is_done (next_outcome (plan_of self.old)) }
        ensures plan { plan_of self.new ≡ after_change (plan_of self.old) }
        ensures recorded { RecordsCall self.old self.new result }
        ensures left { bytes_of self.new
            ≡ with_left (bytes_of self.old) at
            (left_by (next_outcome (plan_of self.old)) (torn_of self.old) bytes.now) }
    {
        self.programmed = self.programmed.saturating_add(1);
        self.begin(at, bytes.len() as u32)?;
        put(&mut self.bytes, at as usize, bytes);
        let mut kept = ArrayVec::new();
        kept.try_extend_from_slice(bytes).unwrap();
        self.history.keep(Kept::Program { at, bytes: kept });
        Ok(())
    }

    fn erase(&mut self, block: u32) -> Result<(), Failed>
        requires { block < card_blocks }
        ensures changes { Changes (block_len * block) (blank block_len) (state_of self.old)
            (state_of self.new) result }
        ensures programmed { (state_of self.new).programmed ≡ (state_of self.old).programmed }
        ensures erased { (state_of self.new).erased ≡ one_more (state_of self.old).erased }
        ensures cause { FailsOnlyWhereRose result (plan_of self.old).faults
            (plan_of self.new).faults }
        ensures answer { is_ok result ≡ is_done (next_outcome (plan_of self.old)) }
        ensures plan { plan_of self.new ≡ after_change (plan_of self.old) }
        ensures recorded { RecordsCall self.old self.new result }
        ensures left { bytes_of self.new ≡ with_left (bytes_of self.old) (block_len * block)
            (left_by (next_outcome (plan_of self.old)) (torn_of self.old) (blank block_len)) }
    {
        self.erased = self.erased.saturating_add(1);
        let at = BLOCK_LEN * block;
        self.begin(at, BLOCK_LEN)?;
        tear(&mut self.bytes, at as usize, BLOCK_LEN as usize, &[]);
        self.history.keep(Kept::Erase { block });
        Ok(())
    }

    fn restart(&mut self) -> Result<(), Failed>
        ensures restarts { Restarts (state_of self.old) (state_of self.new) result }
        ensures cause { FailsOnlyWhereRose result (plan_of self.old).faults
            (plan_of self.new).faults }
        ensures answer { IsOk result }
        ensures plan { plan_of self.new ≡ after_restart (plan_of self.old) }
        ensures recorded { RecordsCall self.old self.new result }
        ensures bytes { bytes_of self.new ≡ bytes_of self.old }
    {
        self.power.restart();
        self.history.keep(Kept::Restart);
        Ok(())
    }
}
