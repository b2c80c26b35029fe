//! Creations and prints of a run.

ghost use Rattle.std.specs.Prelude.{◌≡◌, ◌⊎◌, ◌<◌, ◌^◌, ℕ, IfNone, IfOk, IfSome, Some};
ghost use Rattle.ca_program.specs.Instructions.{Code};
ghost use Rattle.ca_program.specs.Instructions as instruction;
ghost use Rattle.ca_program.specs.Plain.{PlainProgram};
ghost use Rattle.ca_program.specs.View.{program_view};
ghost use Rattle.ca_model.specs.Heaps.{created};
ghost use Rattle.ca_meaning.specs.Serial.{World, in_heap, printed};
ghost use Rattle.ca_code.specs.Seen.{kind_seen};
ghost use Rattle.ca_code_laws.specs.Machine.{Next, act};
ghost use Rattle.ca_code_laws.specs.Runs.{run_access};
ghost use Rattle.ca_steps.specs.Stands.{state_of};
ghost use Rattle.ca_steps.specs.Lacking.{IsFar, IsShort, LacksItem};
ghost use Rattle.ca_steps.specs.Leaving.{Acts, Makes, made_in};

use crate::access::Look;
use crate::calls::Went;
use crate::frames::Frames;
use crate::loads::own_look;
use crate::run::{InRun, store};
use crate::words::word;
use ca_code::Kind;
use ca_model::{CreateError, TrapKind, Value};
use ca_program::{ClassId, FieldId};
use std::alloc::AllocError;

/// What came of a creation: an object of this number; or there is no room for it.
#[derive(Clone, Copy)]
pub enum Made {
    Object(u32),
    Full,
}

impl<'a> InRun<'a> {
    /// Makes an object of a class.
    #[inline(always)]
    fn make(&mut self, class: ClassId) -> Result<Made, AllocError>
        ensures makes { IfOk result (λ made. (line k : ℕ) → Makes (program_view self.old.program.now) line class self.old.heap k made self.new.heap) }
        ensures program { self.new.program ≡ self.old.program }
    {
        let program = self.program;
        match self.heap.create(program, class) {
            Ok(id) => Ok(Made::Object(id)),
            Err(error) => match error {
                CreateError::Full => Ok(Made::Full),
                CreateError::Memory => Err(AllocError),
            },
        }
    }

    /// A new object in a local.
    pub(crate) fn new_local(
        &mut self,
        frames: &mut Frames,
        l: u32,
        class: ClassId,
    ) -> Result<Went, AllocError>
        requires few { frames.old.at < 2 ^ 62 }
        ensures acts { IfOk result (λ went. (c : Code) (line : ℕ) (w : World) → Acts (IsShort frames.old l) line (λ next. act (run_access (program_view self.old.program.now)) c line (Some (instruction.NewLocal l class)) next (state_of frames.old (in_heap w self.old.heap))) frames.new (in_heap w self.new.heap) went) }
        ensures program { self.new.program ≡ self.old.program }
    {
        let made = self.make(class)?;
        match made {
            Made::Object(id) => {
                let place = frames.base as usize + l as usize;
                if !frames.put(place, word(Value::Ref(id))) {
                    return Ok(Went::Fails);
                }
                frames.at += 1;
                Ok(Went::On)
            }
            Made::Full => Ok(Went::Traps(TrapKind::HeapFull)),
        }
    }

    /// A new object in an item of an own field.
    #[inline(always)]
    fn new_in(
        &mut self,
        frames: &mut Frames,
        f: FieldId,
        item: u32,
        class: ClassId,
    ) -> Result<Went, AllocError>
        requires few { frames.old.at < 2 ^ 62 }
        ensures acts { IfOk result (λ went. (line : ℕ) (w : World) → Acts (LacksItem (created (program_view self.old.program.now) class self.old.heap) frames.old.this f item) line (λ next. made_in (program_view self.old.program.now) line f item class next (state_of frames.old (in_heap w self.old.heap))) frames.new (in_heap w self.new.heap) went) }
        ensures program { self.new.program ≡ self.old.program }
    {
        let made = self.make(class)?;
        match made {
            Made::Object(id) => {
                if !store(&mut self.heap, frames.this, f, item, Value::Ref(id)) {
                    return Ok(Went::Fails);
                }
                frames.at += 1;
                Ok(Went::On)
            }
            Made::Full => Ok(Went::Traps(TrapKind::HeapFull)),
        }
    }

    /// A new object in an own field.
    pub(crate) fn new_field(
        &mut self,
        frames: &mut Frames,
        f: FieldId,
        class: ClassId,
    ) -> Result<Went, AllocError>
        requires few { frames.old.at < 2 ^ 62 }
        ensures acts { IfOk result (λ went. (c : Code) (line : ℕ) (w : World) → Acts (LacksItem (created (program_view self.old.program.now) class self.old.heap) frames.old.this f 0) line (λ next. act (run_access (program_view self.old.program.now)) c line (Some (instruction.NewField f class)) next (state_of frames.old (in_heap w self.old.heap))) frames.new (in_heap w self.new.heap) went) }
        ensures program { self.new.program ≡ self.old.program }
    {
        self.new_in(frames, f, 0, class)
    }

    /// A new object in an item of an own field, by the index in a slot.
    pub(crate) fn new_item(
        &mut self,
        frames: &mut Frames,
        f: FieldId,
        i: u32,
        class: ClassId,
    ) -> Result<Went, AllocError>
        requires few { frames.old.at < 2 ^ 62 }
        ensures acts { IfOk result (λ went. (c : Code) (line : ℕ) (w : World) → Acts (IsShort frames.old i ⊎ ((place : ℕ) × LacksItem (created (program_view self.old.program.now) class self.old.heap) frames.old.this f place)) line (λ next. act (run_access (program_view self.old.program.now)) c line (Some (instruction.NewItem f i class)) next (state_of frames.old (in_heap w self.old.heap))) frames.new (in_heap w self.new.heap) went) }
        ensures program { self.new.program ≡ self.old.program }
    {
        let Some(index) = frames.number(i) else {
            return Ok(Went::Fails);
        };
        match own_look(&self.heap, frames.this, f, index) {
            Look::Holds(place, _) => self.new_in(frames, f, place, class),
            Look::Outside => Ok(Went::Traps(TrapKind::OutOfRange)),
            Look::Unknown => unreachable!(),
        }
    }
}

impl Frames {
    /// A print: what is printed, behind the instruction.
    #[inline(always)]
    pub(crate) fn print(&mut self, kind: Kind, a: u32) -> Option<Value>
        requires few { self.old.at < 2 ^ 62 }
        ensures some { IfSome result (λ v. (p : PlainProgram) (c : Code) (line : ℕ) (w : World) (next : Next World) → act (run_access p) c line (Some (instruction.Print (kind_seen kind) a)) next (state_of self.old w) ≡ next (state_of self.new (printed w v))) }
        ensures none { IfNone result (IsShort self.old a ⊎ IsFar self.old a) }
    {
        match self.value(kind, a) {
            Some(value) => {
                self.at += 1;
                Some(value)
            }
            None => None,
        }
    }
}
