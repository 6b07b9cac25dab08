//! The accesses of a range.
ghost use Rattle.std.specs.Prelude.{◌≡◌, ℕ, List, [], ◌∷◌, ◌++◌, length, take, flat_map, false, IfOk, OnOk, OnErr, MatchOption};
ghost use Rattle.gfx_asked.specs.declared.access.Access.TheVariants as access;
ghost use Rattle.gfx_asked.specs.Accesses.{accesses_of_op, asked_before, AreNear};

use crate::access::{Access, RowCopy};
use crate::asked::Asked;
use gfx_types::{Op, WantMemory};
use std::alloc::Global;
use std::marker::Model;

/// The accesses of a range, the oldest first.
#[derive(Drop)]
pub struct Accesses {
    items: Vec<Access>,
    alloc: Global,
}

impl Model for Accesses {
    ghost use Rattle.std.specs.Prelude.{List};
    ghost use Rattle.std.specs.List.{AllByRecursion};
    ghost use Rattle.gfx_asked.specs.declared.access.Access.{Access};

    ghost Value = { List Access };

    ghost use Rattle.gfx_asked.specs.Accesses.{IsNear};

    ghost view = { λ a. a.items.items };

    ghost invariant = { λ a. AllByRecursion IsNear a.items.items };
}

impl Accesses {
    ghost use Rattle.gfx_asked.specs.Asked.{questions, AreSame};

    /// No accesses.
    pub fn new(alloc: Global) -> Accesses
        ensures { result ≡ [] }
    {
        Accesses {
            items: Vec::new(alloc),
            alloc,
        }
    }

    /// Adds that an image of so many bytes is shown. When out of memory the accesses are as they were.
    pub fn push_shown(&mut self, image: u64, size: u64) -> Result<(), WantMemory>
        ensures ok { OnOk result (self.new ≡ self.old ++ access.Show image size ∷ []) }
        ensures err { OnErr result (self.new ≡ self.old) }
    {
        Ok(self.items.push(Access::Show { image, size })?)
    }

    /// Adds the accesses of operations in order, where their effect gives so many bytes of its own. When out of memory
    /// the accesses are as they were.
    pub fn push_ops(&mut self, ops: &[Op], given: usize) -> Result<(), WantMemory>
        requires { AreNear given ops.now }
        ensures ok { OnOk result (self.new ≡ self.old ++ flat_map (accesses_of_op given) ops.now) }
        ensures err { OnErr result (self.new ≡ self.old) }
    {
        let length = self.items.len();
        if let Err(WantMemory) = append(&mut self.items, ops, given) {
            self.items.truncate(length);
            return Err(WantMemory);
        }
        Ok(())
    }

    /// The bytes that the accesses ask for of what was before them.
    pub fn asked(&self) -> Result<Asked, WantMemory>
        ensures { IfOk result (λ asked. AreSame (questions asked) (asked_before self.now)) }
    {
        let mut asked = Asked::new(self.alloc);
        let mut at = self.items.len();
        'back: while at > 0 {
            at -= 1;
            asked.go_before(&self.items[at])?;
        }
        Ok(asked)
    }
}

// Appends the accesses of operations. When out of memory the list begins with what it was.
fn append(items: &mut Vec<Access>, ops: &[Op], given: usize) -> Result<(), WantMemory>
    ensures ok { OnOk result (items.new.items ≡ items.old.items ++ flat_map (accesses_of_op given) ops.now) }
    ensures err { OnErr result (take (length items.old.items) items.new.items ≡ items.old.items) }
{
    'ops: for op in ops {
        if let Some(access) = access_of(op, given) {
            items.push(access)?;
        }
    }
    Ok(())
}

// The access of an operation; one that sets a layout has none.
fn access_of(op: &Op, given: usize) -> Option<Access>
    ensures { MatchOption result (accesses_of_op given op.now ≡ []) (λ access. accesses_of_op given op.now ≡ access ∷ []) }
{
    match op {
        Op::Put {
            place,
            offset,
            bytes,
        } => Some(Access::Write {
            place: *place,
            offset: *offset,
            length: bytes.items().len() as u64,
        }),
        Op::PutGiven { place, offset } => Some(Access::Write {
            place: *place,
            offset: *offset,
            length: given as u64,
        }),
        Op::Fill {
            place,
            offset,
            length,
            ..
        } => Some(Access::Write {
            place: *place,
            offset: *offset,
            length: *length,
        }),
        Op::Copy {
            to,
            to_offset,
            to_step,
            from,
            from_offset,
            from_step,
            length,
            rows,
        } => Some(Access::Copy(RowCopy {
            to: *to,
            to_offset: *to_offset,
            to_step: *to_step,
            from: *from,
            from_offset: *from_offset,
            from_step: *from_step,
            length: *length,
            rows: *rows,
        })),
        Op::SetLayout { .. } => None,
    }
}
