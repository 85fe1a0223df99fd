//! A walk over numbers, from each to what it needs: depth first, with a stack of its own.
ghost use Rattle.std.specs.Prelude.{◌≡◌, ℕ, ◌+◌, ◌-◌, ◌<◌, ◌++◌, [], ◌∷◌, Some, length, slice_get, slice_set, replicate, IfOk, OnOk, IfErr};
ghost use Rattle.order.specs.Orders.{AreNumbers};
ghost use Rattle.order.specs.Walk.{IsUnderway, NoneBecomesNew, all_steps_left};
ghost use Rattle.order.specs.Faults.{FaultHolds};

use crate::fault::OrderFault;
use base::Rows;
use std::alloc::{AllocError, Global};

/// How far a number is.
#[derive(Clone, Copy)]
pub(crate) enum Progress {
    /// The walk has not come to it.
    New,
    /// It stands on the stack, and so many of its needs, from the first on, stand in the order.
    Started(usize),
    /// It stands in the order.
    Done,
}

/// A walk over numbers.
#[derive(Drop)]
pub(crate) struct Walk {
    progress: Vec<Progress>,
    // each needs the next one
    stack: Vec<u32>,
    pub(crate) order: Vec<u32>,
}

impl Walk {
    /// A walk over so many numbers that has come to none of them.
    pub(crate) fn new(alloc: Global, count: usize) -> Result<Walk, AllocError>
        ensures progress { IfOk result (λ w. w.progress.items ≡ replicate count Progress.New) }
        ensures stack { IfOk result (λ w. w.stack.items ≡ []) }
        ensures order { IfOk result (λ w. w.order.items ≡ []) }
    {
        Ok(Walk {
            progress: vec![in alloc; Progress::New; count]?,
            stack: Vec::new(alloc),
            order: Vec::new(alloc),
        })
    }

    /// Takes a number into the order, behind what it needs.
    pub(crate) fn visit(&mut self, needs: &Rows<u32>, first: u32) -> Result<(), OrderFault>
        requires numbers { AreNumbers needs.now }
        requires inside { first < length needs.now }
        requires empty { self.old.stack.items ≡ [] }
        requires underway { IsUnderway needs.now self.old.progress.items self.old.stack.items self.old.order.items }
        ensures empty { OnOk result (self.new.stack.items ≡ []) }
        ensures underway { OnOk result
            (IsUnderway needs.now self.new.progress.items self.new.stack.items self.new.order.items) }
        ensures first { OnOk result (slice_get self.new.progress.items first ≡ Some Progress.New → ⊥) }
        ensures none_new { OnOk result
            (NoneBecomesNew self.old.progress.items self.new.progress.items) }
        ensures err { IfErr result (FaultHolds needs.now) }
    {
        let Progress::New = self.progress[first as usize] else {
            return Ok(());
        };
        self.start(first)?;
        'walking: while let Some(top) = self.top() {
            self.step(needs, top)?;
        }
        Ok(())
    }

    /// The number on the top of the stack.
    fn top(&self) -> Option<u32>
        ensures { result
            ≡ slice_get self.now.stack.items (length self.now.stack.items - 1) }
    {
        self.stack.last().copied()
    }

    /// Looks at the next need of the number on the top, or takes that number into the order.
    fn step(&mut self, needs: &Rows<u32>, top: u32) -> Result<(), OrderFault>
        requires numbers { AreNumbers needs.now }
        requires top { slice_get self.old.stack.items (length self.old.stack.items - 1) ≡ Some top }
        requires underway { IsUnderway needs.now self.old.progress.items self.old.stack.items self.old.order.items }
        ensures underway { OnOk result
            (IsUnderway needs.now self.new.progress.items self.new.stack.items self.new.order.items) }
        ensures none_new { OnOk result
            (NoneBecomesNew self.old.progress.items self.new.progress.items) }
        ensures fewer { OnOk result (all_steps_left needs.now self.new.progress.items
            < all_steps_left needs.now self.old.progress.items) }
        ensures err { IfErr result (FaultHolds needs.now) }
    {
        let Progress::Started(place) = self.progress[top as usize] else {
            unreachable!();
        };
        let row = needs.row(top as usize);
        if place == row.len() {
            self.finish(top)?;
            return Ok(());
        }
        let need = row[place];
        match self.progress[need as usize] {
            Progress::New => self.start(need)?,
            Progress::Started(_) => return Err(OrderFault::Circle(need as usize)),
            Progress::Done => self.progress[top as usize] = Progress::Started(place + 1),
        }
        Ok(())
    }

    /// Puts a number on the stack that the walk has not come to.
    fn start(&mut self, number: u32) -> Result<(), AllocError>
        requires inside { number < length self.old.progress.items }
        ensures progress { OnOk result (self.new.progress.items
            ≡ slice_set self.old.progress.items number (Progress.Started 0)) }
        ensures stack { OnOk result (self.new.stack.items ≡ self.old.stack.items ++ number ∷ []) }
        ensures order { OnOk result (self.new.order.items ≡ self.old.order.items) }
    {
        self.stack.push(number)?;
        self.progress[number as usize] = Progress::Started(0);
        Ok(())
    }

    /// Takes the number on the top into the order.
    fn finish(&mut self, top: u32) -> Result<(), AllocError>
        requires inside { top < length self.old.progress.items }
        requires top { slice_get self.old.stack.items (length self.old.stack.items - 1) ≡ Some top }
        ensures progress { OnOk result (self.new.progress.items
            ≡ slice_set self.old.progress.items top Progress.Done) }
        ensures stack { OnOk result (self.old.stack.items ≡ self.new.stack.items ++ top ∷ []) }
        ensures order { OnOk result (self.new.order.items ≡ self.old.order.items ++ top ∷ []) }
    {
        self.order.push(top)?;
        self.progress[top as usize] = Progress::Done;
        let _ = self.stack.pop();
        Ok(())
    }
}
