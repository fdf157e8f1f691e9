//! How far the checks of a document may still go behind names.

use std::cell::Cell;
use witx_ast::{Datatype, TypeRef};
use witx_base::OutOfMemory;

/// Steps that all checks of a document may take behind names: one along each name, one for each member of a tuple
/// that is given back, and one for each name before one that is introduced again. Without an end a chain of names, or a
/// tuple, would cost its length at each mention, and all names theirs at each fault; these take about a tenth of a
/// second.
const MOST_STEPS: usize = 1 << 23;

/// The steps that are left of those; beyond them comes want of memory.
#[derive(Drop)]
pub struct StepsLeft {
    left: Cell<usize>,
}

impl StepsLeft {
    /// All of them.
    pub fn new() -> StepsLeft {
        StepsLeft {
            left: Cell::new(MOST_STEPS),
        }
    }

    /// Takes so many steps.
    pub(crate) fn take(&self, steps: usize) -> Result<(), OutOfMemory> {
        let left = self.left.get();
        if steps > left {
            return Err(OutOfMemory);
        }
        self.left.set(left - steps);
        Ok(())
    }

    /// Takes the steps along the names for a type.
    pub fn take_names(&self, tref: &TypeRef) -> Result<(), OutOfMemory> {
        let mut left = self.left.get();
        let mut tref = tref;
        while let TypeRef::Name(named) = tref {
            if left == 0 {
                return Err(OutOfMemory);
            }
            left -= 1;
            tref = &named.tref;
        }
        self.left.set(left);
        Ok(())
    }

    /// Takes the steps in which an ABI looks at the type of a result: along its names, along those for what stands
    /// under `ok`, and through the members of that tuple.
    pub fn take_result(&self, tref: &TypeRef) -> Result<(), OutOfMemory> {
        self.take_names(tref)?;
        if let Datatype::Variant(variant) = &**tref.type_() {
            if let Some((Some(ok), _)) = variant.as_expected() {
                self.take_names(ok)?;
                if let Datatype::Record(record) = &**ok.type_() {
                    self.take(record.members.len())?;
                }
            }
        }
        Ok(())
    }
}
