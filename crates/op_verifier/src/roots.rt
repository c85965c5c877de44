//! The values that are asked of variables, as a list.

ghost use Rattle.std.specs.Prelude.{◌≡◌};
ghost use Rattle.op_verifier.specs.Parts.{roots_of};

use crate::wanted::Wanted;
use arrayvec::ArrayVec;
use attr_value::ValueId;
use dialect_defs::{VARIABLE_LIMIT, VarId};

impl Wanted<'_> {
    /// Each variable of which a value is asked, with it.
    pub(crate) fn roots(&self) -> ArrayVec<(VarId, ValueId), VARIABLE_LIMIT>
        ensures { result.items ≡ roots_of 0 self.now.slots.items }
    {
        let mut roots = ArrayVec::new();
        for (i, slot) in self.slots.as_slice().iter().enumerate() {
            if let Some(id) = slot {
                roots.push((VarId(i), *id));
            }
        }
        roots
    }
}
