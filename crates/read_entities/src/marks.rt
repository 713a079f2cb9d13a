// The marks of an entity's values in the sheet.
ghost use Rattle.std.specs.Prelude.{◌≡◌, ◌+◌, ◌*◌, ◌≤◌, length};
ghost use Rattle.columns.specs.Format.{line_bytes};
ghost use Rattle.directory.specs.Naming.{types_at};
ghost use Rattle.layouts.specs.Walk.{stepped, mark};
ghost use Rattle.read_entities.specs.Marks.{marks_begun};

use crate::naming::named_at;
use layouts::LayoutState;
use layouts_lists::known;
use layouts_machine::{is_reference, start, step};
use values::Value;

// Before the first value.
#[tactic(auto, using(crate::proofs::Marking::marking))]
pub fn marks_begun(list: u64, typ: u32, form: u32) -> Option<LayoutState>
    ensures { result ≡ marks_begun list typ form }
{
    known(list, typ, form).then(|| start(typ, form))
}

// The mark of the next value: whether it is R.
#[tactic(auto, using(crate::proofs::Marking::marking))]
pub fn mark_of(g: Option<LayoutState>) -> bool
    ensures { result ≡ mark g }
{
    g.is_some_and(is_reference)
}

// Behind this value.
#[tactic(auto, using(crate::proofs::Marking::marking))]
pub fn mark_step(
    file: &[u8],
    first: usize,
    n: usize,
    g: Option<LayoutState>,
    v: Value,
) -> Option<LayoutState>
    requires { line_bytes * (first + 2 * n) ≤ length file.now }
    ensures { result ≡ stepped (types_at file.now first n) g v }
{
    let s = g?;
    let class = named_at(file, first, n, v);
    step(s, v, class)
}
