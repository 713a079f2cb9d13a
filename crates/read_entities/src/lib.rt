// The last pass over one entity, read where its record stands: 6 and 7 in text order, 12, 14, 15. `naming` tells what a value names in the
// file, `marks` how each value is marked in the sheet. Crate `read_walk` goes over an entity's values once, `read_entity` is the pass.
#![tactic(auto)]

pub mod marks;
pub mod naming;

use columns::Fault;
use layouts::LayoutState;
use values::Value;

// A value of a record, and the position behind its delimiter.
#[derive(Clone, Copy)]
pub struct Taken {
    pub value: Value,
    pub next: usize,
}

// What the last pass says of an entity: nothing is wrong, or its first refusal; and the bytes of the lines of the values that it carries.
#[derive(Clone, Copy)]
pub struct Weighed {
    pub answer: Result<(), Fault>,
    pub length: usize,
}

// An entity's values behind its type, walked over: the layout behind the last that is no default, and the bytes of the value
// lines up to it.
#[derive(Clone, Copy)]
pub struct Walked {
    pub state: Option<LayoutState>,
    pub length: usize,
}
