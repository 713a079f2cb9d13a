// What a type list knows.
#![tactic(auto)]

ghost use Rattle.std.specs.Prelude.{◌≡◌, leb};
ghost use Rattle.columns.specs.Format.{most_list};
ghost use Rattle.layouts.specs.Layout.{bit_of};
ghost use Rattle.layouts.specs.Known.{known};

use columns::format::MOST_LIST;

// How many rows the table of types has: a bit for each.
pub const ROWS: usize = 14;

// The bit for a type and form; as many as there are bits where there is none.
#[tactic(auto, using(crate::proofs::Forms::forms))]
pub fn bit_of(typ: u32, form: u32) -> usize
    ensures { result ≡ bit_of typ form }
{
    match typ {
        100 => 0,
        102 => 1,
        110 => 2,
        116 => 3,
        124 => 4,
        126 => 5,
        128 => 6,
        142 => 7,
        144 => 8,
        308 => 9,
        314 => 10,
        402 => if form == 7 { 11 } else { ROWS },
        406 => if form == 15 { 12 } else { ROWS },
        408 => 13,
        _ => ROWS,
    }
}

// Whether the list has the bit for a type and form.
pub fn known(list: u64, typ: u32, form: u32) -> bool
    ensures { result ≡ known list typ form }
{
    let k = bit_of(typ, form);
    if k < ROWS {
        (list >> k) % 2 == 1
    } else {
        false
    }
}

// A list is a number 0..16,383.
pub fn is_list(list: u64) -> bool
    ensures { result ≡ leb list most_list }
{
    list <= MOST_LIST
}
