// What a reference may ask of the entry that it names: that it is there, and of which type it is.
#![tactic(auto)]

ghost use Rattle.std.specs.Prelude.{◌≡◌, ◌≤◌};
ghost use Rattle.references.specs.References.{other_entry, entry142, class_of, fits};

// What wants any entry.
pub const ANY: u8 = 0;

// The classes: no entry of the file, an entry of a type that nobody asks for, and one for each type that somebody asks for.
pub const NO_ENTRY: u8 = 0;

pub const OTHER_ENTRY: u8 = 1;

pub const ENTRY_124: u8 = 2;

pub const ENTRY_314: u8 = 3;

pub const ENTRY_308: u8 = 4;

pub const ENTRY_142: u8 = 5;

// The class of an entry of this type.
#[tactic(auto, using(crate::proofs::Classes::classes))]
pub fn class_of(typ: u32) -> u8
    ensures value { result ≡ class_of typ }
    ensures lower_bound { (other_entry ≤ result) × (result ≤ entry142) }
{
    match typ {
        124 => ENTRY_124,
        314 => ENTRY_314,
        308 => ENTRY_308,
        142 => ENTRY_142,
        _ => OTHER_ENTRY,
    }
}

// Whether an entry of this class is what a place wants: any entry, or one of the class wanted.
pub fn fits(want: u8, class: u8) -> bool
    ensures { result ≡ fits want class }
{
    if want == ANY {
        return OTHER_ENTRY <= class;
    }
    class == want
}
