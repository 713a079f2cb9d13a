// The numbers of an entry in their order, that of the sheet's entry line: said once, for files and for sheets.
ghost use Rattle.std.specs.Prelude.{◌≡◌};
ghost use Rattle.directory.specs.Fields.{in_order, fields_of};

use crate::Fields;
use columns::Signed;

pub const TYPE: usize = 0;

pub const FORM: usize = 1;

pub const STRUCTURE: usize = 2;

pub const FONT: usize = 3;

pub const LEVEL: usize = 4;

pub const VIEW: usize = 5;

pub const MATRIX: usize = 6;

pub const DISPLAY: usize = 7;

pub const STATUS: usize = 8;

pub const WEIGHT: usize = 9;

pub const COLOUR: usize = 10;

pub const SUBSCRIPT: usize = 11;

// How many there are.
pub const NUMBERS: usize = 12;

// The numbers in their order.
pub fn in_order(x: Fields) -> [Signed; NUMBERS]
    ensures { result ≡ in_order x }
{
    [
        x.entity,
        x.form,
        x.structure,
        x.font,
        x.level,
        x.view,
        x.matrix,
        x.display,
        x.status,
        x.weight,
        x.colour,
        x.subscript,
    ]
}

// And back.
pub fn fields_of(xs: [Signed; NUMBERS]) -> Fields
    ensures { result ≡ fields_of xs }
{
    Fields {
        entity: xs[TYPE],
        form: xs[FORM],
        structure: xs[STRUCTURE],
        font: xs[FONT],
        level: xs[LEVEL],
        view: xs[VIEW],
        matrix: xs[MATRIX],
        display: xs[DISPLAY],
        status: xs[STATUS],
        weight: xs[WEIGHT],
        colour: xs[COLOUR],
        subscript: xs[SUBSCRIPT],
    }
}
