// What an entry's numbers mean, and what rules 9, 13 and 10 ask of them.
#![tactic(auto)]

ghost use Rattle.std.specs.Prelude.{◌≡◌, ◌<◌, length, leb};
ghost use Rattle.columns.specs.Decimal.{signed_dec};
ghost use Rattle.columns.specs.Format.{field_columns};
ghost use Rattle.directory.specs.Fields.{attribute_of, entry_of};
ghost use Rattle.directory.specs.Rules.{or_less, up_to, signs_ok, limits_ok, pair_ok, status_ok, narrow, ranges_ok};
ghost use Rattle.directory.specs.Rules.{all_fit, references};
ghost use Rattle.directory.specs.Asking.{asks_ok, rule_of, of_number, of_attribute, reference_count, wanted_of};

use columns::{DirectoryNumber, Fault, Signed};
use directory::entries::Entries;
use directory::{Attribute, Entry, Fields, Wanted, order};

// How many references an entry may have.
const REFERENCES: usize = 7;

// ---- what the numbers mean

fn attribute_of(x: Signed) -> Attribute
    ensures { result ≡ attribute_of x }
{
    if x.neg {
        return Attribute::Reference(DirectoryNumber(x.size));
    }
    Attribute::Number(x.size)
}

// The directory record of an entry's numbers.
#[tactic(auto, using(directory::proofs::Asked::meaning))]
pub fn entry_of(x: Fields) -> Entry
    ensures { result ≡ entry_of x }
{
    Entry {
        entity: x.entity.size,
        form: x.form.size,
        structure: DirectoryNumber(x.structure.size),
        font: attribute_of(x.font),
        level: attribute_of(x.level),
        view: DirectoryNumber(x.view.size),
        matrix: DirectoryNumber(x.matrix.size),
        display: DirectoryNumber(x.display.size),
        status: x.status.size,
        weight: x.weight.size,
        colour: attribute_of(x.colour),
        subscript: x.subscript.size,
    }
}

// ---- 9 and 13

fn signs_ok(x: Fields) -> bool
    ensures { result ≡ signs_ok x }
{
    !x.entity.neg
        && !x.view.neg
        && !x.matrix.neg
        && !x.display.neg
        && !x.weight.neg
        && !x.form.neg
        && !x.subscript.neg
}

fn or_less(x: Signed) -> bool
    ensures { result ≡ or_less x }
{
    x.neg || x.size == 0
}

fn up_to(most: u32, x: Signed) -> bool
    ensures { result ≡ up_to most x }
{
    x.neg || x.size <= most
}

fn limits_ok(x: Fields) -> bool
    ensures { result ≡ limits_ok x }
{
    or_less(x.structure) && up_to(5, x.font) && up_to(8, x.colour)
}

fn pair_ok(pair: u32, most: u32) -> bool
    ensures { result ≡ pair_ok pair most }
{
    pair % 100 <= most
}

#[tactic(auto, unfolding(directory::specs::Rules::status_ok))]
fn status_ok(n: u32) -> bool
    ensures { result ≡ status_ok n }
{
    pair_ok(n / 1000000, 1) && pair_ok(n / 10000, 3) && pair_ok(n / 100, 5) && pair_ok(n, 2)
}

// Whether x fits eight columns, its sign counted.
fn is_narrow(x: Signed) -> bool
    ensures { result ≡ leb (length (signed_dec x)) field_columns }
{
    if x.neg {
        return x.size < 10000000;
    }
    x.size < 100000000
}

fn all_narrow(xs: [Signed; order::NUMBERS]) -> bool
    ensures { result ≡ narrow xs }
{
    xs.iter().all(|x| is_narrow(*x))
}

// Whether every number is in its range and fits its columns.
#[tactic(auto, unfolding(directory::specs::Rules::ranges_ok))]
fn ranges_ok(x: Fields) -> bool
    ensures { result ≡ ranges_ok x }
{
    signs_ok(x) && limits_ok(x) && status_ok(x.status.size) && all_narrow(order::in_order(x))
}

// Rules 9 and 13.
pub fn entry_rules(x: Fields) -> Result<(), Fault>
    ensures { result ≡ rule_of x }
{
    if !ranges_ok(x) {
        return Err(Fault::Directory);
    }
    if x.entity.size == 306 {
        return Err(Fault::Macro);
    }
    Ok(())
}

// ---- 10

fn of_number(d: DirectoryNumber, want: u8) -> Option<Wanted>
    ensures { result ≡ of_number d want }
{
    if d.0 == 0 {
        return None;
    }
    Some(Wanted { number: d, want })
}

fn of_attribute(a: Attribute, want: u8) -> Option<Wanted>
    ensures { result ≡ of_attribute a want }
{
    match a {
        Attribute::Number(_) => None,
        Attribute::Reference(d) => Some(Wanted { number: d, want }),
    }
}

// What reference j of the entry asks, if it asks: structure, font, level, view, matrix, label display, colour.
pub fn wanted(e: Entry, j: usize) -> Option<Wanted>
    requires { j < reference_count }
    ensures { result ≡ wanted_of e j }
{
    let font = e.font;
    let level = e.level;
    let colour = e.colour;
    if j == 0 {
        return of_number(e.structure, references::ANY);
    }
    if j == 1 {
        return of_attribute(font, references::ANY);
    }
    if j == 2 {
        return of_attribute(level, references::ANY);
    }
    if j == 3 {
        return of_number(e.view, references::ANY);
    }
    if j == 4 {
        return of_number(e.matrix, references::ENTRY_124);
    }
    if j == 5 {
        return of_number(e.display, references::ANY);
    }
    of_attribute(colour, references::ENTRY_314)
}

// Whether what is asked, if it is, names such an entry.
fn asks_ok<E: Entries>(entries: &E, wanted: Option<Wanted>) -> bool
    ensures { result ≡ asks_ok (E.types entries.now) wanted }
{
    let Some(w) = wanted else {
        return true;
    };
    entries.meet(w)
}

// Whether all references of an entry do.
pub fn all_ask_ok<E: Entries>(entries: &E, e: Entry) -> bool
    ensures { result ≡ all_fit (E.types entries.now) (references e) }
{
    for j in 0..REFERENCES {
        if !asks_ok(entries, wanted(e, j)) {
            return false;
        }
    }
    true
}
