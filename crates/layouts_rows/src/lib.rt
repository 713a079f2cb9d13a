// The table of places. `told` asks of a value what a place must know.
#![tactic(auto)]

pub mod told;

ghost use Rattle.std.specs.Prelude.{◌≡◌};
ghost use Rattle.layouts.specs.Layout.{◌of◌};
ghost use Rattle.layouts.specs.Table.{place_at};
ghost use Rattle.layouts.specs.Coded.{shape_of, letter_at};
ghost use Rattle.layouts.specs.Machine.{rests};

use columns::format::MOST_INTEGER;
use layouts::{Kind, LayoutPlace, Then, Times};
use references::{ENTRY_142, ENTRY_308};

// A reference that asks its target for no type.
const ANY: u8 = references::ANY;

fn of(kind: Kind, times: Times) -> LayoutPlace
    ensures { result ≡ times of kind }
{
    LayoutPlace {
        kind,
        times,
        next: Then::Next,
    }
}

// The places that rows are made of.
fn shape(k: u8) -> LayoutPlace
    ensures { result ≡ shape_of k }
{
    match k {
        b'3' => of(Kind::R, Times::Fixed(3)),
        b'4' => of(Kind::R, Times::Fixed(4)),
        b'6' => of(Kind::R, Times::Fixed(6)),
        b'7' => of(Kind::R, Times::Fixed(7)),
        b't' => of(Kind::R, Times::Fixed(12)),
        b's' => of(Kind::S, Times::Fixed(1)),
        b'i' => of(Kind::I { low: 0, high: 3 }, Times::Fixed(1)),
        b'1' => of(Kind::I { low: 1, high: 1 }, Times::Fixed(1)),
        b'd' => of(
            Kind::I {
                low: 0,
                high: MOST_INTEGER,
            },
            Times::Fixed(1),
        ),
        b'N' => of(Kind::Count, Times::Fixed(1)),
        b'o' => of(Kind::Outer, Times::Fixed(1)),
        b'K' => of(Kind::Upper1, Times::Fixed(1)),
        b'L' => of(Kind::Upper2, Times::Fixed(1)),
        b'M' => of(Kind::Degree1, Times::Fixed(1)),
        b'O' => of(Kind::Degree2, Times::Fixed(1)),
        b'f' => of(Kind::Flag, Times::Fixed(4)),
        b'F' => of(Kind::Flag, Times::Fixed(5)),
        b'k' => of(Kind::Given, Times::Knots1),
        b'l' => of(Kind::Given, Times::Knots2),
        b'w' => of(Kind::Weight, Times::C),
        b'c' => of(Kind::Given, Times::ThreeC),
        b'g' => of(Kind::Given, Times::Fixed(2)),
        b'G' => of(Kind::Given, Times::Fixed(4)),
        b'p' => of(Kind::P { want: ANY }, Times::Fixed(1)),
        b'P' => of(Kind::P { want: ANY }, Times::Fixed(2)),
        b'Q' => of(Kind::Q { want: ANY }, Times::Fixed(1)),
        b'q' => of(Kind::Q { want: ANY }, Times::N),
        b'b' => of(Kind::Bound { want: ENTRY_142 }, Times::Fixed(1)),
        b'u' => of(Kind::Q { want: ENTRY_142 }, Times::N),
        b'I' => of(Kind::Q { want: ENTRY_308 }, Times::Fixed(1)),
        _ => of(Kind::Rest, Times::Fixed(1)),
    }
}

// The table of places: the rows of the type list, each with the two groups that may follow a layout. Row after row it reads
// 7NqNq. NqNqNq. 6NqNq. 3pNqNq. tNqNq. KMfkwcg3NqNq. KLMOFklwcGNqNq. iQPiNqNq. QoNbuNqNq. dsNqNqNq. 3sNqNq. NqNqNq. 1sNqNq. I4NqNq.
// Here it stands letter by letter, since so it is looked up at once.
fn letter_at(at: usize) -> u8
    ensures { result ≡ letter_at at }
{
    match at {
        19 | 39 | 88 => b'3',
        110 => b'4',
        13 => b'6',
        0 => b'7',
        26 => b't',
        80 | 89 | 103 => b's',
        60 | 63 => b'i',
        102 => b'1',
        79 => b'd',
        1 | 3 | 6 | 8 | 10 | 14 | 16 | 21 | 23 | 27 | 29 | 40 | 42 | 55 | 57 | 64 => b'N',
        66 | 71 | 74 | 76 | 81 | 83 | 85 | 90 | 92 | 95 | 97 | 99 | 104 | 106 | 111 | 113 => b'N',
        70 => b'o',
        32 | 45 => b'K',
        46 => b'L',
        33 | 47 => b'M',
        48 => b'O',
        34 => b'f',
        49 => b'F',
        35 | 50 => b'k',
        51 => b'l',
        36 | 52 => b'w',
        37 | 53 => b'c',
        38 => b'g',
        54 => b'G',
        20 => b'p',
        62 => b'P',
        61 | 69 => b'Q',
        2 | 4 | 7 | 9 | 11 | 15 | 17 | 22 | 24 | 28 | 30 | 41 | 43 | 56 | 58 | 65 => b'q',
        67 | 75 | 77 | 82 | 84 | 86 | 91 | 93 | 96 | 98 | 100 | 105 | 107 | 112 | 114 => b'q',
        72 => b'b',
        73 => b'u',
        109 => b'I',
        _ => b'.',
    }
}

// The place at `at`; past the table all is rest.
pub fn look(at: usize) -> LayoutPlace
    ensures { result ≡ place_at at }
{
    shape(letter_at(at))
}

// Nothing but defaults follows.
pub fn rests_in(k: Kind) -> bool
    ensures { result ≡ rests k }
{
    matches!(k, Kind::Rest)
}
