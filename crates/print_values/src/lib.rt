// The value lines of an entity.
#![tactic(auto)]

ghost use Rattle.std.specs.Prelude.{◌+◌, ◌*◌, ◌^◌, ◌≤◌, ◌<◌};
ghost use Rattle.columns.specs.Columns.{text_of};
ghost use Rattle.columns.specs.Laid.{Wrote};
ghost use Rattle.columns.specs.Format.{parameter_columns};
ghost use Rattle.records.specs.Record.{values_at};
ghost use Rattle.directory.specs.Naming.{types_at};
ghost use Rattle.read_entities.specs.Marks.{carried_in, marks_begun, marked_from};
ghost use Rattle.print.specs.Bytes.{value_bytes};
ghost use Rattle.print.specs.Taking.{ValuesStand, GivenStands, GivenPut};

use columns::format::PARAMETER_COLUMNS;
use layouts::LayoutState;
use layouts_machine::{is_reference, runs_on, with_left};
use print::Behind;
use print::lines::{put_mostly_real, put_value_line};
use print::taking::met_at;
use read_entities::marks::{mark_of, mark_step, marks_begun};
use records::Found;
use records_read::value_at;
use values::{Value, is_missing};

// The lines of the defaults owed before a given value, and its own.
fn put_owed(
    out: &mut [u8],
    at: usize,
    file: &[u8],
    base: usize,
    lines: usize,
    first: usize,
    n: usize,
    g: Option<LayoutState>,
    owed: usize,
    v: Value,
) -> Behind
    requires { GivenStands file.now base lines first n owed v at }
    ensures { GivenPut file.now base lines first n g owed v out.old at out.new result }
{
    let mut s = g;
    let mut next = at;
    for _ in 0..owed {
        let reference = mark_of(s);
        next = put_value_line(out, next, file, base, lines, reference, Value::Default);
        s = mark_step(file, first, n, s, Value::Default);
    }
    let reference = mark_of(s);
    let end = put_value_line(out, next, file, base, lines, reference, v);
    let marks = mark_step(file, first, n, s, v);
    Behind { next: end, marks }
}

// The values behind the type, up to the last that is no default, each with its mark. Most are numbers where more of their kind follow,
// with no default owed before them: they are answered here, for a state or a value that is passed on is copied through memory.
pub fn put_values(
    out: &mut [u8],
    at: usize,
    list: u64,
    file: &[u8],
    base: usize,
    lines: usize,
    c: u8,
    d: u8,
    typ: u32,
    form: u32,
    first: usize,
    n: usize,
) -> usize
    requires values_stand { ValuesStand file.now base lines c d first n }
    requires at_bound { at < 2 ^ 58 }
    ensures wrote { Wrote out.old at
        (value_bytes (marked_from (types_at file.now first n) (marks_begun list typ form)
        (carried_in (values_at parameter_columns c d (text_of file.now base parameter_columns lines) 0)))) out.new result }
    ensures upper_bound { result ≤ at + 70400 * lines }
{
    let mut g = marks_begun(list, typ, form);
    let x = met_at(file, base, lines, c, d, 0);
    let mut q = x.next;
    let mut last = x.last;
    let mut owed = 0;
    let mut next = at;
    // From value to value: the last says that it is.
    while !last {
        let got = value_at(file, base, PARAMETER_COLUMNS, lines, c, d, q);
        match got {
            Err(_) => {
                return next;
            }
            Ok(
                Found {
                    value,
                    next: behind,
                    last: end,
                    ..
                },
            ) => {
                q = behind;
                last = end;
                if is_missing(value) {
                    owed += 1;
                    continue;
                }
                if owed == 0 {
                    match g {
                        Some(s) => {
                            if runs_on(s, value) {
                                let reference = is_reference(s);
                                next = put_mostly_real(
                                    out, next, file, base, lines, reference, value,
                                );
                                g = Some(with_left(s, s.left - 1));
                                continue;
                            }
                        }
                        None => {}
                    }
                }
                let z = put_owed(out, next, file, base, lines, first, n, g, owed, value);
                g = z.marks;
                next = z.next;
                owed = 0;
            }
        }
    }
    next
}
