// The pass over the lines of a file: how many each section has. `terminate` looks at the last.
#![tactic(auto)]

mod terminate;

ghost use Rattle.std.specs.Prelude.{◌≡◌, ◌+◌, ◌<◌};
ghost use Rattle.cards.specs.Cards.{cards_of};
ghost use Rattle.cards.specs.Rules.{Known};

use cards::{Counts, length_ok};
use columns::format::LINE_BYTES;
use columns::{Fault, FileLine, Refusal};

// The counts of a file's sections, or the first refusal of its lines.
pub fn cards(file: &[u8]) -> Result<Counts, Refusal<FileLine>>
    ensures value { result ≡ cards_of file.now }
    ensures known { Known file.now result }
{
    if !length_ok(file.len()) {
        return Err(Refusal {
            fault: Fault::ListOrLength,
            line: FileLine(0),
        });
    }
    let n = file.len() / LINE_BYTES;
    let mut c = Counts {
        s: 0,
        g: 0,
        d: 0,
        p: 0,
        t: 0,
    };
    for k in 0..n {
        let next = k + 1;
        let line = FileLine(next);
        c = cards_line::step_line(file, k, n - next, c).map_err(|fault| Refusal { fault, line })?;
    }
    if terminate::closes_at(file, n - 1, c) {
        return Ok(c);
    }
    Err(Refusal {
        fault: Fault::Terminate,
        line: FileLine(n),
    })
}
