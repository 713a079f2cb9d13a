// All checks of a file in the paper's order: `last_pass` goes over its entities; `weigh` asks the list, all that is asked before, and the
// last pass; `check` is its answer alone.
#![tactic(auto)]

ghost use Rattle.std.specs.Prelude.{◌≡◌, ◌+◌, ◌^◌, ◌<◌};
ghost use Rattle.model.specs.Read.{last_pass};
ghost use Rattle.read_passes.specs.Passes.{pass_of};
ghost use Rattle.read_passes.specs.Listed.{all_entries};
ghost use Rattle.read_passes.specs.Ready.{Ready};
ghost use Rattle.read_weights.specs.Checks.{delimited, check_of};
ghost use Rattle.read_weights.specs.Weights.{rows_length, rows_of, weight_of, Few, Light};

use cards::Counts;
use columns::{Fault, FileLine, Refusal, wide};
use read_passes::Before;
use read_weights::{Weight, entity_at};
use sheets_lay::put_last;

// The last pass: each entity in turn, and behind them the Z line.
pub fn last_pass(
    list: u64,
    file: &[u8],
    c: Counts,
    parameter: u8,
    closing: u8,
) -> Result<usize, Refusal<FileLine>>
    requires ready { Ready file.now c }
    requires parameter_nonzero { 0 < parameter }
    requires closing_nonzero { 0 < closing }
    ensures value { result ≡ rows_of (rows_length list file.now c parameter closing)
        (pass_of (last_pass list file.now c (delimited parameter closing) (all_entries file.now c))) }
    ensures few { Few (2 ^ 51) result }
{
    let n = wide(c.d) / 2;
    let mut length = 0;
    for i in 0..n {
        length += entity_at(list, file, c, parameter, closing, i)?;
    }
    let mut none = [0u8; 1];
    let end = put_last(&mut none, 0, n);
    Ok(length + end)
}

// All checks of a file under a list, and the bytes of its sheet behind the G lines.
pub fn weigh(list: u64, file: &[u8]) -> Result<Weight, Refusal<FileLine>>
    ensures value { result ≡ weight_of list file.now (check_of list file.now) }
    ensures light { Light (2 ^ 51) result }
{
    if !layouts_lists::is_list(list) {
        return Err(Refusal {
            fault: Fault::ListOrLength,
            line: FileLine(0),
        });
    }
    let told = read_before::before(file)?;
    let rows = last_pass(list, file, told.counts, told.parameter, told.closing)?;
    Ok(Weight { told, rows })
}

// All checks of a file under a list.
pub fn check(list: u64, file: &[u8]) -> Result<Before, Refusal<FileLine>>
    ensures { result ≡ check_of list file.now }
{
    let weight = weigh(list, file)?;
    Ok(weight.told)
}
