// What an entry names: an entry of the file, of the type wanted (10).
ghost use Rattle.std.specs.Prelude.{◌≡◌};
ghost use Rattle.directory.specs.Rules.{reference_rule};
ghost use Rattle.directory.specs.Naming.{types_at};
ghost use Rattle.read_passes.specs.Passes.{pass_of};
ghost use Rattle.read_passes.specs.Walks.{or_else};

use columns::{Fault, FileLine, Refusal};
use directory::Fields;
use directory_lookup::Directory;
use read_passes::FilePass;

// The refusal that is kept; if there is none, that of the entry at this line.
pub fn reference_check(
    entries: &Directory<'_>,
    fields: Fields,
    line: FileLine,
    kept: FilePass,
) -> FilePass
    ensures { result ≡ or_else kept (pass_of (reference_rule
        (types_at entries.now.file.now entries.now.first entries.now.entries) fields line.0)) }
{
    kept?;
    let e = directory_rules::entry_of(fields);
    if directory_rules::all_ask_ok(entries, e) {
        return Ok(());
    }
    Err(Refusal {
        fault: Fault::Reference,
        line,
    })
}
