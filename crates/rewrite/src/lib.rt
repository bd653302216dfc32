// Loads a file and writes the function back: the same bytes, or a refusal that leaves the buffer as it was.
#![tactic(auto)]

ghost use Rattle.std.specs.Prelude.{◌≡◌, false, MatchResult};
ghost use Rattle.rewrite.specs.Rewrites.{Back, Kept};

use format::fault::CallFault;
use hir::tables::Tables;
use load::load::load;
use write::file::write;

// Writes the file `bytes` into the front of `out` by way of the tables, and answers its length.
pub fn rewrite(tables: &mut Tables, bytes: &[u8], out: &mut [u8]) -> Result<usize, CallFault>
    ensures answer { MatchResult result (Back bytes.now out.old out.new tables.new) (Kept bytes.now out.old out.new tables.new) }
    ensures draft { tables.new.draft ≡ false }
{
    let settled = load(tables, bytes)?;
    write(settled, tables, out).map_err(|refused| refused.fault)
}
