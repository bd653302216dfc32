// The whole file of the function that tables hold.
ghost use Rattle.std.specs.Prelude.{◌≡◌, ◌*◌, ◌≤◌, false, length, MatchResult};
ghost use Rattle.hir.specs.Encode.{encode};
ghost use Rattle.hir.specs.Tables.{function_of};
ghost use Rattle.write.specs.File.{Saved, TooSmall};
ghost use Rattle.write.specs.Puts.{over};

use crate::encode::Encode;
use crate::writer::Writer;
use format::fault::CallFault;
use hir::settled::Settled;
use hir::tables::Tables;

// A refused call gives back what it was handed.
#[derive(Drop)]
pub struct Refused {
    pub settled: Settled,
    pub fault: CallFault,
}

// The pairs tell the sections' lengths, so the sections are written first.
fn put_file(tables: &Tables, out: &mut [u8])
    requires { 4 * length (encode (function_of tables.now)) ≤ length out.old }
    ensures { out.new ≡ over out.old 0 (encode (function_of tables.now)) }
{
    let environment = &tables.environment;
    let mut writer = Writer { out, at: 8 };
    environment.counters.put(&mut writer);
    let counters = writer.at;
    writer.items(environment.identifiers.vec.as_slice());
    let identifiers = writer.at;
    writer.scopes(environment.scopes.vec.as_slice(), &environment.declarations);
    let scopes = writer.at;
    writer.body(&tables.arena, tables.root);
    writer.at = 0;
    writer.pairs(counters, identifiers, scopes, tables.words);
}

// Writes the file into the front of `out`, and answers its length in bytes.
pub fn write(settled: Settled, tables: &Tables, out: &mut [u8]) -> Result<usize, Refused>
    requires { tables.now.draft ≡ false }
    ensures { MatchResult result (Saved (function_of tables.now) out.old out.new) (TooSmall (function_of tables.now) settled out.old out.new) }
{
    let length = 4 * tables.words as usize;
    if out.len() < length {
        return Err(Refused {
            settled,
            fault: CallFault::BufferTooSmall,
        });
    }
    put_file(tables, out);
    Ok(length)
}
