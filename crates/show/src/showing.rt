// The lines that show a file.
ghost use Rattle.std.specs.Prelude.{◌≡◌, IfOk, string_bytes};
ghost use Rattle.show.specs.Shown.{shown as shown_of};

use hir::tables::Tables;
use load::load::load;
use std::alloc::{AllocError, Global};
use text::bytes::words_of;
use text::sections::Sections;

// A file that loads is shown by its own words, and another by the number of its refusal.
#[tactic(auto, using(crate::proofs::Numbered::shown_refusal))]
pub fn show(heap: Global, bytes: &[u8]) -> Result<String, AllocError>
    ensures { IfOk result (λ s. string_bytes s ≡ shown_of bytes.now) }
{
    let mut tables = Tables::new(heap)?;
    match load(&mut tables, bytes) {
        Ok(_) => Sections(words_of(heap, bytes)?.as_slice()).to_string(heap),
        Err(fault) => format!(in heap; "{}\n", fault.number()),
    }
}
