// The bytes of the words that a text says.
ghost use Rattle.pack.specs.Packed.{Packs};

use std::alloc::Global;
use text::bytes::bytes_of;
use text::character::TextFault;
use text::read::words;

pub fn pack(heap: Global, text: &[u8]) -> Result<Vec<u8>, TextFault>
    ensures { Packs text.now result }
{
    let said = words(heap, text)?;
    Ok(bytes_of(heap, said.as_slice())?)
}
