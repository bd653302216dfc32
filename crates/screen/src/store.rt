// The store that a run starts with.
ghost use Rattle.std.specs.Prelude.{◌≡◌, IfOk};
ghost use Rattle.screen.specs.Store.{store_of};

use std::alloc::{AllocError, Global};

// The values given, and 0 for every identifier behind them.
pub fn start_store(heap: Global, values: &[u32], identifiers: usize) -> Result<Vec<u32>, AllocError>
    ensures { IfOk result (λ v. v.items ≡ store_of values.now identifiers) }
{
    let mut store = values.to_vec(heap)?;
    store.resize(identifiers.max(values.len()), 0)?;
    Ok(store)
}
