// The answers that a run did not ask for: what a host has left is what a report calls unused.
ghost use Rattle.std.specs.Prelude.{◌≡◌, length};

use host::ListHost;

pub fn unused(host: &ListHost) -> usize
    ensures { result ≡ length host.now.answers.now }
{
    host.left()
}
