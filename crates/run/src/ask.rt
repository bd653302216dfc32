// The question whether a value holds. Its kind is a number, as a host takes it.
ghost use Rattle.std.specs.Prelude.{◌≡◌};
ghost use Rattle.run.specs.Turn.{test_of};

use host::{Host, Question, Thrown};

pub fn ask_test<H: Host>(host: &mut H, payload: u32, value: u32) -> Result<u32, Thrown>
    ensures answers { result ≡ H.answer (H.state host.old) (test_of payload value) }
    ensures moves { H.state host.new ≡ H.next (H.state host.old) (test_of payload value) }
{
    let question = Question {
        kind: 42,
        payload,
        position: 0,
    };
    host.ask(question, &[value])
}
