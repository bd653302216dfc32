// A host is asked questions. Its meaning is a state, and two functions of state and question: the answer and the next state.
#![tactic(auto)]

ghost use Rattle.std.specs.Prelude.{◌≡◌, ℕ, ◌+◌, ◌-◌, ◌<◌, ◌≤◌, List, length, Some, Option};
ghost use Rattle.host.specs.Asked.{Asked, Reply, Keeps, asked, fixed};
ghost use Rattle.host.specs.Hosts.{list_answer, list_keeps, list_next, number_answer, number_keeps, number_next};

// The kind is a number, since a host is asked over whatever joins it to its program: 0 to 41 are those of instructions, 42 asks
// what a test is worth, and 43 whether a switch's case is meant.
#[derive(Clone, Copy)]
pub struct Question {
    pub kind: u32,
    pub payload: u32,
    pub position: u32,
}

// What a host throws in place of an answer.
#[derive(Clone, Copy, Debug, PartialEq, Eq, Hash)]
pub struct Thrown(pub u32);

pub trait Host {
    ghost State: { Type 0 };

    ghost state: { Self → State };

    ghost answer: { State → Asked → Reply };

    ghost next: { State → Asked → State };

    ghost keeps: { Keeps answer next };

    // The values stand beside the question, since they are lent for it alone.
    fn ask(&mut self, question: Question, values: &[u32]) -> Result<u32, Thrown>
        ensures answers { result ≡ answer (state self.old) (asked question values.now) }
        ensures moves { state self.new ≡ next (state self.old) (asked question values.now) };
}

// What every host answers, at the four fixed questions. Each host asks this first: done in the trait, it would take a second method
// for all other questions.
#[tactic(auto, unfolding(crate::specs::Asked::fixed))]
pub fn fixed_answer(question: Question, values: &[u32]) -> Option<u32>
    ensures { result ≡ fixed (asked question values.now) }
{
    match (question.kind, question.payload, question.position, values) {
        (28, 1, 0, []) => Some(2),
        (23, 2, 0, [2]) => Some(3),
        (7, 3, 0, []) => Some(4),
        (12, 0, 0, [2, 3, 4]) => Some(1),
        _ => None,
    }
}

// Answers with the next of a list, and throws 0 at its end.
#[derive(Drop)]
pub struct ListHost<'a> {
    answers: &'a [u32],
}

impl<'a> ListHost<'a> {
    pub fn new(answers: &'a [u32]) -> ListHost<'a>
        ensures { result.answers.now ≡ answers.now }
    {
        ListHost { answers }
    }

    // How many answers were not asked for.
    pub fn left(&self) -> usize
        ensures { result ≡ length self.now.answers.now }
    {
        self.answers.len()
    }
}

impl<'a> Host for ListHost<'a> {
    ghost State = { List ℕ };

    ghost state = { λ h. h.answers.now };

    ghost answer = { list_answer };

    ghost next = { list_next };

    ghost keeps = { list_keeps };

    fn ask(&mut self, question: Question, values: &[u32]) -> Result<u32, Thrown> {
        if let Some(v) = fixed_answer(question, values) {
            return Ok(v);
        }
        match self.answers {
            [v, rest @ ..] => {
                self.answers = rest;
                Ok(*v)
            }
            [] => Err(Thrown(0)),
        }
    }
}

// One state; it answers the payload plus the values, wrapped.
#[derive(Drop)]
pub struct NumberHost;

impl Host for NumberHost {
    ghost State = { Unit {0} };

    ghost state = { λ _. tt };

    ghost answer = { number_answer };

    ghost next = { number_next };

    ghost keeps = { number_keeps };

    fn ask(&mut self, question: Question, values: &[u32]) -> Result<u32, Thrown> {
        if let Some(v) = fixed_answer(question, values) {
            return Ok(v);
        }
        Ok(
            values
                .iter()
                .fold(question.payload, |sum, v| sum.wrapping_add(*v)),
        )
    }
}
