// What the questions of a load are worth to the calls after it.
#![tactic(auto)]

ghost use Rattle.loaded.specs.Loaded.{QuestionsSuffice};

// A function with a yes to each question is well-formed, and no scope of it has a record.
pub fn the_questions_suffice() -> u8
    ensures { QuestionsSuffice }
{
    0
}
