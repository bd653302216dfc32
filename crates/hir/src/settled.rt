// A settled function: whoever has it may write the function, or open a draft of it.

#[derive(Drop)]
pub struct Settled {
    pub edits: u32,
}
