// How far a reading of an encoded grammar has come, and what it tells.
// What stands before the next word.
#[derive(Clone, Copy)]
pub enum State {
    // the heading
    Before,
    // a rule's begin
    Opened,
    InPositive,
    InNegative,
    // the end
    Closed,
}

// The default is of a grammar that has nothing.
#[derive(Clone, Copy, Default)]
pub struct Sizes {
    pub nonterminals: u32,
    pub terminals: u32,
    pub rules: usize,
}

// How far a reading has come: the state, and the sizes with the rules begun so far.
#[derive(Clone, Copy)]
pub struct Progress {
    pub state: State,
    pub sizes: Sizes,
}
