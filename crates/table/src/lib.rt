// Whole tables, the free slots, what format and the carry write (document 01, "Table bytes"; request [8]) and what the status
// screen reads. No code.
#![tactic(auto)]

// What the check finds of a whole table: how many slots are free, the last of the free chain, and what the logs lack of their
// reserves, but for the log that is called. A last slot stands here and below as the table's bytes name it, with which it is compared:
// 0 for none.
#[derive(Clone, Copy, PartialEq, Eq)]
pub struct Whole {
    pub free: usize,
    pub last: usize,
    pub others: usize,
}

// What a walk along a chain finds: how many slots it met, and the last.
#[derive(Clone, Copy, PartialEq, Eq)]
pub struct Met {
    pub count: usize,
    pub last: usize,
}

// How many slots all logs hold, what they lack of their reserves, and what all but one of them lack.
#[derive(Clone, Copy, PartialEq, Eq)]
pub struct Holding {
    pub held: usize,
    pub lack: usize,
    pub others: usize,
}
