// What a script line says, and the columns of an answer line.
#![tactic(auto)]

// What a script line says. A format has the reserves of its first 16 logs, zeros after them: more logs are refused anyway.
#[derive(Clone, Copy)]
pub enum Command {
    Format {
        logs: u64,
        slots: u64,
        keeper: u64,
        reserves: [u64; 16],
    },
    Append {
        log: u64,
        value: u64,
    },
    Advance {
        log: u64,
        position: u64,
        digest: u64,
        value: u64,
    },
    Truncate {
        log: u64,
        position: u64,
    },
    Lookup {
        log: u64,
        position: u64,
    },
    End {
        log: u64,
    },
}

// The first field of a script line. Apart from `Command`, whose cases hold numbers that are not read yet.
#[derive(Clone, Copy)]
pub enum Word {
    Format,
    Append,
    Advance,
    Truncate,
    Lookup,
    End,
}

// A column of an answer line.
#[derive(Clone, Copy)]
pub enum Cell {
    Dash,
    Number(u64),
    Letter(u8),
}
