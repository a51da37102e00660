//! The commands, and the options that stand behind them.

/// What the program is asked to do.
#[derive(Clone, Copy)]
pub enum Command {
    /// Makes a new array, where `force` is set also over an old one.
    Format { force: bool },
    /// Answers a trace.
    Run,
    /// Answers a trace with so many spares, of which one is put in after so many ticks.
    Spare { stock: u8, wait: u32 },
    /// Tells the state.
    Status,
    /// Counts what is false.
    Check,
    /// Answers so many lines of the trace that a number stands for.
    Gen { number: u32, lines: u32 },
    /// Serves one client of the network block service.
    Nbd,
    /// Answers lines about named volumes.
    Vol,
    /// Plans the gears of a demand, with at most so many steps up.
    Plan { ups: u16 },
}

/// An option and its value.
#[derive(Clone, Copy)]
pub enum Choice {
    Number { number: u32 },
    Lines { lines: u32 },
    Ups { ups: u16 },
    Spares { stock: u8 },
    Wait { ticks: u32 },
}
