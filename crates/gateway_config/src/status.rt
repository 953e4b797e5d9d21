//! How a command ended.

/// How a command ended. The number of each is the program's exit status.
#[derive(Clone, Copy, Debug, PartialEq, Eq)]
pub enum Status {
    /// 0: the command was done.
    Ok,
    /// 2: the words are no command; the usage line is printed.
    Words,
    /// 3: the configuration is refused; `config N WHAT` is printed.
    Config,
    /// 4: the script is refused; `script line N` is printed.
    Script,
    /// 5: a file could not be read; `read fault NAME` is printed.
    ReadFault,
    /// 6: a write failed; a front of the text was printed.
    WriteFault,
    /// 7: no memory could be had; nothing is printed.
    Memory,
    /// 8: a connection could not be accepted; `accept fault` is printed.
    AcceptFault,
    /// 9: a replay asks test targets alone; `real target NAME` is printed of the first other one.
    RealTarget,
    /// 10: a wait for connections failed; `poll fault` is printed.
    PollFault,
}

impl Status {
    ghost use Rattle.std.specs.Prelude.{◌≡◌};
    ghost use Rattle.gateway_config.specs.Statuses.{exit_status};

    /// The program's exit status.
    pub fn number(self) -> u8
        ensures { result ≡ exit_status self }
    {
        match self {
            Status::Ok => 0,
            Status::Words => 2,
            Status::Config => 3,
            Status::Script => 4,
            Status::ReadFault => 5,
            Status::WriteFault => 6,
            Status::Memory => 7,
            Status::AcceptFault => 8,
            Status::RealTarget => 9,
            Status::PollFault => 10,
        }
    }
}
