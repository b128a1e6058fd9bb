// The commands, by name.
ghost use Rattle.std.specs.Prelude.{◌≤◌};

#[derive(Clone, Copy, PartialEq, Eq)]
pub enum Command {
    Code,
    Get,
    Sum,
    Find,
    Cut,
    Join,
    Operands,
    Immediate,
    Target,
    Put,
    Report,
    Clear,
    Records,
    Undo,
    Edit,
    Load,
    Open,
    Journal,
    Place,
    Sheet,
    SheetLine,
    Meet,
    Choose,
    Checked,
    Fold,
    Script,
}

impl Command {
    pub fn named(name: &[u8]) -> Option<Command> {
        match name {
            b"code" => Some(Command::Code),
            b"get" => Some(Command::Get),
            b"sum" => Some(Command::Sum),
            b"find" => Some(Command::Find),
            b"cut" => Some(Command::Cut),
            b"join" => Some(Command::Join),
            b"operands" => Some(Command::Operands),
            b"immediate" => Some(Command::Immediate),
            b"target" => Some(Command::Target),
            b"put" => Some(Command::Put),
            b"report" => Some(Command::Report),
            b"clear" => Some(Command::Clear),
            b"records" => Some(Command::Records),
            b"undo" => Some(Command::Undo),
            b"edit" => Some(Command::Edit),
            b"load" => Some(Command::Load),
            b"open" => Some(Command::Open),
            b"journal" => Some(Command::Journal),
            b"place" => Some(Command::Place),
            b"sheet" => Some(Command::Sheet),
            b"sheetline" => Some(Command::SheetLine),
            b"meet" => Some(Command::Meet),
            b"choose" => Some(Command::Choose),
            b"checked" => Some(Command::Checked),
            b"fold" => Some(Command::Fold),
            b"script" => Some(Command::Script),
            _ => None,
        }
    }

    // The word that its answer starts with.
    pub fn word(self) -> &'static [u8] {
        match self {
            Command::Code
            | Command::Put
            | Command::Clear
            | Command::Open
            | Command::Journal
            | Command::Place => b"ok",
            Command::Get => b"bytes",
            Command::Sum => b"sum",
            Command::Find => b"find",
            Command::Cut => b"cut",
            Command::Join => b"join",
            Command::Operands => b"operands",
            Command::Immediate => b"immediate",
            Command::Target => b"target",
            Command::Report => b"report",
            Command::Records => b"records",
            Command::Undo => b"undo",
            Command::Edit => b"edit",
            Command::Load => b"load",
            Command::Sheet => b"sheet",
            Command::SheetLine => b"sheetline",
            Command::Meet => b"meet",
            Command::Choose => b"choose",
            Command::Checked => b"checked",
            Command::Fold => b"fold",
            Command::Script => b"script",
        }
    }

    // How many numbers follow the name.
    pub fn count(self) -> usize
        ensures { result ≤ 5 }
    {
        match self {
            Command::Sum | Command::Report | Command::Clear | Command::Records => 0,
            Command::Code
            | Command::Find
            | Command::Cut
            | Command::Put
            | Command::Undo
            | Command::Load
            | Command::Open
            | Command::Fold => 1,
            Command::Get | Command::Sheet | Command::Choose => 2,
            Command::Journal | Command::Place | Command::SheetLine => 3,
            Command::Operands | Command::Immediate | Command::Meet | Command::Script => 4,
            Command::Join | Command::Target | Command::Edit | Command::Checked => 5,
        }
    }

    // Whether text follows the numbers.
    pub fn takes_text(self) -> bool {
        matches!(
            self,
            Command::Put
                | Command::Clear
                | Command::Edit
                | Command::Checked
                | Command::Load
                | Command::Journal
                | Command::Place
                | Command::Meet
                | Command::Script
        )
    }
}
