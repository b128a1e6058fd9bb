// What an operator asks: the command, and where among the arguments its words and the values of its options stand.
#[derive(Clone, Copy, PartialEq, Eq)]
pub enum Command {
    List,
    Show,
    Edit,
    Branch,
    Undo,
    Fold,
    Verify,
    Status,
    Report,
}

// The options that have a value.
#[derive(Clone, Copy, PartialEq, Eq)]
enum Valued {
    Base,
    Offset,
    Length,
}

#[derive(Clone, Copy, Default)]
pub struct Asked {
    pub command: Option<Command>,
    // FILE and the words after it, and how many words there are.
    pub file: Option<usize>,
    pub first: Option<usize>,
    pub second: Option<usize>,
    pub third: Option<usize>,
    words: usize,
    pub base: Option<usize>,
    pub offset: Option<usize>,
    pub length: Option<usize>,
    pub plain: bool,
    pub all: bool,
    pub dry_run: bool,
    pub raw: bool,
    pub help: bool,
    pub version: bool,
    // An argument isn't understood.
    wrong: bool,
    // The option whose value comes next.
    valued: Option<Valued>,
}

// The command of a name.
fn command_of(word: &[u8]) -> Option<Command> {
    match word {
        b"list" => Some(Command::List),
        b"show" => Some(Command::Show),
        b"edit" => Some(Command::Edit),
        b"branch" => Some(Command::Branch),
        b"undo" => Some(Command::Undo),
        b"fold" => Some(Command::Fold),
        b"verify" => Some(Command::Verify),
        b"status" => Some(Command::Status),
        b"report" => Some(Command::Report),
        _ => None,
    }
}

impl Asked {
    // What the arguments from one on ask.
    pub fn read(rt: &HostRuntime, first: usize) -> Asked {
        let mut asked = Asked::default();
        for place in first..console::arg_count(rt) {
            let mut word = [0u8; 4096];
            let length = console::arg(rt, place, &mut word);
            asked.put_word(place, &word[..length]);
        }
        asked.wrong |= asked.valued.is_some();
        asked
    }

    fn put_word(&mut self, place: usize, word: &[u8]) {
        if let Some(option) = self.valued {
            self.put_value(place, option);
        } else if word.starts_with(b"--") {
            self.put_option(word);
        } else if self.command.is_none() {
            self.command = command_of(word);
            self.wrong |= self.command.is_none();
        } else {
            self.put_next(place);
        }
    }

    // The value of the option before.
    fn put_value(&mut self, place: usize, option: Valued) {
        self.valued = None;
        match option {
            Valued::Base => self.base = Some(place),
            Valued::Offset => self.offset = Some(place),
            Valued::Length => self.length = Some(place),
        }
    }

    fn put_option(&mut self, word: &[u8]) {
        match word {
            b"--base" => self.valued = Some(Valued::Base),
            b"--offset" => self.valued = Some(Valued::Offset),
            b"--length" => self.valued = Some(Valued::Length),
            b"--plain" => self.plain = true,
            b"--all" => self.all = true,
            b"--dry-run" => self.dry_run = true,
            b"--raw" => self.raw = true,
            b"--help" => self.help = true,
            b"--version" => self.version = true,
            _ => self.wrong = true,
        }
    }

    // FILE, and the words after it.
    fn put_next(&mut self, place: usize) {
        match self.words {
            0 => self.file = Some(place),
            1 => self.first = Some(place),
            2 => self.second = Some(place),
            _ => self.third = Some(place),
        }
        self.words = self.words.saturating_add(1);
    }

    // The command, where all is understood and it has as many words as it takes.
    pub fn whole(&self) -> Option<Command> {
        if self.wrong {
            return None;
        }
        self.command.filter(|command| self.has_words_of(*command))
    }

    fn has_words_of(&self, command: Command) -> bool {
        match command {
            Command::List => matches!(self.words, 1..=3),
            Command::Show => self.words == 3,
            Command::Edit | Command::Branch => self.words == 4,
            Command::Undo | Command::Fold => matches!(self.words, 1..=2),
            Command::Report => 0 < self.words,
            Command::Verify | Command::Status => self.words == 1,
        }
    }
}
