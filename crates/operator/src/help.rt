// How the program is used.
use crate::asked::Command;
use console::Status;
use std::io;
use std::io::Print;

const VERSION: [u8; 15] = *b"glindorsc 0.36\n";

const HEAD: [u8; 89] =
    *b"glindorsc patches numbers in the Itanium code of FILE, and takes the patches out again.\n\n";

const LIST: [u8; 185] =
    *b"glindorsc list FILE [ADDRESS [COUNT]]\n    a line a bundle: address, units with stops, and of each slot its word, and the form, number and target that it has;\n    * where a patch stands\n";

const SHOW: [u8; 91] =
    *b"glindorsc show FILE ADDRESS FORM\n    the number of a form, and its target where it has one\n";

const EDIT: [u8; 160] =
    *b"glindorsc edit FILE ADDRESS FORM VALUE [--plain] [--dry-run]\n    sets the number; the word must have the form where that is one of A or B, unless it is --plain\n";

const BRANCH: [u8; 113] =
    *b"glindorsc branch FILE ADDRESS FORM TARGET [--plain] [--dry-run]\n    sets the number that makes TARGET the target\n";

const UNDO: [u8; 131] =
    *b"glindorsc undo FILE [ADDRESS] [--all] [--dry-run]\n    takes back the last patch of the window that has the address, or all of them\n";

const FOLD: [u8; 140] =
    *b"glindorsc fold FILE [ADDRESS] [--dry-run]\n    leaves one record of each patched bundle of the window; single steps can't be undone any more\n";

const VERIFY: [u8; 105] =
    *b"glindorsc verify FILE\n    finishes a commit that was cut off, and looks whether the patches fit the code\n";

const STATUS: [u8; 125] =
    *b"glindorsc status FILE\n    how FILE is read, the windows that have patches with their records, the lock, an unfinished commit\n";

const REPORT: [u8; 85] =
    *b"glindorsc report FILE..\n    counts the bundles of the files' code by their templates\n";

const TAIL: [u8; 399] =
    *b"\nAn ADDRESS is that of a bundle, plus 0, 1 or 2 for the slot. Numbers are decimal, or hex after 0x, with a minus sign or without.\nFILE is an ELF file for Itanium, or raw bytes: --raw --base ADDRESS --offset N --length N say more.\nPatches are kept beside it, in FILE.patches, and undone by a window of 65,536 bytes.\nExit status: 0 done, 1 refused, 2 usage, 3 the system, 4 locked. --help, --version.\n";

// The commands, in the order in which all are told.
const COMMANDS: [Command; 9] = [
    Command::List,
    Command::Show,
    Command::Edit,
    Command::Branch,
    Command::Undo,
    Command::Fold,
    Command::Verify,
    Command::Status,
    Command::Report,
];

pub fn version(rt: &HostRuntime) -> Result<(), Status> {
    written(rt, rt.stdout().write_all(&VERSION))
}

fn written(rt: &HostRuntime, done: io::Result<()>) -> Result<(), Status> {
    done.map_err(|error| console::failed(rt, b"glindorsc: standard output", &error))
}

// Says how a command is used: on standard output where that was asked, and else on standard error.
pub fn help(rt: &HostRuntime, command: Option<Command>) -> Result<(), Status> {
    written(rt, tell(&rt.stdout(), command))
}

pub fn misused(rt: &HostRuntime, command: Option<Command>) -> Status {
    let out = rt.stderr();
    let _ = out.write_all(b"glindorsc: usage:\n");
    let _ = tell(&out, command);
    Status::Usage
}

fn tell(out: &impl Print, command: Option<Command>) -> io::Result<()> {
    match command {
        Some(command) => tell_one(out, command),
        None => tell_all(out),
    }
}

fn tell_one(out: &impl Print, command: Command) -> io::Result<()> {
    match command {
        Command::List => out.write_all(&LIST),
        Command::Show => out.write_all(&SHOW),
        Command::Edit => out.write_all(&EDIT),
        Command::Branch => out.write_all(&BRANCH),
        Command::Undo => out.write_all(&UNDO),
        Command::Fold => out.write_all(&FOLD),
        Command::Verify => out.write_all(&VERIFY),
        Command::Status => out.write_all(&STATUS),
        Command::Report => out.write_all(&REPORT),
    }
}

fn tell_all(out: &impl Print) -> io::Result<()> {
    out.write_all(&HEAD)?;
    for command in COMMANDS {
        tell_one(out, command)?;
    }
    out.write_all(&TAIL)
}
