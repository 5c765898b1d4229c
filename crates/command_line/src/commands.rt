// The commands, by name and by how many arguments they take.
use crate::faults::Fault;
use std::cmp::Ordering;

#[derive(Clone, Copy)]
pub enum Command {
    Encrypt,
    Decrypt,
    Prepare,
    EncryptPrepared,
    Split,
    Join,
    Refresh,
    Product,
    Sbox,
    Read,
    Sheet,
    Places,
    ReadCube,
    CubeSheet,
    CubePlaces,
    Tape,
    Preview,
    Help,
}

// Whether a line has as many words as it must.
pub fn has_words(count: usize, wanted: usize) -> Result<(), Fault<'static>> {
    match count.cmp(&wanted) {
        Ordering::Less => Err(Fault::Missing),
        Ordering::Equal => Ok(()),
        Ordering::Greater => Err(Fault::Surplus),
    }
}

impl Command {
    pub fn named(word: &[u8]) -> Option<Command> {
        Some(match word {
            b"encrypt" => Command::Encrypt,
            b"decrypt" => Command::Decrypt,
            b"prepare" => Command::Prepare,
            b"encrypt-prepared" => Command::EncryptPrepared,
            b"split" => Command::Split,
            b"join" => Command::Join,
            b"refresh" => Command::Refresh,
            b"product" => Command::Product,
            b"sbox" => Command::Sbox,
            b"read" => Command::Read,
            b"sheet" => Command::Sheet,
            b"places" => Command::Places,
            b"read-cube" => Command::ReadCube,
            b"cube-sheet" => Command::CubeSheet,
            b"cube-places" => Command::CubePlaces,
            b"tape" => Command::Tape,
            b"preview" => Command::Preview,
            b"help" => Command::Help,
            _ => return None,
        })
    }

    // How many words a command line has at least, the program's name and the command among them.
    fn words(self) -> usize {
        match self {
            Command::Encrypt
            | Command::Decrypt
            | Command::EncryptPrepared
            | Command::Product
            | Command::Sheet
            | Command::Read => 6,
            Command::Prepare
            | Command::Split
            | Command::Refresh
            | Command::Sbox
            | Command::CubeSheet
            | Command::ReadCube => 5,
            Command::Join | Command::Tape => 4,
            Command::Places | Command::CubePlaces | Command::Preview => 3,
            Command::Help => 2,
        }
    }

    // Whether a line of that many words has the command's arguments. How many follow, `places`, `read`, `read-cube` and `preview` find out for
    // themselves.
    pub fn is_whole(self, count: usize) -> Result<(), Fault<'static>> {
        let wanted = self.words();
        match self {
            Command::Places | Command::Read | Command::ReadCube | Command::Preview
                if wanted <= count => Ok(()),
            _ => has_words(count, wanted),
        }
    }
}
