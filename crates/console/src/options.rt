// What the command line asks for, and what stops the program before its last line.
use std::{env, fmt, io};

#[derive(Drop)]
pub(crate) struct Options {
    pub(crate) echo: bool,
    pub(crate) file: Option<String>,
}

#[derive(Drop)]
pub(crate) enum Stopped {
    Argument(String),
    File(String, io::Error),
    Io(io::Error),
}

impl From<io::Error> for Stopped {
    fn from(e: io::Error) -> Stopped {
        Stopped::Io(e)
    }
}

impl fmt::Display for Stopped {
    fn fmt<W: fmt::Write>(&self, f: &mut fmt::Formatter<W>) -> fmt::Result {
        match self {
            Stopped::Argument(word) => write!(
                f,
                "unexpected argument {word}; usage: console [--echo] [FILE]"
            ),
            Stopped::File(name, e) => write!(f, "{name}: {e}"),
            Stopped::Io(e) => write!(f, "{e}"),
        }
    }
}

impl Options {
    // `--echo` comes before the file's name, and nothing after it.
    pub(crate) fn read(rt: &HostRuntime) -> Result<Options, Stopped> {
        let mut options = Options {
            echo: false,
            file: None,
        };
        for word in env::args(rt)?.skip(1) {
            if options.file.is_some() {
                return Err(Stopped::Argument(word));
            } else if word.as_str() == "--echo" {
                options.echo = true;
            } else if word.as_str().starts_with('-') {
                return Err(Stopped::Argument(word));
            } else {
                options.file = Some(word);
            }
        }
        Ok(options)
    }
}
