// Reads commands from a file or from standard input, and prints the answer to each on a line.
#![tactic(auto)]

ghost use Rattle.std.specs.Prelude.{◌≡◌, true, false, ◌≢◌};
ghost use Rattle.curve.specs.declared.refusal.Refusal.{Refusal};

mod answer;
mod any_exchange;
mod arithmetic;
mod circuits;
mod curves;
mod dealing;
mod desk;
mod exchanges;
mod nodes;
mod notation;
mod options;
mod session;
mod trouble;
mod words;

use options::{Options, Stopped};
use session::Session;
use std::alloc::Global;
use std::fs::File;
use std::io;
use std::io::{BufRead, BufReader};
use std::process::ExitCode;
use trouble::{Misread, Trouble};
use words::{Words, command_of};

// A run over one input, and whether each of its lines was understood so far.
#[derive(Drop)]
struct Console {
    echo: bool,
    session: Session,
    understood: bool,
}

fn main(rt: HostRuntime) -> ExitCode {
    match run(&rt) {
        Ok(true) => ExitCode::SUCCESS,
        Ok(false) => ExitCode::FAILURE,
        Err(stopped) => {
            let _ = eprintln!(rt; "console: {stopped}");
            ExitCode::FAILURE
        }
    }
}

// Whether every line was understood.
fn run(rt: &HostRuntime) -> Result<bool, Stopped> {
    let Options { echo, file } = Options::read(rt)?;
    let mut console = Console::new(rt.alloc(), echo);
    match file {
        Some(name) => console.take_file(rt, name)?,
        None => console.take_lines(rt, BufReader::new(rt.alloc(), rt.stdin())?)?,
    }
    Ok(console.understood)
}

impl Console {
    fn new(heap: Global, echo: bool) -> Console
        ensures { (result.echo ≡ echo) × (result.understood ≡ true) }
    {
        Console {
            echo,
            session: Session::new(heap),
            understood: true,
        }
    }

    fn take_file(&mut self, rt: &HostRuntime, name: String) -> Result<(), Stopped> {
        let file = File::open(rt, name.as_str()).map_err(|e| Stopped::File(name, e))?;
        Ok(self.take_lines(rt, BufReader::new(rt.alloc(), file)?)?)
    }

    fn take_lines<I: BufRead + Drop>(&mut self, rt: &HostRuntime, mut input: I) -> io::Result<()> {
        let mut line = Vec::new(rt.alloc());
        for number in 1..u64::MAX {
            line.clear();
            if input.read_until(b'\n', &mut line)? == 0 {
                break;
            }
            self.take_line(rt, number, line.as_slice())?;
        }
        Ok(())
    }

    fn take_line(&mut self, rt: &HostRuntime, number: u64, line: &[u8]) -> io::Result<()> {
        let Ok(text) = std::str::from_utf8(line) else {
            return self.complain(rt, number, Trouble::Line(Misread::Text, "some byte of it"));
        };
        let command = command_of(text);
        if command.is_empty() {
            return Ok(());
        }
        if self.echo {
            println!(rt; "> {command}")?;
        }
        match self.session.answer(rt.alloc(), Words::new(command)) {
            Ok(answer) => println!(rt; "{answer}"),
            Err(trouble) => self.complain(rt, number, trouble),
        }
    }

    // A refusal is told as an answer is, want of memory as well, and is no error of the run. A line that is misread is one.
    fn complain(&mut self, rt: &HostRuntime, number: u64, trouble: Trouble<'_>) -> io::Result<()>
        ensures memory { trouble.entry ≡ Trouble.Memory → self.new ≡ self.old }
        ensures refused { (e : Refusal) → trouble.entry ≡ Trouble.Refused e → self.new ≡ self.old }
        ensures error { (trouble.entry ≢ Trouble.Memory) → ((e : Refusal) → trouble.entry ≢ Trouble.Refused e) → self.new.understood ≡ false }
    {
        match trouble {
            Trouble::Memory | Trouble::Refused(_) => println!(rt; "{trouble}"),
            Trouble::Line(..) => {
                self.understood = false;
                println!(rt; "error line {number}: {trouble}")
            }
        }
    }
}
