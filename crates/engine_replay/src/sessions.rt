// The engine's sessions, one after the other.
ghost use Rattle.std.specs.Prelude.{◌≡◌};
ghost use Rattle.std.proofs.Common.{rules};
ghost use Rattle.engine_lines.specs.declared.answers.Answers.{Answers};
ghost use Rattle.engine_lines.specs.Lines.{agreement_with, in_all};

use engine_lines::answers::{Agreement, Answers};
use engine_lines::host::Host;
use engine_lines::line::LINE;
use engine_lines::opening::Opening;
use engine_lines::submission::Submission;
use hexadecimal::word_at;
use replays::lines::Replayed;
use std::io;
use std::io::Stdout;
use std::num::NonZeroUsize;

// One host for all sessions, what opened the last of them, and in what the last line agrees.
#[derive(Drop)]
pub struct Sessions {
    host: Host,
    opening: Option<Opening>,
    agreement: Agreement,
}

impl Sessions {
    pub fn new() -> Sessions {
        Sessions {
            host: Host::new(),
            opening: None,
            agreement: Agreement {
                answer: true,
                state: true,
                shown: true,
            },
        }
    }

    // What the engine answers to a line. A first line that opens no session is read as one that does
    // where the sound is made.
    fn answers_to(&mut self, line: &[u8; LINE]) -> Answers {
        if opens(line) {
            let o = Opening::of(line);
            self.opening = Some(o);
            return self.host.open(o);
        }
        let o = self.opening.unwrap_or(Opening::of(line));
        self.opening = Some(o);
        self.host.submit(o, Submission::of(line))
    }

    // Whether a line says what is answered to it. Which of its answers agree is kept, for `report`.
    fn compared(&mut self, line: &[u8; LINE], found: Answers) -> bool
        ensures value { result ≡ in_all (agreement_with line.now found) }
        ensures kept { self.new.agreement ≡ agreement_with line.now found }
    {
        self.agreement = Agreement::with(line, found);
        self.agreement.in_all()
    }
}

impl Replayed<LINE> for Sessions {
    ghost MayAgree = { λ line b. (found : Answers) × (b ≡ in_all (agreement_with line found)) };

    fn agrees(&mut self, line: &[u8; LINE]) -> bool {
        let found = self.answers_to(line);
        self.compared(line, found)
    }

    // In what it differs.
    fn report(&self, out: Stdout, number: NonZeroUsize) -> io::Result<()> {
        print!(out; "line {number} differs:")?;
        let same = self.agreement;
        for (same, name) in [
            (same.answer, " answer"),
            (same.state, " state"),
            (same.shown, " snapshot"),
        ] {
            if !same {
                out.print(name)?;
            }
        }
        out.print("\n")
    }

    // After which line it is cut off.
    fn report_cut_off(&self, out: Stdout, number: NonZeroUsize) -> io::Result<()> {
        let before = number.get() - 1;
        println!(out; "cut off after line {before}")
    }

    ghost sized = { Prim.search rules };
}

// Whether a line opens a session.
pub fn opens(line: &[u8; LINE]) -> bool {
    word_at(line, 0) == 0
}
