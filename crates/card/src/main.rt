// The cards of a collection's rules, for a person. Reads the collection from standard input; arguments name the rules,
// and with none all are shown.
#![tactic(auto)]

mod chosen;
mod page;
mod words;

use chosen::Call;
use input::{TOO_LONG, Unread};
use output::Program;
use page::Page;
use std::env::Env;
use std::io;
use std::io::Write;

impl<R: Env> Call<'_, '_, R> {
    // The cards of the rules that are asked for, with an empty line between two. Here and below the collection is what
    // is first in the space, so many bytes.
    fn cards(&mut self, page: &mut Page, length: usize, count: usize) -> io::Result<()> {
        for i in 0..count {
            let rule = collection::rule_number(basics::part(self.space, 0, length), i);
            if chosen::take(self.wanted, rule) {
                page.begin(true)?;
                let file = basics::part(self.space, 0, length);
                showing::card(&mut page.out, rule, collection::body(file, i))?;
            }
        }
        Ok(())
    }

    // What is printed of the collection, or why it is refused.
    fn report(&mut self, length: usize) -> io::Result<()> {
        match collection::judge(basics::part(self.space, 0, length)) {
            Ok(count) => {
                if count == 0 {
                    writeln!(self.program.output, "no rules in the collection")?;
                }
                let mut page = Page {
                    out: self.program.output,
                    gap_due: false,
                };
                self.cards(&mut page, length, count)?;
                self.missing_lines(&mut page)
            }
            Err(refusal) => words::refused(&mut self.program.output, refusal),
        }
    }

    fn answer(&mut self) -> io::Result<()> {
        match input::read(self.program, self.space) {
            Ok(length) => self.report(length),
            Err(Unread::Longer) => words::refused(&mut self.program.output, TOO_LONG),
            Err(Unread::Failed) => Ok(()),
        }
    }
}

fn main(rt: HostRuntime) {
    let mut program = Program::new("card: ", &rt);
    let mut space = [0u8; arguments::ROOM];
    if arguments::is_word(&rt, 1, b"--help", &mut space) {
        program.tell(program.output.write_all(words::HELP));
        return;
    }
    let mut wanted = [chosen::wanted_at_first(&rt); chosen::NUMBERS];
    let mut call = Call {
        rt: &rt,
        program,
        wanted: &mut wanted,
        space: &mut space,
    };
    match call.read_arguments() {
        Some(()) => program.tell(call.answer()),
        None => words::usage(program),
    }
}
