// Answers one question: the question as arguments, the body, the collection or the bodies on standard input, the answer
// as one line on standard output.
#![tactic(auto)]

mod words;

ghost use Rattle.std.specs.Prelude.{◌≤◌};

use answering::Unanswered;
use asking::asked::{Asked, Form, Question, Source};
use asking::{asked, lists, series};
use output::Program;
use printing::{Numbers, Written};
use std::env::Env;
use std::fs::Files;
use std::io;
use std::io::Write;

// What every answer takes: the arguments and the files, the standard streams, and a space for a text or for the input.
#[derive(Drop)]
struct Call<'r, 's, R> {
    rt: &'r R,
    program: Program,
    space: &'s mut [u8],
}

impl<R: Env + Files> Call<'_, '_, R> {
    // The answer line to a question.
    fn answer(&mut self, question: Question, series: &[u8]) -> Result<(), Unanswered> {
        let mut program = self.program;
        let length = input::read(program, self.space)?;
        let input = basics::part(self.space, 0, length);
        answering::answer(&mut program.output, question, input, series)?;
        writeln!(program.output)?;
        Ok(())
    }

    // The same of a form with a trace or a proof. The large array is in a frame of its own, here and below, which the
    // other forms do not have.
    #[inline(never)]
    fn answer_series(&mut self, question: Question, source: Source) -> Result<(), Unanswered> {
        let mut area = [0u8; series::ROOM];
        let length = series::gather(self.rt, self.program, source, &mut area, self.space)?;
        self.answer(question, basics::part(&area, 0, length))
    }

    // The answer line of a collection to be written, whose bodies are the input. The area that is lent has no more
    // bytes than there are.
    #[inline(never)]
    fn answer_lists(
        &mut self,
        rules: &[u16],
        lengths: &[u16],
        room: usize,
    ) -> Result<(), Unanswered> {
        let mut area = [0u8; series::ROOM];
        let end = basics::least_of(room, area.len());
        let lent = &mut area[0..end];
        let input = input::read(self.program, self.space)?;
        let length = writer::write(rules, lengths, basics::part(self.space, 0, input), lent)?;
        let bytes = Numbers(basics::part(lent, 0, length));
        writeln!(self.program.output, "{} bytes{bytes}", Written(length))?;
        Ok(())
    }

    // The same, after the lists are read: so many rule numbers, and so many lengths.
    fn answer_write(
        &mut self,
        room: usize,
        rules: usize,
        lengths: usize,
    ) -> Result<(), Unanswered> {
        if rules > lists::LIMIT || lengths > lists::LIMIT {
            self.program.complain("more than 1024 numbers in a list");
            return Err(Unanswered::Told);
        }
        let mut rule_list = [0u16; lists::LIMIT];
        let mut length_list = [0u16; lists::LIMIT];
        let given_rules = &mut rule_list[..rules];
        let given_lengths = &mut length_list[..lengths];
        lists::read(self.rt, given_rules, given_lengths, self.space).ok_or(Unanswered::Unclear)?;
        self.answer_lists(given_rules, given_lengths, room)
    }

    // What the number of a refusal stands for.
    fn answer_why(&mut self, number: usize) -> Result<(), Unanswered> {
        let out = &mut self.program.output;
        match printing::reason_of(number) {
            Some(reason) => writeln!(out, "{number}: {reason}")?,
            None => writeln!(out, "no refusal has this number")?,
        }
        Ok(())
    }

    // Reads the arguments, and answers what they ask.
    fn answer_arguments(&mut self) -> Result<(), Unanswered> {
        match asked::read(self.rt, self.space).ok_or(Unanswered::Unclear)? {
            Asked::Help => self.program.output.write_all(words::HELP)?,
            Asked::Why { number } => self.answer_why(number)?,
            Asked::Form(question) => match question.form {
                Form::Trace { source, .. } | Form::Proof { source, .. } => {
                    self.answer_series(question, source)?
                }
                _ => self.answer(question, b"")?,
            },
            Asked::Write {
                room,
                rules,
                lengths,
            } => self.answer_write(room, rules, lengths)?,
        }
        Ok(())
    }
}

// Writes what the program has to say where it does not answer.
fn told(mut program: Program, answered: Result<(), Unanswered>) -> io::Result<()> {
    match answered {
        Err(Unanswered::Refused(refusal)) => writeln!(program.output, "{refusal}"),
        Err(Unanswered::Unwritten(reason)) => Err(reason),
        Err(Unanswered::Unclear) => {
            words::usage(program);
            Ok(())
        }
        Ok(()) | Err(Unanswered::Told) => Ok(()),
    }
}

fn main(rt: HostRuntime) {
    let program = Program::new("ask: ", &rt);
    let mut space = [0u8; arguments::ROOM];
    let mut call = Call {
        rt: &rt,
        program,
        space: &mut space,
    };
    let answered = call.answer_arguments();
    program.tell(told(program, answered));
}
