// What the arguments ask.
use arguments::Rest;
use std::env::Env;

// The first argument behind `write` and its room.
pub const LISTS: usize = 3;

// What a form is asked of: the body on standard input, the body of a rule of the collection there, or that collection
// itself, which is only judged.
#[derive(Clone, Copy)]
pub enum Subject {
    Body,
    Rule(usize),
    Collection,
}

// Where the messages of a trace are, or the blocks of a proof: the arguments from one on, or the bytes of the file that
// an argument names.
#[derive(Clone, Copy)]
pub enum Source {
    Arguments { first: usize },
    File { argument: usize },
}

// A question about a body, with its numbers.
#[derive(Clone, Copy)]
pub enum Form {
    Judge,
    Body,
    Classes {
        room: usize,
    },
    Step {
        domain: usize,
        state: usize,
        symbol: usize,
    },
    Trace {
        domain: usize,
        source: Source,
    },
    Fault {
        set: usize,
        domain: usize,
        room: usize,
    },
    Trust {
        set: usize,
        domain: usize,
        verdict: usize,
        room: usize,
    },
    Proof {
        set: usize,
        domain: usize,
        source: Source,
    },
    Blocks {
        domain: usize,
    },
}

// What is asked, and of what.
#[derive(Clone, Copy)]
pub struct Question {
    pub subject: Subject,
    pub form: Form,
}

// What the arguments ask: help, the words of a refusal, a form, or a collection to be written.
#[derive(Clone, Copy)]
pub enum Asked {
    Help,
    Why {
        number: usize,
    },
    Form(Question),
    Write {
        room: usize,
        rules: usize,
        lengths: usize,
    },
}

// The words that begin a question or a form.
#[derive(Clone, Copy)]
enum Word {
    Help,
    Why,
    Rule,
    Collection,
    Write,
    Body,
    Judge,
    Classes,
    Step,
    Trace,
    Fault,
    Trust,
    Proof,
    Blocks,
}

fn word_of(text: &[u8]) -> Option<Word> {
    match text {
        b"--help" => Some(Word::Help),
        b"why" => Some(Word::Why),
        b"rule" => Some(Word::Rule),
        b"collection" => Some(Word::Collection),
        b"write" => Some(Word::Write),
        b"body" => Some(Word::Body),
        b"judge" => Some(Word::Judge),
        b"classes" => Some(Word::Classes),
        b"step" => Some(Word::Step),
        b"trace" => Some(Word::Trace),
        b"fault" => Some(Word::Fault),
        b"trust" => Some(Word::Trust),
        b"proof" => Some(Word::Proof),
        b"blocks" => Some(Word::Blocks),
        _ => None,
    }
}

fn word_asked<R: Env>(rest: &mut Rest<'_, '_, R>) -> Option<Word> {
    word_of(rest.text()?)
}

// What all the arguments that are left stand for: a file, if there is one argument and it is @ and a name.
fn source_asked<R: Env>(rest: &mut Rest<'_, '_, R>) -> Source {
    let first = rest.next;
    if rest.count() == 1 {
        if let Some([b'@', _, ..]) = rest.text() {
            return Source::File { argument: first };
        }
    }
    rest.skip();
    Source::Arguments { first }
}

// The form of this word.
fn form_asked<R: Env>(word: Word, rest: &mut Rest<'_, '_, R>) -> Option<Form> {
    let form = match word {
        Word::Judge => Form::Judge,
        Word::Classes => Form::Classes {
            room: rest.number()?,
        },
        Word::Step => Form::Step {
            domain: rest.number()?,
            state: rest.number()?,
            symbol: rest.number()?,
        },
        Word::Trace => Form::Trace {
            domain: rest.number()?,
            source: source_asked(rest),
        },
        Word::Fault => Form::Fault {
            set: rest.number()?,
            domain: rest.number()?,
            room: rest.number()?,
        },
        Word::Trust => Form::Trust {
            set: rest.number()?,
            domain: rest.number()?,
            verdict: rest.number()?,
            room: rest.number()?,
        },
        Word::Proof => Form::Proof {
            set: rest.number()?,
            domain: rest.number()?,
            source: source_asked(rest),
        },
        Word::Blocks => Form::Blocks {
            domain: rest.number()?,
        },
        _ => return None,
    };
    Some(form)
}

// A form that is asked of the body of a rule.
fn rule_asked<R: Env>(rest: &mut Rest<'_, '_, R>) -> Option<Asked> {
    let rule = rest.number()?;
    let word = word_asked(rest)?;
    Some(Asked::Form(Question {
        subject: Subject::Rule(rule),
        form: form_asked(word, rest)?,
    }))
}

// A collection to be written: behind the room stand rule numbers, a slash and body lengths.
fn write_asked<R: Env>(rest: &mut Rest<'_, '_, R>) -> Option<Asked> {
    let room = rest.number()?;
    for rules in 0..rest.count() {
        if rest.text()? == b"/".as_slice() {
            let lengths = rest.count();
            rest.skip();
            return Some(Asked::Write {
                room,
                rules,
                lengths,
            });
        }
    }
    None
}

// The question of this word.
fn question_asked<R: Env>(word: Word, rest: &mut Rest<'_, '_, R>) -> Option<Asked> {
    let (subject, form) = match word {
        Word::Help => {
            rest.skip();
            return Some(Asked::Help);
        }
        Word::Why => {
            return Some(Asked::Why {
                number: rest.number()?,
            });
        }
        Word::Rule => return rule_asked(rest),
        Word::Write => return write_asked(rest),
        Word::Collection => (Subject::Collection, Form::Judge),
        Word::Body => (Subject::Rule(rest.number()?), Form::Body),
        _ => (Subject::Body, form_asked(word, rest)?),
    };
    Some(Asked::Form(Question { subject, form }))
}

// Reads the arguments, one after the other, into a space that is lent. None where they ask nothing, or more than one
// thing.
pub fn read(rt: &impl Env, space: &mut [u8]) -> Option<Asked> {
    let mut rest = Rest::new(rt, space, 1);
    let word = word_asked(&mut rest)?;
    let asked = question_asked(word, &mut rest)?;
    if rest.count() > 0 { None } else { Some(asked) }
}
