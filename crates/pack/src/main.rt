// Packs bodies into a collection: arguments are rule numbers, each with the file of its body behind it. The collection
// goes to standard output.
#![tactic(auto)]

mod words;

ghost use Rattle.std.specs.Prelude.{◌≤◌};

use collection::ENTRY_LIMIT;
use input::Unread;
use output::Program;
use std::env::Env;
use std::fs::Files;
use std::io::Write;

// Bytes lent for the collection.
const ROOM: usize = 65536;

// The most bytes that the bodies may have together, so that each length has two bytes. No more fit into the collection.
const BODIES: usize = 65535;

// One rule more than a collection can have. What stands behind is not read: the count is refused before it matters.
const MOST: usize = ENTRY_LIMIT + 1;

// What packing takes: the arguments and the files, the standard streams, and a space for a text.
#[derive(Drop)]
struct Packer<'r, 's, R> {
    rt: &'r R,
    program: Program,
    space: &'s mut [u8],
}

impl<R: Env + Files> Packer<'_, '_, R> {
    // The name of an entry's file, which stands behind the rule number.
    fn name_of(&mut self, entry: usize) -> &[u8] {
        let argument = 2 + 2 * basics::least_of(entry, MOST);
        let length = arguments::text_at(self.rt, argument, self.space);
        basics::part(self.space, 0, length)
    }

    // Reads the file of an entry into a space that has a byte more than is left for it. Standard error has told what
    // failed.
    fn read_body(&mut self, entry: usize, left: &mut [u8]) -> Result<usize, Unread> {
        let rt = self.rt;
        let program = self.program;
        let name = self.name_of(entry);
        let read = input::read_file(rt, program, name, left);
        if let Err(Unread::Longer) = read {
            program.complain_of(
                name,
                b"the bodies up to this one have more than 65535 bytes",
            );
        }
        read
    }

    // Reads the bodies one behind the other, fills the list with their lengths, and answers how long they are. No file
    // comes with more bytes than are left: `read_body` says that it is longer.
    fn read_bodies(
        &mut self,
        lengths: &mut [u16],
        bodies: &mut [u8; ROOM],
    ) -> Result<usize, Unread> {
        let mut from = 0;
        for (i, place) in lengths.iter_mut().enumerate() {
            let length = self.read_body(i, &mut bodies[from..])?;
            let size = basics::least_of(length, BODIES - from);
            *place = size as u16;
            from += size;
        }
        Ok(from)
    }

    // Writes the collection, or tells why it is refused, with the name of the file whose entry is the place.
    fn write(&mut self, rules: &[u16], lengths: &[u16], bodies: &[u8]) {
        let mut area = [0u8; ROOM];
        let mut program = self.program;
        match writer::write(rules, lengths, bodies, &mut area) {
            Ok(length) => program.tell(program.output.write_all(basics::part(&area, 0, length))),
            Err(refusal) => words::refusal(program, refusal, self.name_of(refusal.place)),
        }
    }

    // Packs so many rules.
    fn pack(&mut self, count: usize)
        requires { count ≤ 513 }
    {
        let mut rule_list = [0u16; MOST];
        let mut length_list = [0u16; MOST];
        let mut bodies = [0u8; ROOM];
        let rules = &mut rule_list[0..count];
        let lengths = &mut length_list[0..count];
        if arguments::fill_two_bytes(self.rt, rules, 1, 2, self.space).is_none() {
            words::usage(self.program);
            return;
        }
        if let Ok(length) = self.read_bodies(lengths, &mut bodies) {
            self.write(rules, lengths, basics::part(&bodies, 0, length));
        }
    }
}

fn main(rt: HostRuntime) {
    let mut program = Program::new("pack: ", &rt);
    let mut space = [0u8; arguments::ROOM];
    if arguments::is_word(&rt, 1, b"--help", &mut space) {
        program.tell(program.output.write_all(words::HELP));
        return;
    }
    // The program's name, and two arguments for each rule.
    let count = arguments::count(&rt);
    if count < 3 || count % 2 == 0 {
        words::usage(program);
        return;
    }
    let mut packer = Packer {
        rt: &rt,
        program,
        space: &mut space,
    };
    packer.pack(basics::least_of(count / 2, MOST));
}
