// What the program says of itself.
use output::Program;

// The line that tells a wrong form, by as many writes as parts.
const USAGE: [&str; 6] = [
    "usage: ask judge | classes AREA | step READING STATE MESSAGE | trace READING MESSAGE..",
    " | trace READING @FILE | fault SET READING AREA",
    " | trust SET READING VERDICT AREA | proof SET READING BLOCK..",
    " | proof SET READING @FILE | blocks READING | rule RULE FORM.. | body RULE",
    " | collection | write AREA RULE.. / LENGTH.. | why NUMBER",
    "; ask --help says more\n",
];

// A wrong form: one line on standard error.
pub fn usage(program: Program) {
    for part in USAGE {
        program.say(part.as_bytes());
    }
}

pub const HELP: &[u8] = b"\
ask answers one question on one line. The table's body is read from standard input:
  ask judge                          accepted, or refused
  ask classes AREA                   monitorability, states reached, the class of each state
  ask step READING STATE MESSAGE     the next state and its reading
  ask trace READING MESSAGE..        the reading, and after how many messages the verdict fell
  ask trace READING @FILE            the same for the bytes of a file, a message each
  ask fault SET READING AREA         immune, or vulnerable with the first witness
  ask trust SET READING VERDICT AREA yes: VERDICT can be believed, or no with the first witness
  ask proof SET READING BLOCK..      accepted if these blocks prove it immune, or refused
  ask proof SET READING @FILE        the same for the bytes of a file, a block each
  ask blocks READING                 the block of each state: a proof if it is immune
Or a collection is:
  ask rule RULE FORM..               one of these forms, judge to blocks, for a rule's body
  ask body RULE                      the bytes of a rule's body
  ask collection                     accepted and the number of rules, or refused
Or bodies are, one behind the other:
  ask write AREA RULE.. / LENGTH..   the bytes of the collection that has these rules and bodies
Nothing is read:
  ask why NUMBER                     what the number of a refusal stands for

A reading is 3 (settled marks) or 6 (classes); a set is the sum of loss 1, corruption 2, repeat 4,
swap 8; a verdict is 0 not yet, 1 true, 2 false under reading 3, under reading 6 a class: 0 good,
1 bad, 2 positive, 3 negative, 4 neutral, 5 ugly. It can be believed if the sent trace reads it
wherever the received one does. A block is a number below the number of states. AREA is the number
of bytes lent for the answer: 16514 is always enough, for write 69634. A refusal is the word
refused, a number and a place.

Example: ask rule 20 fault 8 3 3 < samples/sample.collection
docs/FORMAT.md in the repository explains the bytes, the numbers and the answers.
";
