// Which verdicts can be believed when they are received: if not, the first witness against one.
#![tactic(auto)]

ghost use Rattle.std.specs.Prelude.{◌≡◌, length};
ghost use Rattle.theory.specs.Answer.{written};
ghost use Rattle.theory.specs.Monitor.{state_limit};
ghost use Rattle.trust.specs.Trust.{trust_answer, trust_trace, trust};

use basics::Refusal;
use pairs::Workspace;
use square::Test;
use witness::Witness;

// `believe` with the working areas lent, for a caller that asks more than once.
pub fn believe_in(
    workspace: &mut Workspace,
    body: &[u8],
    set: usize,
    domain: usize,
    verdict: usize,
    area: &mut [u8],
) -> Result<Option<Witness>, Refusal>
    ensures figures { trust result
        ≡ trust_answer state_limit body.now set domain verdict (length area.old) }
    ensures area { area.new
        ≡ written (trust_answer state_limit body.now set domain verdict (length area.old))
        (trust_trace body.now set domain verdict) area.old }
{
    let test = Test::Misread(verdict);
    witness::first_witness_in(workspace, body, set, domain, test, area)
}

// The question of trust: whether, after one fault of the set, a received trace that reads the verdict means that the
// sent one reads it too, by marks (domain 3) or by classes (domain 6). None: it can be believed; else the first
// witness, which reads the verdict when received and another when sent. Its sent trace goes into the area, which is
// otherwise left as it was.
pub fn believe(
    body: &[u8],
    set: usize,
    domain: usize,
    verdict: usize,
    area: &mut [u8],
) -> Result<Option<Witness>, Refusal>
    ensures figures { trust result
        ≡ trust_answer state_limit body.now set domain verdict (length area.old) }
    ensures area { area.new
        ≡ written (trust_answer state_limit body.now set domain verdict (length area.old))
        (trust_trace body.now set domain verdict) area.old }
{
    let mut workspace = Workspace::new();
    believe_in(&mut workspace, body, set, domain, verdict, area)
}
