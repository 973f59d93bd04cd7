// The lowest state of each block, of any block numbers, whatever table they are for.
ghost use Rattle.std.specs.Prelude.{◌≡◌, ◌<◌, length};
ghost use Rattle.theory.specs.Monitor.{state_limit};
ghost use Rattle.certificate.specs.Agreeing.{Numbered, lowest_in, Lowest};

use theory::STATE_LIMIT;

// The lowest state of each block, by block number: the states are entered from the highest down.
pub fn lowest_states(blocks: &[u8]) -> [u8; STATE_LIMIT]
    requires { Numbered state_limit (length blocks.now) blocks.now }
    ensures { Lowest state_limit blocks.now result }
{
    let mut lowest = [0u8; STATE_LIMIT];
    for q in (0..blocks.len()).rev() {
        lowest[blocks[q] as usize] = q as u8;
    }
    lowest
}

// The lowest state of the block of q.
pub fn lowest_of(lowest: &[u8], blocks: &[u8], q: usize) -> usize
    requires { Numbered state_limit (length blocks.now) blocks.now
        × Lowest state_limit blocks.now lowest.now
        × (q < length blocks.now) }
    ensures { result ≡ lowest_in blocks.now q }
{
    let block = blocks[q] as usize;
    lowest[block] as usize
}
