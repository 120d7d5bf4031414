ghost use Rattle.std.specs.Prelude.{◌≡◌, ◌+◌, ◌<◌, length};
ghost use Rattle.reel.specs.Reel.{reading};
ghost use Rattle.reel.specs.Walking.{ahead, to_read, Next, Reads};
ghost use Rattle.std.specs.Iterator.{at_most};

use crate::block::Block;
use crate::fault::ReelFault;
use crate::parsing::read_block;

/// The blocks of a reel, one after the other, up to the first that is not lawful: in its place comes the fault, and then nothing.
#[derive(Clone, Copy, PartialEq, Eq, Debug)]
pub struct Blocks<'a> {
    reel: &'a [u8],
    /// How many bytes of the reel are passed: these give the place of the next block, which the rest of the reel alone does not.
    passed: usize,
}

impl<'a> Blocks<'a> {
    /// The blocks of `reel`, from the first.
    pub fn of(reel: &'a [u8]) -> Blocks<'a>
        ensures exact { (result.reel.now ≡ reel.now) × (result.passed ≡ 0) }
        ensures reads { to_read result ≡ reading reel.now }
    {
        Blocks { reel, passed: 0 }
    }

    /// The place of the byte in front, counted from 1.
    fn place(self) -> usize
        requires { self.passed < length self.reel.now }
        ensures { result ≡ self.entry.passed + 1 }
    {
        self.passed + 1
    }
}

impl<'a> Block<'a> {
    /// How many bytes of the reel the block takes.
    fn bytes_taken(self) -> usize
        ensures { result ≡ 1 + length self.entry.map.now + length self.entry.frames.now }
    {
        1 + self.map.len() + self.frames.len()
    }
}

impl<'a> Iterator for Blocks<'a> {
    type Item = Result<Block<'a>, ReelFault>;

    ghost next_gives = { λ s r t. Next s r t × Reads s r t };

    ghost remaining = { λ s. at_most (length (ahead s)) };

    fn next(&mut self) -> Option<Result<Block<'a>, ReelFault>> {
        if self.passed >= self.reel.len() {
            return None;
        }
        let at = self.place();
        match read_block(&self.reel[self.passed..], at) {
            Ok(block) => {
                self.passed += block.bytes_taken();
                Some(Ok(block))
            }
            Err(fault) => {
                self.passed = self.reel.len();
                Some(Err(ReelFault { fault, at }))
            }
        }
    }
}
