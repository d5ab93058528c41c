//! The words of shared memory as a routine sees them.

ghost use Rattle.std.specs.Prelude.{◌≡◌, ◌<◌, IsTrue, length};
ghost use Rattle.cal_base.specs.Memory.{Memory, kinds_of, is_ordinary};
ghost use Rattle.cal_base.specs.Updates.{Written};
ghost use Rattle.cal_base.specs.Stores.{Routine, read_word, write_word, Adds};

use crate::ends::Overflow;

/// The memory on which a step opened, under what one routine wrote and added itself.
pub trait Words {
    ghost opening: { Self → Memory };

    ghost written: { Self → Written };

    /// What lies between the words before some calls and after them: by it, what they hold besides is known again.
    ghost keeps: { Self → Self → Type 0 };

    /// An ordinary word: what was written last, else the opening value.
    fn read(&mut self, a: u32) -> i64
        requires range { a < length (opening self.old) }
        requires ordinary { IsTrue (is_ordinary (kinds_of (opening self.old)) a) }
        ensures value { result ≡ read_word (Routine (opening self.old) (written self.old)) a }
        ensures opening { opening self.new ≡ opening self.old }
        ensures written { written self.new ≡ written self.old }
        ensures keeps { keeps self.old self.new };

    /// Writes an ordinary word.
    fn write(&mut self, a: u32, v: i64)
        requires range { a < length (opening self.old) }
        requires ordinary { IsTrue (is_ordinary (kinds_of (opening self.old)) a) }
        ensures opening { opening self.new ≡ opening self.old }
        ensures written { Routine (opening self.new) (written self.new) ≡ write_word (Routine (opening self.old) (written self.old)) a v }
        ensures keeps { keeps self.old self.new };

    /// Adds to an ordinary word as it reads, or to the running sum of a tally word. A sum outside 64 bits changes nothing.
    fn add(&mut self, a: u32, v: i64) -> Result<(), Overflow>
        requires { a < length (opening self.old) }
        ensures opening { opening self.new ≡ opening self.old }
        ensures written { Adds (Routine (opening self.old) (written self.old)) a v (Routine (opening self.new) (written self.new)) result }
        ensures keeps { keeps self.old self.new };

    /// No call lies between words and themselves.
    ghost keeps_itself: { (words : Self) → keeps words words };

    /// Calls may follow calls.
    ghost keeps_on: { (first second third : Self) → keeps first second → keeps second third → keeps first third };
}
