ghost use Rattle.std.specs.Prelude.{◌≡◌, ◌≤◌, List, ℕ, Option, length, OnOk, IfOk};
ghost use Rattle.outside_io.specs.Disk.{History, HasLength, Reads, ReadsAnImage, Does, Syncs, Within, wrote, shortened};
ghost use Rattle.outside_io.specs.Faults.{HasCause};

use crate::failed::Failed;

/// The places from `from` to before `to`, in bytes from the start of a file.
#[derive(Clone, Copy, Debug, PartialEq, Eq)]
pub struct Span {
    pub from: u64,
    pub to: u64,
}

/// One file, which a crash may tear: between two syncs the written ranges and the part past the old end may hold any
/// bytes, and the length is one that lies between those that the file had since.
pub trait Disk {
    /// The file now and after each call before, where it is known.
    ghost history: { Self → Option History };

    /// How often a call has failed.
    ghost faults: { Self → ℕ };

    /// The number of bytes.
    fn len(&mut self) -> Result<u64, Failed>
        ensures length { HasLength (history self.old) result }
        ensures same { history self.new ≡ history self.old }
        ensures cause { HasCause (faults self.old) (faults self.new) result };

    /// Reads the bytes from `at` on into the front of `buf`, all that there are and that there is room for, and answers
    /// how many. What the file reads as is one of the images that a crash may leave.
    fn read(&mut self, at: u64, buf: &mut [u8]) -> Result<usize, Failed>
        ensures bytes { Reads (history self.old) at buf.old buf.new result }
        ensures image { OnOk result (ReadsAnImage (history self.old)) }
        ensures count { IfOk result (λ n. n ≤ length buf.old) }
        ensures room { length buf.new ≡ length buf.old }
        ensures same { history self.new ≡ history self.old }
        ensures cause { HasCause (faults self.old) (faults self.new) result };

    /// Writes all of the bytes over what is there from `at` on, and past the end. `at` is at most the length. `Failed`
    /// leaves no image but those that the call could have left had it been done.
    fn write_at(&mut self, at: u64, bytes: &[u8]) -> Result<(), Failed>
        requires { Within (history self.old) at }
        ensures written { Does (wrote at bytes.now) (history self.old) (history self.new) result }
        ensures cause { HasCause (faults self.old) (faults self.new) result };

    /// Cuts the file to `len` bytes, which is at most its length. `Failed` is as for `write_at`.
    fn cut(&mut self, len: u64) -> Result<(), Failed>
        requires { Within (history self.old) len }
        ensures cut { Does (shortened len) (history self.old) (history self.new) result }
        ensures cause { HasCause (faults self.old) (faults self.new) result };

    /// Makes all of it last: at `Ok` a crash leaves what a read gives. `Failed` adds no image.
    fn sync(&mut self) -> Result<(), Failed>
        ensures kept { Syncs (history self.old) (history self.new) result }
        ensures cause { HasCause (faults self.old) (faults self.new) result };
}
