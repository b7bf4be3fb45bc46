ghost use Rattle.std.specs.Prelude.{◌≤◌, ℕ, List, length};
ghost use Rattle.outside_io.specs.Disk.{FileState, IsWithin, wrote, shortened};

/// A law: what a crash may leave before a write or a cut it may leave after it too. So whoever looks at the images
/// between two calls has seen those within a call.
pub fn a_call_keeps_the_images_before_it()
    ensures written { (at : ℕ) (bytes : List ℕ) (f : FileState) → at ≤ length f.bytes → IsWithin (wrote at bytes f) f }
    ensures cut { (n : ℕ) (f : FileState) → n ≤ length f.bytes → IsWithin (shortened n f) f }
{}
