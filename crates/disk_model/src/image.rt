// The image that some bytes pick.
ghost use Rattle.std.specs.Prelude.{◌≡◌, List, ℕ};
ghost use Rattle.outside_io.specs.Disk.{FileState, IsImage};
ghost use Rattle.disk_model.specs.Picked.{picked};

/// A law: each image is had by some pick, namely by itself.
pub fn each_image_is_picked()
    ensures { (f : FileState) (image : List ℕ) → IsImage f image → picked f image ≡ image }
{}
