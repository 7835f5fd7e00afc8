//! What files stand for that a mending leaves. The functions do nothing.
ghost use Rattle.kdcfile_copies.specs.MendingLaws.{ShutMeansNothing, CopiesMeanTheSame};

/// A file whose gate is not open, or with nothing after it, stands for no image.
pub fn shut_files_mean_nothing()
    ensures { ShutMeansNothing }
{}

/// A file that begins with the bytes of another one stands for what that one stands for.
pub fn copies_mean_the_same()
    ensures { CopiesMeanTheSame }
{}
