//! Laws on images. Each is what a function ensures that does nothing.

ghost use Rattle.asc_elf.specs.Laws.{PrefixesAreCut};

/// The first bytes of an image are never another image: they are `Short`, or end in the `Table` or in a `Segment`, or
/// are the same image again.
pub fn a_prefix_of_an_image()
    ensures { PrefixesAreCut }
{}
