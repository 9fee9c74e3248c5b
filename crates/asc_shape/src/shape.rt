ghost use Rattle.std.specs.Prelude.{◌≡◌, ◌+◌, ◌≤◌};
ghost use Rattle.asc_shape.specs.Shape.{shape_of};
ghost use Rattle.asc_model.specs.Shape.{IsShape, start_of, place_of, holds, is_size};
ghost use Rattle.asc_model.specs.declared.version.Version.TheVariants.{One, Two};

use asc_model::{LEAST_SIZE, MOST_SIZE, PAGE_SIZE, Version};
use std::marker::Model;

/// Why a base and a size make no shape.
#[derive(Clone, Copy, Debug, PartialEq, Eq)]
pub enum ShapeFault {
    /// The base is not a multiple of `PAGE_SIZE`, or memory would end past address 2^32 - 1.
    Base,
    /// The size is not a multiple of 4, below `LEAST_SIZE` or above `MOST_SIZE`.
    Size,
}

/// Where a machine's memory begins, how many bytes it has, and which version the machine is of.
///
/// Contracts see it as the `Shape` of the model; each one is good (`IsShape`).
#[derive(Clone, Copy, Debug, PartialEq, Eq)]
pub struct Shape {
    base: u32,
    size: u32,
    version: Version,
}

impl Model for Shape {
    ghost use Rattle.asc_model.specs.Shape as model;

    ghost Value = { model.Shape };

    ghost view = { λ s. record { base = s.base; size = s.size; version = s.version } };

    ghost invariant = { λ s. model.IsShape (record { base = s.base; size = s.size; version = s.version }) };

    ghost inverse = { λ s. record { base = s.base; size = s.size; version = s.version } };
}

impl Shape {
    /// A shape of version One, or the first fault.
    pub fn new(base: u32, size: u32) -> Result<Shape, ShapeFault>
        ensures { result ≡ shape_of base size One }
    {
        Shape::of(base, size, Version::One)
    }

    /// A shape of version Two, or the first fault.
    pub fn two(base: u32, size: u32) -> Result<Shape, ShapeFault>
        ensures { result ≡ shape_of base size Two }
    {
        Shape::of(base, size, Version::Two)
    }

    /// A shape of a version, or the first fault.
    pub fn of(base: u32, size: u32, version: Version) -> Result<Shape, ShapeFault>
        ensures { result ≡ shape_of base size version }
    {
        if !base.is_multiple_of(PAGE_SIZE) || u64::from(base) + u64::from(size) > 1 << 32 {
            return Err(ShapeFault::Base);
        }
        if !Shape::good_size(size) {
            return Err(ShapeFault::Size);
        }
        Ok(Shape {
            base,
            size,
            version,
        })
    }

    /// Whether a shape may have this size, in bytes.
    pub fn good_size(size: u32) -> bool
        ensures { result ≡ is_size size }
    {
        size.is_multiple_of(4) && (LEAST_SIZE..=MOST_SIZE).contains(&size)
    }

    /// The address at which memory begins.
    pub fn base(&self) -> u32
        ensures base { result ≡ self.now.base }
        ensures good { IsShape self.now }
    {
        self.base
    }

    /// The number of bytes of memory.
    pub fn size(&self) -> u32
        ensures { result ≡ self.now.size }
    {
        self.size
    }

    /// The version of the machine, which says where memory begins.
    pub fn version(&self) -> Version
        ensures { result ≡ self.now.version }
    {
        self.version
    }

    /// The place at which memory begins: 128 in version One, 136 in version Two.
    pub fn start(&self) -> u32
        ensures { result ≡ start_of self.now.version }
    {
        // The number of version One is 0, and that of version Two is 1.
        128 + 8 * (self.version as u32)
    }

    /// Whether the `n` bytes from an address on are all in memory. The sums do not wrap.
    ///
    /// No bytes at all are in memory from its base to its end, both included.
    #[inline]
    pub fn holds(&self, at: u32, n: u32) -> bool
        ensures { result ≡ holds self.now at n }
    {
        self.base <= at
            && u64::from(at) + u64::from(n) <= u64::from(self.base) + u64::from(self.size)
    }

    /// The place of an address from the base of memory to its end, both included.
    #[inline]
    pub fn place_of(&self, at: u32) -> u32
        requires least { self.now.base ≤ at }
        requires most { at ≤ self.now.base + self.now.size }
        ensures { result ≡ place_of self.now at }
    {
        self.start() + (at - self.base)
    }
}
