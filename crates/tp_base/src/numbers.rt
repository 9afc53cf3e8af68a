// The typed numbers of the machine, each with its range. They are written out one by one, since a
// macro can write neither contracts nor a `Model`.
ghost use Rattle.std.specs.Prelude.{◌≡◌, ℕ};
ghost use Rattle.tp_base.specs.Ranges.{IsFrameNo, IsLine, IsColour, IsRights, IsDomainNo, IsCycles};
ghost use Rattle.tp_base.specs.Rights.{rights_with};

use std::marker::Model;

/// A physical frame number: an address divided by 4,096.
#[derive(Clone, Copy, Debug, PartialEq, Eq)]
pub struct FrameNo(u32);

impl Model for FrameNo {
    ghost Value = { ℕ };

    ghost view = { λ n. n.0 };

    ghost invariant = { λ n. IsFrameNo n.0 };

    ghost inverse = { λ n. record { 0 = n } };
}

impl FrameNo {
    /// A frame number below 32,768 (2^15).
    pub fn new(number: u32) -> Self
        requires range { IsFrameNo number }
        ensures value { result ≡ number }
    {
        FrameNo(number)
    }

    /// It as an integer below 32,768.
    pub fn number(self) -> u32
        ensures same { result ≡ self }
        ensures range { IsFrameNo result }
    {
        self.0
    }
}

/// A physical line number: an address divided by the line size in bytes.
#[derive(Clone, Copy, Debug, PartialEq, Eq)]
pub struct Line(u32);

impl Model for Line {
    ghost Value = { ℕ };

    ghost view = { λ n. n.0 };

    ghost invariant = { λ n. IsLine n.0 };

    ghost inverse = { λ n. record { 0 = n } };
}

impl Line {
    /// A line number below 8,388,608 (2^23).
    pub fn new(number: u32) -> Self
        requires range { IsLine number }
        ensures value { result ≡ number }
    {
        Line(number)
    }

    /// It as an integer below 8,388,608.
    pub fn number(self) -> u32
        ensures same { result ≡ self }
        ensures range { IsLine result }
    {
        self.0
    }
}

/// A page colour: a frame number modulo the number of colours.
#[derive(Clone, Copy, Debug, PartialEq, Eq)]
pub struct Colour(u8);

impl Model for Colour {
    ghost Value = { ℕ };

    ghost view = { λ n. n.0 };

    ghost invariant = { λ n. IsColour n.0 };

    ghost inverse = { λ n. record { 0 = n } };
}

impl Colour {
    /// A colour below 64.
    pub fn new(number: u8) -> Self
        requires range { IsColour number }
        ensures value { result ≡ number }
    {
        Colour(number)
    }

    /// It as an integer below 64.
    pub fn number(self) -> u8
        ensures same { result ≡ self }
        ensures range { IsColour result }
    {
        self.0
    }
}

/// What a page may be used for, as one number: the sum of 1 to read, 2 to write and
/// 4 to execute.
#[derive(Clone, Copy, Debug, PartialEq, Eq)]
pub struct Rights(u8);

impl Model for Rights {
    ghost Value = { ℕ };

    ghost view = { λ r. r.0 };

    ghost invariant = { λ r. IsRights r.0 };

    ghost inverse = { λ r. record { 0 = r } };
}

impl Rights {
    /// The rights of a number below 8.
    #[inline(always)]
    pub fn new(number: u8) -> Self
        requires range { IsRights number }
        ensures value { result ≡ number }
    {
        Rights(number)
    }

    /// The rights to read, to write and to execute, each where it is said.
    #[inline(always)]
    pub fn with(read: bool, write: bool, execute: bool) -> Self
        ensures value { result ≡ rights_with read write execute }
    {
        Rights(u8::from(read) + 2 * u8::from(write) + 4 * u8::from(execute))
    }

    /// They as an integer below 8.
    #[inline(always)]
    pub fn number(self) -> u8
        ensures same { result ≡ self }
        ensures range { IsRights result }
    {
        self.0
    }
}

/// The number of a domain, by its place in the image.
#[derive(Clone, Copy, Debug, PartialEq, Eq)]
pub struct DomainNo(u8);

impl Model for DomainNo {
    ghost Value = { ℕ };

    ghost view = { λ n. n.0 };

    ghost invariant = { λ n. IsDomainNo n.0 };

    ghost inverse = { λ n. record { 0 = n } };
}

impl DomainNo {
    /// A domain number below 32.
    pub fn new(number: u8) -> Self
        requires range { IsDomainNo number }
        ensures value { result ≡ number }
    {
        DomainNo(number)
    }

    /// It as an integer below 32.
    pub fn number(self) -> u8
        ensures same { result ≡ self }
        ensures range { IsDomainNo result }
    {
        self.0
    }
}

/// A number of cycles, or a moment on the clock.
#[derive(Clone, Copy, Debug, PartialEq, Eq)]
pub struct Cycles(u64);

impl Model for Cycles {
    ghost Value = { ℕ };

    ghost view = { λ n. n.0 };

    ghost invariant = { λ n. IsCycles n.0 };

    ghost inverse = { λ n. record { 0 = n } };
}

impl Cycles {
    /// A number of cycles below 2^63.
    pub fn new(number: u64) -> Self
        requires range { IsCycles number }
        ensures value { result ≡ number }
    {
        Cycles(number)
    }

    /// It as an integer below 2^63.
    pub fn number(self) -> u64
        ensures same { result ≡ self }
        ensures range { IsCycles result }
    {
        self.0
    }
}
