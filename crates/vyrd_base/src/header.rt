//! The header of a log: its limits, and what follows from its numbers.

ghost use Rattle.std.specs.Prelude.{◌≡◌, ◌↔◌, ◌==◌, ◌&&◌, IsTrue, IfSome, IsSome};
ghost use Rattle.vyrd_base.specs.Subjects.{subject_of, same_subject, are_args, limits_of};

use crate::subject::{Args, Method, Subject};

/// The header of a log: what is watched, how large it is, and how many callers it has. Its numbers
/// are within the limits.
#[derive(Clone, Copy, Debug, PartialEq, Eq)]
pub struct Header {
    version: u32,
    subject: Subject,
    size: u32,
    callers: u32,
    ghost within: { IsTrue (limits_of subject version size callers) },
}

impl Header {
    /// The header with these numbers, if they are within the limits. For a subject that is built in,
    /// the version is 1 or 2, the size is from 1 to 1,024, and there are 1 to 64 callers. For one of
    /// the user's own the version is 3, the size is at most 65,536, and there are 1 to 256
    /// callers.
    pub fn new(version: u32, subject: Subject, size: u32, callers: u32) -> Option<Header>
        ensures within { IsSome result ↔ IsTrue (limits_of subject version size callers) }
        ensures version { IfSome result (λ h. h.version ≡ version) }
        ensures subject { IfSome result (λ h. h.subject ≡ subject) }
        ensures size { IfSome result (λ h. h.size ≡ size) }
        ensures callers { IfSome result (λ h. h.callers ≡ callers) }
    {
        if subject.allows(version, size, callers) {
            Some(Header {
                version,
                subject,
                size,
                callers,
            })
        } else {
            None
        }
    }

    /// The version of the log's rules: 1, or from 2 on such that a lone commit may stand inside a
    /// block and starting words are given. It is 3 if the subject is the user's own.
    #[inline(always)]
    pub fn version(&self) -> u32
        ensures { result ≡ self.now.version }
    {
        self.version
    }

    /// The data structure that is watched.
    #[inline(always)]
    pub fn subject(&self) -> Subject
        ensures { result ≡ self.now.subject }
    {
        self.subject
    }

    /// The size of the subject: buckets of 4 slots, chunks, nodes or buffers, from 1 to 1,024, or of
    /// the user's own words, up to 65,536.
    #[inline(always)]
    pub fn size(&self) -> u32
        ensures { result ≡ self.now.size }
    {
        self.size
    }

    /// How many callers there are, from 1 to 64, or up to 256 if the subject is the user's own. A
    /// caller is a number below this one.
    #[inline(always)]
    pub fn callers(&self) -> u32
        ensures { result ≡ self.now.callers }
    {
        self.callers
    }
}

impl Header {
    ghost use Rattle.vyrd_base.specs.Layout.{plain_words, lock_words};

    /// How many plain words there are. They are the cells from 0 on.
    #[inline(always)]
    pub fn plain_words(&self) -> u32
        ensures { result ≡ plain_words self.now }
    {
        self.subject.plain_words(self.size)
    }

    /// How many locks there are. They are the cells after the plain words.
    pub fn lock_words(&self) -> u32
        ensures { result ≡ lock_words self.now }
    {
        self.subject.lock_words(self.size)
    }

    /// Whether a log with this header may call the method with these arguments: the method is of
    /// the header's subject, the number of a chunk or of a buffer is below the size, a character is
    /// below 255, and arguments that the method doesn't have are 0.
    #[inline(always)]
    pub fn fits(&self, method: Method, args: Args) -> bool
        ensures { result ≡ (same_subject (subject_of method) self.now.subject
            && are_args self.now.size method args) }
    {
        method.subject() == self.subject
            && args.are_padded(method.arity())
            && method.are_ranged(self.size, args)
    }
}
